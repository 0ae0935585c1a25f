// The survey of one unit: which of its services are live, their effective trapeziums, and the figures of a row.
use crate::fault::{Fault, Trouble};
use crate::figures::{put_figures, put_limits};
use crate::lines::{Session, TooLong};
use crate::parse::Words;
use fcas::{CheckedBid, CheckedReading, Ground, Kind, Opening, SERVICES, Service, Trapezium};
use limits::{CheckedRow, CheckedTerms, Row};
use plants::{Bare, PlantChoice};
use std::io;
use std::io::Write;

// The unit as far as its lines have told it.
#[derive(Drop)]
pub struct Survey {
    line: u64,
    kind: Option<Kind>,
    bids: [Option<CheckedBid>; 10],
    reading: Option<CheckedReading>,
    plant: PlantChoice,
    row: Option<Row>,
    with_limits: bool,
    is_done: bool,
}

impl Survey {
    // A survey that lists the limits of the row too, or not.
    pub fn new(with_limits: bool) -> Survey {
        Survey {
            line: 0,
            kind: None,
            bids: [None; 10],
            reading: None,
            plant: PlantChoice::Bare(Bare),
            row: None,
            with_limits,
            is_done: false,
        }
    }

    // Whether the survey was printed.
    pub fn is_done(&self) -> bool {
        self.is_done
    }

    fn take_kind(&mut self, words: &mut Words<'_>) -> Result<(), Trouble> {
        let number = words.kind()?;
        words.end()?;
        self.kind = Some(Kind::try_from(number)?);
        Ok(())
    }

    fn take_bid(&mut self, words: &mut Words<'_>) -> Result<(), Trouble> {
        let number = words.service()?;
        let bid = words.bid()?;
        words.end()?;
        let service = Service::try_from(number)?;
        self.bids[service.number() as usize] = Some(CheckedBid::new(bid)?);
        Ok(())
    }

    fn take_reading(&mut self, words: &mut Words<'_>) -> Result<(), Trouble> {
        let reading = words.reading()?;
        words.end()?;
        self.reading = Some(CheckedReading::new(&reading)?);
        Ok(())
    }

    fn take_plant(&mut self, words: &mut Words<'_>) -> Result<(), Trouble> {
        let plant = words.plant()?;
        words.end()?;
        self.plant = plant;
        Ok(())
    }

    // The row of unit 0; its kind is that of the survey, once that is known.
    fn take_row(&mut self, words: &mut Words<'_>) -> Result<(), Trouble> {
        let row = Row {
            unit: 0,
            kind: Kind::Generator,
            energy: words.energy()?,
            amounts: words.ten()?,
        };
        words.end()?;
        self.row = Some(CheckedRow::new(row)?.row);
        Ok(())
    }

    fn take_line(&mut self, line: Result<&[u8], TooLong>) -> Result<(), Trouble> {
        let mut words = Words::new(line.map_err(Fault::from)?);
        match words.next_word() {
            None => Ok(()),
            Some(b"kind") => self.take_kind(&mut words),
            Some(b"bid") => self.take_bid(&mut words),
            Some(b"reading") => self.take_reading(&mut words),
            Some(b"plant") => self.take_plant(&mut words),
            Some(b"row") => self.take_row(&mut words),
            Some(_) => Err(Trouble::Unread(Fault::UnknownCommand)),
        }
    }
}

impl Survey {
    // The figures of the row, and its limits where they are wanted.
    fn end_row(&self, terms: &CheckedTerms, mut row: Row, out: &mut Vec<u8>) -> io::Result<()> {
        row.kind = terms.terms.kind;
        let Ok(row) = CheckedRow::new(row) else {
            return Ok(());
        };
        put_figures(terms, &row, &self.plant, out)?;
        if self.with_limits {
            put_limits(terms, &row, &self.plant, out)?;
        }
        Ok(())
    }
}

// The five effective numbers, under the columns of the header.
fn put_trapezium(trapezium: &Trapezium, out: &mut Vec<u8>) -> io::Result<()> {
    write!(
        out,
        "  {:>14}  {:>14}  {:>15}  {:>14}  {:>16}",
        trapezium.enablement_min,
        trapezium.low_breakpoint,
        trapezium.high_breakpoint,
        trapezium.enablement_max,
        trapezium.max_availability
    )
}

// Whether a service is live, or the ground that keeps it out.
fn put_state(ground: Option<Ground>, out: &mut Vec<u8>) -> io::Result<()> {
    match ground {
        Some(ground) => write!(out, "{} {ground:<40}", ground.number()),
        None => write!(out, "{:<43}", "live"),
    }
}

// One service of the unit.
fn put_service(
    opening: &Opening,
    service: Service,
    bid: Option<&CheckedBid>,
    out: &mut Vec<u8>,
) -> io::Result<()> {
    write!(out, "{} {service:<10}  ", service.number())?;
    match bid {
        Some(bid) => {
            put_state(Ground::against(opening, service, Some(bid)), out)?;
            put_trapezium(&Trapezium::new(opening, service, bid), out)?;
        }
        None => write!(out, "{} {}", Ground::NoBid.number(), Ground::NoBid)?,
    }
    writeln!(out, "")
}

fn put_header(kind: Kind, out: &mut Vec<u8>) -> io::Result<()> {
    writeln!(out, "{kind}, in kW")?;
    writeln!(
        out,
        "service       {:<43}  enablement min  low breakpoint  high breakpoint  enablement max  max availability",
        "state"
    )
}

fn put_survey(
    opening: &Opening,
    bids: &[Option<CheckedBid>; 10],
    out: &mut Vec<u8>,
) -> io::Result<()> {
    put_header(opening.kind, out)?;
    for (service, bid) in SERVICES.into_iter().zip(bids) {
        put_service(opening, service, bid.as_ref(), out)?;
    }
    Ok(())
}

impl Session for Survey {
    fn take(&mut self, line: Result<&[u8], TooLong>, out: &mut Vec<u8>) -> io::Result<()> {
        self.line = self.line.saturating_add(1);
        let line_number = self.line;
        match self.take_line(line) {
            Ok(()) => Ok(()),
            Err(trouble) => writeln!(out, "line {line_number}: {trouble}"),
        }
    }

    fn end(&mut self, out: &mut Vec<u8>) -> io::Result<()> {
        let Some(kind) = self.kind else {
            return writeln!(out, "no survey: no kind is known");
        };
        let Some(reading) = self.reading else {
            return writeln!(out, "no survey: no reading is known");
        };
        let opening = Opening { kind, reading };
        if let Err(refusal) = opening.check_forecast() {
            return writeln!(out, "no survey: {}", Trouble::Refused(refusal));
        }
        put_survey(&opening, &self.bids, out)?;
        self.is_done = true;
        let terms = CheckedTerms::new(&opening, &self.bids);
        match self.row {
            Some(row) => self.end_row(&terms, row, out),
            None => Ok(()),
        }
    }
}
