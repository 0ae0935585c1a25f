// The words of a line, and what they stand for.
ghost use Rattle.std.specs.Prelude.{◌≡◌, min};

use crate::fault::Fault;
use crate::lines::is_blank;
use fcas::{Bid, Kind, Reading, Service};
use numerals::whole;
use plants::{Bare, Both, ConnectionCap, GovernorShare, PlantChoice};
use std::str::from_utf8;

#[derive(Drop)]
pub struct Words<'a> {
    rest: &'a [u8],
}

// A decimal number as Rust reads a 64-bit float.
fn float(word: &[u8]) -> Result<f64, Fault> {
    let text = from_utf8(word).map_err(|_| Fault::NotFloat)?;
    text.parse().map_err(|_| Fault::NotFloat)
}

// A number that is checked later: one that 32 bits do not hold is above every range, and so is what stands for it.
fn narrowed(number: u64) -> u32
    ensures { result ≡ min number 4294967295 }
{
    u32::try_from(number).unwrap_or(u32::MAX)
}

// By a match each: a word is looked up as bytes, and Display gives its words to a formatter.
fn kind_named(word: &[u8]) -> Option<u32> {
    let kind = match word {
        b"generator" => Kind::Generator,
        b"semi-scheduled" => Kind::SemiScheduled,
        b"load" => Kind::Load,
        b"demand-response" => Kind::DemandResponse,
        _ => return None,
    };
    Some(kind as u32)
}

fn service_named(word: &[u8]) -> Option<u32> {
    let service = match word {
        b"RAISE1SEC" => Service::Raise1Sec,
        b"RAISE6SEC" => Service::Raise6Sec,
        b"RAISE60SEC" => Service::Raise60Sec,
        b"RAISE5MIN" => Service::Raise5Min,
        b"RAISEREG" => Service::RaiseReg,
        b"LOWER1SEC" => Service::Lower1Sec,
        b"LOWER6SEC" => Service::Lower6Sec,
        b"LOWER60SEC" => Service::Lower60Sec,
        b"LOWER5MIN" => Service::Lower5Min,
        b"LOWERREG" => Service::LowerReg,
        _ => return None,
    };
    Some(u32::from(service.number()))
}

impl<'a> Words<'a> {
    pub(crate) fn new(line: &'a [u8]) -> Words<'a> {
        Words { rest: line }
    }

    pub(crate) fn next_word(&mut self) -> Option<&'a [u8]> {
        let line = self.rest;
        let start = line.iter().position(|byte| !is_blank(byte))?;
        let from_word = &line[start..];
        let end = from_word.iter().position(is_blank);
        let (word, rest) = from_word.split_at(end.unwrap_or(from_word.len()));
        self.rest = rest;
        Some(word)
    }

    pub(crate) fn word(&mut self) -> Result<&'a [u8], Fault> {
        self.next_word().ok_or(Fault::TooFewWords)
    }

    // No word is left.
    pub(crate) fn end(&mut self) -> Result<(), Fault> {
        match self.next_word() {
            Some(_) => Err(Fault::TooManyWords),
            None => Ok(()),
        }
    }

    pub(crate) fn whole(&mut self) -> Result<u64, Fault> {
        whole(self.word()?).ok_or(Fault::NotWhole)
    }

    // A number that is checked later.
    pub(crate) fn number(&mut self) -> Result<u32, Fault> {
        Ok(narrowed(self.whole()?))
    }

    // A number that has to fit 32 bits, as those of a station and of a plant have to.
    pub(crate) fn narrow(&mut self, fault: Fault) -> Result<u32, Fault> {
        u32::try_from(self.whole()?).map_err(|_| fault)
    }

    fn float(&mut self) -> Result<f64, Fault> {
        float(self.word()?)
    }

    // A float, or `-` for none.
    fn float_or_absent(&mut self) -> Result<Option<f64>, Fault> {
        match self.word()? {
            b"-" => Ok(None),
            word => float(word).map(Some),
        }
    }

    // A number that is checked later, and that may be named.
    fn number_or_name<F: FnOnce(&[u8]) -> Option<u32>>(
        &mut self,
        named: F,
        fault: Fault,
    ) -> Result<u32, Fault>
        requires { F.IsAlwaysCallable named }
    {
        let word = self.word()?;
        named(word)
            .or_else(|| whole(word).map(narrowed))
            .ok_or(fault)
    }

    // The number of a kind, which may be named: calls take numbers, and the station refuses those that are none.
    pub(crate) fn kind(&mut self) -> Result<u32, Fault> {
        self.number_or_name(kind_named, Fault::NoKind)
    }

    // The number of a service, which may be named.
    pub(crate) fn service(&mut self) -> Result<u32, Fault> {
        self.number_or_name(service_named, Fault::NoService)
    }

    // Ten numbers: the bands of a bid, or the amounts of a row.
    // Filled in place: `array::try_from_fn` was tried, and takes a fifth more instructions.
    pub(crate) fn ten(&mut self) -> Result<[u32; 10], Fault> {
        let mut numbers = [0; 10];
        for number in &mut numbers {
            *number = self.number()?;
        }
        Ok(numbers)
    }

    // An energy; one that 31 bits do not hold is above every range, and so is what stands for it.
    pub(crate) fn energy(&mut self) -> Result<i32, Fault> {
        Ok(i32::try_from(self.number()?).unwrap_or(i32::MAX))
    }

    fn caps(&mut self) -> Result<ConnectionCap, Fault> {
        let mut caps = [0; 24];
        for cap in &mut caps {
            *cap = self.narrow(Fault::TooWide)?;
        }
        Ok(ConnectionCap { caps })
    }

    fn share(&mut self) -> Result<GovernorShare, Fault> {
        Ok(GovernorShare {
            raise: self.narrow(Fault::TooWide)?,
            lower: self.narrow(Fault::TooWide)?,
        })
    }

    fn keyword(&mut self, keyword: &[u8]) -> Result<(), Fault> {
        if self.word()? == keyword {
            Ok(())
        } else {
            Err(Fault::NoPlant)
        }
    }

    pub(crate) fn plant(&mut self) -> Result<PlantChoice, Fault> {
        match self.word()? {
            b"bare" => Ok(PlantChoice::Bare(Bare)),
            b"cap" => Ok(PlantChoice::Cap(self.caps()?)),
            b"share" => Ok(PlantChoice::Share(self.share()?)),
            b"both" => {
                self.keyword(b"cap")?;
                let cap = self.caps()?;
                self.keyword(b"share")?;
                Ok(PlantChoice::CapAndShare(Both(cap, self.share()?)))
            }
            _ => Err(Fault::NoPlant),
        }
    }

    pub(crate) fn bid(&mut self) -> Result<Bid, Fault> {
        Ok(Bid {
            enablement_min: self.number()?,
            low_breakpoint: self.number()?,
            high_breakpoint: self.number()?,
            enablement_max: self.number()?,
            max_availability: self.number()?,
            bands: self.ten()?,
        })
    }

    pub(crate) fn reading(&mut self) -> Result<Reading, Fault> {
        Ok(Reading {
            initial: self.float()?,
            agc_lower: self.float_or_absent()?,
            agc_upper: self.float_or_absent()?,
            ramp_up: self.float_or_absent()?,
            ramp_down: self.float_or_absent()?,
            uigf: self.float_or_absent()?,
            energy_max: self.number()?,
            agc_status: self.number()?,
        })
    }
}
