// Worked rows: their figures, and the limits that hold them down.
ghost use Rattle.std.specs.Prelude.{false};

use fcas::{Bid, CheckedBid, CheckedReading, Kind, Opening, Reading, Refusal, Service};
use limits::{
    CheckedRow, CheckedTerms, Figure, Limit, PlantLimit, Row, figures, first_broken, probe,
};
use plants::{Bare, GovernorShare};
use std::test::Fail;

// A plant that allows no row.
#[derive(Clone, Copy)]
struct Shut;

impl PlantLimit for Shut {
    ghost allowed = { λ _ _. false };

    ghost lowering = { λ _ _ _ _ _ h. h };

    fn allows(&self, _row: &Row) -> bool {
        false
    }

    fn most(&self, _row: &Row, _service: u8) -> Option<u32> {
        None
    }
}

const NO_BIDS: [Option<CheckedBid>; 10] = [None; 10];

fn bid(
    enablement_min: u32,
    low_breakpoint: u32,
    high_breakpoint: u32,
    enablement_max: u32,
    max_availability: u32,
) -> Result<Option<CheckedBid>, Refusal> {
    let bands = [1, 0, 0, 0, 0, 0, 0, 0, 0, 0];
    Ok(Some(CheckedBid::new(Bid {
        enablement_min,
        low_breakpoint,
        high_breakpoint,
        enablement_max,
        max_availability,
        bands,
    })?))
}

fn reading(initial: f64, ramp_up: Option<f64>, ramp_down: Option<f64>) -> Reading {
    Reading {
        initial,
        agc_lower: None,
        agc_upper: None,
        ramp_up,
        ramp_down,
        uigf: None,
        energy_max: 690_000,
        agc_status: 1,
    }
}

fn generator_reading(ramp_up: Option<f64>, ramp_down: Option<f64>) -> Reading {
    Reading {
        agc_lower: Some(280.0),
        agc_upper: Some(670.0),
        ..reading(450.0, ramp_up, ramp_down)
    }
}

// The terms of a unit of the kind, by a reading and bids.
fn terms(
    kind: Kind,
    bids: &[Option<CheckedBid>; 10],
    reading: &Reading,
) -> Result<CheckedTerms, Refusal> {
    let reading = CheckedReading::new(reading)?;
    Ok(CheckedTerms::new(&Opening { kind, reading }, bids))
}

fn generator_terms() -> Result<CheckedTerms, Refusal> {
    let reading = generator_reading(Some(3.0), Some(2.0));
    let mut bids = NO_BIDS;
    bids[3] = bid(290_000, 300_000, 624_000, 690_000, 66_000)?;
    bids[4] = bid(300_000, 300_000, 590_000, 680_000, 100_000)?;
    bids[8] = bid(290_000, 366_000, 690_000, 690_000, 76_000)?;
    bids[9] = bid(300_000, 400_000, 690_000, 690_000, 100_000)?;
    terms(Kind::Generator, &bids, &reading)
}

// The generator with raise regulation alone, and no ramps.
fn regulating_terms() -> Result<CheckedTerms, Refusal> {
    let reading = generator_reading(None, None);
    let mut bids = NO_BIDS;
    bids[4] = bid(300_000, 300_000, 590_000, 680_000, 100_000)?;
    terms(Kind::Generator, &bids, &reading)
}

fn load_terms() -> Result<CheckedTerms, Refusal> {
    let mut bids = NO_BIDS;
    bids[2] = bid(100_000, 140_000, 300_000, 300_000, 40_000)?;
    bids[4] = bid(100_000, 120_000, 300_000, 300_000, 20_000)?;
    terms(Kind::Load, &bids, &reading(200.0, Some(3.0), Some(4.0)))
}

fn row(kind: Kind, energy: i32, amounts: [u32; 10]) -> Result<CheckedRow, Refusal> {
    CheckedRow::new(Row {
        unit: 0,
        kind,
        energy,
        amounts,
    })
}

// The worked row, with both raise and both lower services.
fn generator_row() -> Result<CheckedRow, Refusal> {
    row(
        Kind::Generator,
        455_000,
        [0, 0, 0, 50_000, 10_000, 0, 0, 0, 50_000, 10_000],
    )
}

// Figure, ground and by as one number of each; 9,999,999 where there is none.
fn told(figure: Option<Figure>) -> (u32, u8, u8) {
    match figure {
        Some(figure) => (figure.figure, figure.ground, figure.by),
        None => (9_999_999, 0, 0),
    }
}

fn probed<P: PlantLimit>(
    terms: &CheckedTerms,
    row: &CheckedRow,
    plant: &P,
    service: u32,
) -> Result<(u32, u8, u8), Refusal> {
    Ok(told(probe(terms, row, plant, Service::try_from(service)?)))
}

fn in_table(table: &Option<[Figure; 10]>, service: usize) -> (u32, u8, u8) {
    told(table.and_then(|table| table.get(service).copied()))
}

// The ground and by of the first broken limit; 0 and 0 where none is.
fn broken<P: PlantLimit>(terms: &CheckedTerms, row: &CheckedRow, plant: &P) -> (u8, u8) {
    match first_broken(terms, row, plant) {
        Some(limit) => (limit.number(), limit.by(terms.terms.kind)),
        None => (0, 0),
    }
}

pub(crate) fn refused(_refusal: Refusal) -> Fail {
    Fail::new("refused")
}

fn generator_figures() -> Result<[(u32, u8, u8); 6], Refusal> {
    let terms = generator_terms()?;
    let row = generator_row()?;
    let table = figures(&terms, &row, &Bare);
    Ok([
        in_table(&table, 3),
        in_table(&table, 4),
        in_table(&table, 8),
        in_table(&table, 9),
        in_table(&table, 7),
        probed(&terms, &row, &Bare, 4)?,
    ])
}

#[test]
fn generator(rt: HostRuntime) -> Result<(), Fail> {
    let told = generator_figures().map_err(refused)?;
    assert_eq!(rt; told[0], (66_000, 1, 3));
    assert_eq!(rt; told[1], (10_000, 6, 4));
    assert_eq!(rt; told[2], (76_000, 1, 8));
    assert_eq!(rt; told[3], (10_000, 1, 9));
    assert_eq!(rt; told[4], (0, 11, 7));
    assert_eq!(rt; told[5], (10_000, 6, 4), "a probe says the same");
    Ok(())
}

fn shared_figures() -> Result<[(u32, u8, u8); 4], Refusal> {
    let share = GovernorShare {
        raise: 70_000,
        lower: 70_000,
    };
    let terms = generator_terms()?;
    let row = generator_row()?;
    let table = figures(&terms, &row, &share);
    Ok([
        in_table(&table, 3),
        in_table(&table, 4),
        in_table(&table, 8),
        probed(&terms, &row, &Shut, 3)?,
    ])
}

#[test]
fn governor_share(rt: HostRuntime) -> Result<(), Fail> {
    let told = shared_figures().map_err(refused)?;
    assert_eq!(rt; told[0], (60_000, 8, 10));
    assert_eq!(rt; told[1], (10_000, 6, 4));
    assert_eq!(rt; told[2], (60_000, 8, 10));
    assert_eq!(rt; told[3], (9_999_999, 0, 0), "a plant that allows no row");
    Ok(())
}

fn regulating_figures() -> Result<[(u32, u8, u8); 3], Refusal> {
    let terms = regulating_terms()?;
    let none = [0; 10];
    Ok([
        probed(&terms, &row(Kind::Generator, 600_000, none)?, &Bare, 4)?,
        probed(&terms, &row(Kind::Generator, 670_000, none)?, &Bare, 4)?,
        probed(&terms, &row(Kind::Generator, 670_001, none)?, &Bare, 4)?,
    ])
}

#[test]
fn regulation_alone(rt: HostRuntime) -> Result<(), Fail> {
    let told = regulating_figures().map_err(refused)?;
    assert_eq!(rt; told[0], (77_777, 2, 4));
    assert_eq!(rt; told[1], (0, 2, 4));
    assert_eq!(rt; told[2], (9_999_999, 0, 0), "not even 0 is borne");
    Ok(())
}

fn load_figure() -> Result<(u32, u8, u8), Refusal> {
    let row = row(Kind::Load, 185_000, [0, 0, 40_000, 0, 0, 0, 0, 0, 0, 0])?;
    probed(&load_terms()?, &row, &Bare, 4)
}

#[test]
fn load(rt: HostRuntime) -> Result<(), Fail> {
    let told = load_figure().map_err(refused)?;
    assert_eq!(rt; told, (5_000, 7, 4));
    Ok(())
}

fn broken_rows() -> Result<[(u8, u8); 6], Refusal> {
    let terms = generator_terms()?;
    let none = [0; 10];
    Ok([
        broken(&terms, &row(Kind::Generator, 465_000, none)?, &Bare),
        broken(&terms, &row(Kind::Generator, 465_001, none)?, &Bare),
        broken(&terms, &row(Kind::Generator, 440_000, none)?, &Bare),
        broken(&terms, &row(Kind::Generator, 439_999, none)?, &Bare),
        broken(&terms, &row(Kind::Generator, 455_000, none)?, &Shut),
        broken(
            &terms,
            &row(
                Kind::Generator,
                455_000,
                [0, 0, 0, 66_001, 0, 0, 0, 0, 0, 0],
            )?,
            &Shut,
        ),
    ])
}

#[test]
fn first_broken_limit(rt: HostRuntime) -> Result<(), Fail> {
    let told = broken_rows().map_err(refused)?;
    assert_eq!(rt; told[0], (0, 0));
    assert_eq!(rt; told[1], (6, 4));
    assert_eq!(rt; told[2], (0, 0));
    assert_eq!(rt; told[3], (7, 9));
    assert_eq!(rt; told[4], (8, 10));
    assert_eq!(rt; told[5], (1, 3), "the plant comes last");
    Ok(())
}
