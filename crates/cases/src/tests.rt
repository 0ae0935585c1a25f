// Readings and bids at the edges of the rules.
use crate::row_tests::refused;
use fcas::{
    Bid, CheckedBid, CheckedReading, Envelope, Ground, Kind, Opening, Reading, Refusal, Service,
    Trapezium,
};
use limits::CheckedTerms;
use std::test::Fail;

const ONE_BAND: [u32; 10] = [0, 0, 0, 0, 0, 0, 0, 0, 0, 1];

fn at(initial: f64) -> Reading {
    Reading {
        initial,
        agc_lower: None,
        agc_upper: None,
        ramp_up: None,
        ramp_down: None,
        uigf: None,
        energy_max: 100_000,
        agc_status: 0,
    }
}

fn refusal(reading: &Reading) -> u8 {
    match CheckedReading::new(reading) {
        Ok(_) => 0,
        Err(refusal) => refusal.number(),
    }
}

// The kilowatts of an initial reading; 5,000,000 where it is refused.
fn initial_kw(megawatts: f64) -> i32 {
    match CheckedReading::new(&at(megawatts)) {
        Ok(reading) => reading.measured.initial,
        Err(_) => 5_000_000,
    }
}

fn bid(availability: u32) -> Bid {
    Bid {
        enablement_min: 20_000,
        low_breakpoint: 20_000,
        high_breakpoint: 90_000,
        enablement_max: 100_000,
        max_availability: availability,
        bands: ONE_BAND,
    }
}

// What the checks make of a kind, a service, a bid and a reading.
fn checked(
    kind: Kind,
    service: u32,
    availability: u32,
    reading: &Reading,
) -> Result<(Opening, Service, CheckedBid), Refusal> {
    let reading = CheckedReading::new(reading)?;
    let bid = CheckedBid::new(bid(availability))?;
    Ok((Opening { kind, reading }, Service::try_from(service)?, bid))
}

fn trapezium(
    kind: Kind,
    service: u32,
    availability: u32,
    reading: &Reading,
) -> Result<Trapezium, Refusal> {
    let (opening, service, bid) = checked(kind, service, availability, reading)?;
    Ok(Trapezium::new(&opening, service, &bid))
}

// The number of the ground against a service, 0 where it is live, and that of the refusal where something is refused.
fn ground(kind: Kind, service: u32, availability: u32, reading: &Reading) -> u8 {
    match find_ground(kind, service, availability, reading) {
        Ok(Some(ground)) => ground.number(),
        Ok(None) => 0,
        Err(refusal) => refusal.number(),
    }
}

fn find_ground(
    kind: Kind,
    service: u32,
    availability: u32,
    reading: &Reading,
) -> Result<Option<Ground>, Refusal> {
    let (opening, service, bid) = checked(kind, service, availability, reading)?;
    Ok(Ground::against(&opening, service, Some(&bid)))
}

#[test]
fn floats_out_of_range(rt: HostRuntime) {
    assert_eq!(rt; refusal(&at(0.0 / 0.0)), 6, "not a number");
    assert_eq!(rt; refusal(&at(1.0 / 0.0)), 6, "infinite");
    assert_eq!(rt; refusal(&at(-1.0 / 0.0)), 6, "infinite, below");
    assert_eq!(rt; refusal(&at(4000.0000001)), 6);
    assert_eq!(rt; refusal(&at(-4000.0000001)), 6);
    assert_eq!(rt; refusal(&at(-4000.0)), 0);
    let mut reading = at(50.0);
    reading.agc_upper = Some(4000.0000001);
    assert_eq!(rt; refusal(&reading), 6);
    reading.agc_upper = Some(-0.0001);
    assert_eq!(rt; refusal(&reading), 6);
    reading.agc_upper = Some(-0.0);
    assert_eq!(rt; refusal(&reading), 0, "minus zero is zero");
}

#[test]
fn nearest_kilowatt(rt: HostRuntime) {
    assert_eq!(rt; initial_kw(0.0005), 1, "a half goes away from zero");
    assert_eq!(rt; initial_kw(0.0004999999999999999), 0, "the float below it");
    assert_eq!(rt; initial_kw(-0.0005), -1);
    assert_eq!(rt; initial_kw(-0.0004), 0);
    assert_eq!(rt; initial_kw(-0.0), 0);
    assert_eq!(rt; initial_kw(3999.9995), 4_000_000);
}

#[test]
fn zero_limits(rt: HostRuntime) -> Result<(), Fail> {
    let mut reading = at(50.0);
    reading.agc_upper = Some(0.0);
    reading.ramp_up = Some(0.0);
    reading.uigf = Some(0.0);
    let generator = trapezium(Kind::Generator, 4, 10_000, &reading).map_err(refused)?;
    assert_eq!(rt;
        generator.enablement_max,
        100_000,
        "an AGC limit of 0 is none, and a generator has no forecast"
    );
    assert_eq!(rt; generator.max_availability, 10_000, "a ramp of 0 is none");
    let wind_farm = trapezium(Kind::SemiScheduled, 4, 10_000, &reading).map_err(refused)?;
    assert_eq!(rt; wind_farm.enablement_max, 0, "a forecast of 0 counts");
    assert_eq!(rt;
        wind_farm.high_breakpoint,
        -10_000,
        "the high breakpoint may lie below zero"
    );
    Ok(())
}

#[test]
fn no_availability(rt: HostRuntime) -> Result<(), Fail> {
    let trapezium = trapezium(Kind::Generator, 1, 0, &at(50.0)).map_err(refused)?;
    assert_eq!(rt; trapezium.low_breakpoint, 20_000);
    assert_eq!(rt; trapezium.high_breakpoint, 100_000);
    assert_eq!(rt; ground(Kind::Generator, 1, 0, &at(50.0)), 12);
    Ok(())
}

#[test]
fn wind_farm(rt: HostRuntime) {
    let mut reading = at(50.0);
    reading.uigf = Some(60.0);
    assert_eq!(rt; ground(Kind::SemiScheduled, 1, 10_000, &reading), 0);
    reading.uigf = Some(15.0);
    assert_eq!(rt; ground(Kind::SemiScheduled, 1, 10_000, &reading), 14);
    assert_eq!(rt;
        ground(Kind::Generator, 1, 10_000, &reading),
        0,
        "another kind has no forecast"
    );
    reading.agc_status = 2;
    assert_eq!(rt; ground(Kind::Generator, 4, 10_000, &reading), 16);
}

// What takes a reading, an envelope or terms by value, so that each is copied by whoever goes on with it.
fn initial_of(reading: CheckedReading) -> i32 {
    reading.measured.initial
}

fn width_of(envelope: Envelope) -> u32 {
    envelope.enablement_max - envelope.enablement_min.min(envelope.enablement_max)
}

fn offered_by(terms: CheckedTerms) -> u32 {
    terms.terms.offers[0].max_availability
}

fn copied() -> Result<[u32; 6], Refusal> {
    let (opening, service, bid) = checked(Kind::Generator, 0, 10_000, &at(50.0))?;
    let reading = opening.reading;
    let envelope = Envelope::new(&opening, service, &bid);
    let bids = [
        Some(bid),
        None,
        None,
        None,
        None,
        None,
        None,
        None,
        None,
        None,
    ];
    let terms = CheckedTerms::new(&opening, &bids);
    Ok([
        initial_of(reading).unsigned_abs(),
        initial_of(reading).unsigned_abs(),
        width_of(envelope),
        width_of(envelope),
        offered_by(terms),
        offered_by(terms),
    ])
}

#[test]
fn copies(rt: HostRuntime) -> Result<(), Fail> {
    let told = copied().map_err(refused)?;
    assert_eq!(rt; told, [50_000, 50_000, 80_000, 80_000, 10_000, 10_000]);
    Ok(())
}
