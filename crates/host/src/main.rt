// A small host that calls a station directly: it opens an interval of one unit, and spends the pass on every way out.
#![tactic(auto)]

use fcas::{Bid, Reading};
use limits::Figure;
use plants::Bare;
use station::{Refusal, Returned, Station};
use std::io;

// A regulating bid of 100 MW between 300 and 680 MW.
const BID: Bid = Bid {
    enablement_min: 300_000,
    low_breakpoint: 300_000,
    high_breakpoint: 590_000,
    enablement_max: 680_000,
    max_availability: 100_000,
    bands: [100_000, 0, 0, 0, 0, 0, 0, 0, 0, 0],
};

const READING: Reading = Reading {
    initial: 450.0,
    agc_lower: Some(280.0),
    agc_upper: Some(670.0),
    ramp_up: Some(3.0),
    ramp_down: Some(2.0),
    uigf: None,
    energy_max: 690_000,
    agc_status: 1,
};

fn enrol(station: &mut Station<Bare>) -> Result<(), Refusal> {
    station.enrol(0, 0)?;
    station.bid(0, 4, &BID)
}

// The ten figures of one interval at an energy.
fn interval(station: &mut Station<Bare>, energy: u32, table: &mut [Figure]) -> Result<(), Refusal> {
    let pass = station.open(0, &READING)?;
    // No `?`: the pass has to be abandoned before the refusal is handed on.
    if let Err(refusal) = station.energy(&pass, energy) {
        station.abandon(pass)?;
        return Err(refusal);
    }
    match station.close(pass, table) {
        Ok(()) => Ok(()),
        Err(Returned { pass, refusal }) => {
            station.abandon(pass)?;
            Err(refusal)
        }
    }
}

fn report(
    rt: &impl Print,
    station: &mut Station<Bare>,
    energy: u32,
    table: &mut [Figure],
) -> io::Result<()> {
    match interval(station, energy, table) {
        Ok(()) => println!(rt; "{energy} kW is taken"),
        Err(refusal) => println!(rt; "{energy} kW is refused: {}", refusal.number()),
    }
}

fn main(rt: HostRuntime) -> io::Result<()> {
    let mut station = Station::new(1, 0, Bare);
    let mut table = [Figure::default(); 10];
    if let Err(refusal) = enrol(&mut station) {
        println!(rt; "not enrolled: {}", refusal.number())?;
    }
    report(&rt, &mut station, 460_000, &mut table)?;
    let Figure { figure, ground, .. } = table[4];
    println!(rt; "raise regulation: {figure} kW, held down by limit {ground}")?;
    report(&rt, &mut station, 465_001, &mut table)?;
    report(&rt, &mut station, 460_000, &mut table[0..9])
}
