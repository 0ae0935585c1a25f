// The thirteen calls.
ghost use Rattle.std.specs.Prelude.{◌≡◌, ◌<◌, ◌≤◌, ◌++◌, length, drop, MatchResult};
ghost use Rattle.station.specs.Book.{pass_faults, unit_faults};
ghost use Rattle.station.specs.Lent.{Asked};
ghost use Rattle.station.specs.Turn.{closed_by, closing, done, figured, opened_by, probed_by, scaled, Turn};
ghost use Rattle.station.specs.View.{numbers_of, view_of};
ghost use Rattle.station.specs.declared.call.Call.TheVariants.{Enrol, Retire, Bid as Bids, Withdraw, Open, Energy, Amount, Figure as Figures, Probe, Trapezium as Scales, Close, Abandon, Lapse};

use crate::pass::{Pass, PassNumbers, Returned};
use crate::row::UnitRow;
use crate::station::Station;
use fcas::{Bid, CheckedBid, CheckedReading, Kind, Power, Reading, Service, Trapezium};
use limits::{Figure, PlantLimit};
use states::Refusal;

fn check_unit(unit: u32) -> Result<(), Refusal>
    ensures { Asked (unit_faults unit) (λ _. unit ≤ 23) result }
{
    if unit > 23 {
        return Err(Refusal::UnitUnknown);
    }
    Ok(())
}

// The pass that opening gives.
fn pass_of(number: u32, unit: u32, serial: u64) -> Pass
    ensures { result.numbers ≡ numbers_of number unit serial }
{
    Pass {
        numbers: PassNumbers {
            station: u64::from(number),
            unit: u64::from(unit),
            serial,
        },
    }
}

// Writes ten figures to the first ten places of a table.
fn fill(table: &mut [Figure], figures: &[Figure; 10])
    requires { 10 ≤ length table.old }
    ensures value { table.new ≡ figures.now ++ drop 10 table.old }
    ensures ten { length figures.now ≡ 10 }
{
    table[0..10].copy_from_slice(figures);
}

impl<P: PlantLimit> Station<P> {
    // The unit that is open under a pass.
    fn find(&self, pass: &Pass) -> Result<u32, Refusal>
        ensures { Asked (pass_faults (view_of self.now) pass.now.numbers) (λ unit. (unit ≡ pass.now.numbers.unit) × (unit < length self.now.rows)) result }
    {
        let numbers = pass.numbers;
        match self.rows.get(numbers.unit as usize) {
            Some(row)
                if numbers.station == u64::from(self.number) && row.is_under(numbers.serial) => {
                Ok(numbers.unit as u32)
            }
            _ => Err(Refusal::PassUnknown),
        }
    }

    // Each call makes its checks in the order of the rules, so that two may look alike; kinds and services come as numbers, since the rules refuse some.
    pub fn enrol(&mut self, unit: u32, kind: u32) -> Result<(), Refusal>
        ensures { Turn P.PlantLimit.allowed self.old (Enrol unit kind) (done result) self.new }
    {
        check_unit(unit)?;
        let kind = Kind::try_from(kind)?;
        self.rows[unit as usize].enrol(kind)
    }

    pub fn retire(&mut self, unit: u32) -> Result<(), Refusal>
        ensures { Turn P.PlantLimit.allowed self.old (Retire unit) (done result) self.new }
    {
        check_unit(unit)?;
        self.rows[unit as usize].retire()
    }

    pub fn bid(&mut self, unit: u32, service: u32, bid: &Bid) -> Result<(), Refusal>
        ensures { Turn P.PlantLimit.allowed self.old (Bids unit service bid.now) (done result) self.new }
    {
        check_unit(unit)?;
        let service = Service::try_from(service)?;
        let bid = CheckedBid::new(*bid)?;
        self.rows[unit as usize].bid(service, bid)
    }

    pub fn withdraw(&mut self, unit: u32, service: u32) -> Result<(), Refusal>
        ensures { Turn P.PlantLimit.allowed self.old (Withdraw unit service) (done result) self.new }
    {
        check_unit(unit)?;
        let service = Service::try_from(service)?;
        self.rows[unit as usize].withdraw(service)
    }

    pub fn lapse(&mut self, unit: u32) -> Result<(), Refusal>
        ensures { Turn P.PlantLimit.allowed self.old (Lapse unit) (done result) self.new }
    {
        check_unit(unit)?;
        self.rows[unit as usize].end()
    }

    pub fn open(&mut self, unit: u32, reading: &Reading) -> Result<Pass, Refusal>
        ensures { Turn P.PlantLimit.allowed self.old (Open unit reading.now) (opened_by result) self.new }
    {
        check_unit(unit)?;
        let reading = CheckedReading::new(reading)?;
        let serial = self.next;
        self.rows[unit as usize].open(&reading, serial)?;
        self.next = serial + 1;
        Ok(pass_of(self.number, unit, serial))
    }

    pub fn energy(&mut self, pass: &Pass, energy: u32) -> Result<(), Refusal>
        ensures turn { Turn P.PlantLimit.allowed self.old (Energy pass.now.numbers energy) (done result) self.new }
    {
        let energy = Power::try_from(energy)?;
        let unit = self.find(pass)?;
        self.rows[unit as usize].energy(unit, energy, &self.plant)
    }

    pub fn amount(&mut self, pass: &Pass, service: u32, amount: u32) -> Result<(), Refusal>
        ensures turn { Turn P.PlantLimit.allowed self.old (Amount pass.now.numbers service amount) (done result) self.new }
    {
        let service = Service::try_from(service)?;
        let amount = Power::try_from(amount)?;
        let unit = self.find(pass)?;
        self.rows[unit as usize].amount(unit, service, amount, &self.plant)
    }

    // The figure of a service at the energy that is held, live or not.
    pub fn figure(&self, pass: &Pass, service: u32) -> Result<Figure, Refusal>
        ensures { Turn P.PlantLimit.allowed self.now (Figures pass.now.numbers service) (figured result) self.now }
    {
        let service = Service::try_from(service)?;
        let unit = self.find(pass)?;
        let table = self.rows[unit as usize].figures(unit, &self.plant)?;
        Ok(table[service.number() as usize])
    }

    // The figure of a live service at another energy.
    pub fn probe(&self, pass: &Pass, service: u32, energy: u32) -> Result<Option<Figure>, Refusal>
        ensures { Turn P.PlantLimit.allowed self.now (Probe pass.now.numbers service energy) (probed_by result) self.now }
    {
        let service = Service::try_from(service)?;
        let energy = Power::try_from(energy)?;
        let unit = self.find(pass)?;
        Ok(self.rows[unit as usize].probe(unit, service, energy, &self.plant))
    }

    // The five effective numbers of a service.
    pub fn trapezium(&self, pass: &Pass, service: u32) -> Result<Option<Trapezium>, Refusal>
        ensures { Turn P.PlantLimit.allowed self.now (Scales pass.now.numbers service) (scaled result) self.now }
    {
        let service = Service::try_from(service)?;
        let unit = self.find(pass)?;
        Ok(self.rows[unit as usize].trapezium(service))
    }

    // The interval ends. The pass is spent, known or not.
    pub fn abandon(&mut self, pass: Pass) -> Result<(), Refusal>
        ensures { Turn P.PlantLimit.allowed self.old (Abandon pass.numbers) (done result) self.new }
    {
        let found = self.find(&pass);
        let Pass { numbers: _ } = pass;
        let unit = found?;
        self.rows[unit as usize].end()
    }

    fn try_close(&mut self, pass: &Pass, table: &mut [Figure]) -> Result<(), Refusal>
        ensures turn { Turn P.PlantLimit.allowed self.old (Close pass.now.numbers (length table.old)) (closing pass.now table.new result) self.new }
        ensures table { MatchResult result (λ _. drop 10 table.new ≡ drop 10 table.old) (λ _. table.new ≡ table.old) }
    {
        if table.len() < 10 {
            return Err(Refusal::TableTooShort);
        }
        let unit = self.find(pass)?;
        let figures = self.rows[unit as usize].close(unit, &self.plant)?;
        fill(table, &figures);
        Ok(())
    }

    // Fills the first ten places of a table with the ten figures, and ends the interval.
    pub fn close(&mut self, pass: Pass, table: &mut [Figure]) -> Result<(), Returned>
        ensures turn { Turn P.PlantLimit.allowed self.old (Close pass.numbers (length table.old)) (closed_by table.new result) self.new }
        ensures table { MatchResult result (λ _. drop 10 table.new ≡ drop 10 table.old) (λ _. table.new ≡ table.old) }
    {
        match self.try_close(&pass, table) {
            Ok(()) => {
                let Pass { numbers: _ } = pass;
                Ok(())
            }
            Err(refusal) => Err(Returned { pass, refusal }),
        }
    }
}
