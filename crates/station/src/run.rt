// Stations are made, and run: calls as values, one more call after any past, and a whole list of calls.
ghost use Rattle.std.specs.Prelude.{◌≡◌, ◌≤◌, [], length, IfOk, None};
ghost use Rattle.std.specs.Fn.{FnOnceReturnsAt};
ghost use Rattle.station.specs.Sound.{Follows, Lawful, Made, Sound, upon};
ghost use Rattle.station.specs.Turn.{done as done_by, Turn};
ghost use Rattle.station.specs.View.{entry_of};
ghost use Rattle.station.specs.declared.call.Call.TheVariants.{Amount, Close, Energy};

use crate::call::{Answer, Call};
use crate::pass::{Pass, PassNumbers, Returned};
use crate::row::UnitRow;
use crate::station::Station;
use fcas::{AgcStatus, CheckedReading, Kind, Measured, Opening};
use limits::{CheckedTerms, Figure, PlantLimit};
use states::{Refusal, State};
use std::alloc::{AllocError, Global};

impl UnitRow {
    fn vacant() -> UnitRow
        ensures { entry_of result ≡ None }
    {
        let reading = CheckedReading {
            measured: Measured {
                initial: 0,
                agc_lower: None,
                agc_upper: None,
                ramp_up: None,
                ramp_down: None,
                uigf: None,
                energy_max: 0,
                agc_status: AgcStatus::NotTold,
            },
        };
        let opening = Opening {
            kind: Kind::Generator,
            reading,
        };
        let bids = [None; 10];
        let terms = CheckedTerms::new(&opening, &bids);
        UnitRow {
            state: State::Vacant,
            kind: opening.kind,
            bids,
            reading: opening.reading,
            amounts: [0; 10],
            terms,
        }
    }
}

fn done(outcome: Result<(), Refusal>) -> Answer
    ensures { result ≡ done_by outcome }
{
    outcome.map_or_else(Answer::Refused, |()| Answer::Done)
}

// A pass is taken apart into its numbers.
fn take_apart(pass: Pass) -> PassNumbers
    ensures { result ≡ pass.numbers }
{
    let Pass { numbers } = pass;
    numbers
}

// One question is asked with a pass of these numbers.
fn with_pass<R, F: FnOnce(&Pass) -> R>(numbers: PassNumbers, ask: F) -> R
    requires { F.IsAlwaysCallable ask }
    ensures { FnOnceReturnsAt F.FnOnce ask (record { numbers = numbers }) result }
{
    let pass = Pass { numbers };
    let given = ask(&pass);
    take_apart(pass);
    given
}

impl<P: PlantLimit> Station<P> {
    pub fn new(number: u32, first: u64, plant: P) -> Station<P>
        ensures made { Made number first plant result }
        ensures law { Sound P.PlantLimit.allowed number first plant [] result }
    {
        Station {
            number,
            next: first,
            rows: [UnitRow::vacant(); 24],
            plant,
        }
    }

    // `with_pass` was tried, and doesn't serve where a call changes the station: the proof knows nothing of a station that a closure changed.
    fn apply_energy(&mut self, numbers: PassNumbers, energy: u32) -> Answer
        ensures { Turn P.PlantLimit.allowed self.old (Energy numbers energy) result self.new }
    {
        let pass = Pass { numbers };
        let outcome = self.energy(&pass, energy);
        take_apart(pass);
        done(outcome)
    }

    fn apply_amount(&mut self, numbers: PassNumbers, service: u32, amount: u32) -> Answer
        ensures { Turn P.PlantLimit.allowed self.old (Amount numbers service amount) result self.new }
    {
        let pass = Pass { numbers };
        let outcome = self.amount(&pass, service, amount);
        take_apart(pass);
        done(outcome)
    }

    // A table of ten places stands for any longer one.
    fn apply_close(&mut self, numbers: PassNumbers, places: u64) -> Answer
        ensures { Turn P.PlantLimit.allowed self.old (Close numbers places) result self.new }
    {
        if places < 10 {
            return Answer::Returned(Refusal::TableTooShort, numbers);
        }
        let mut table = [Figure::default(); 10];
        match self.close(Pass { numbers }, &mut table) {
            Ok(()) => Answer::Closed(table),
            Err(Returned { pass, refusal }) => Answer::Returned(refusal, take_apart(pass)),
        }
    }

    fn answer(&mut self, call: &Call) -> Answer
        ensures { Turn P.PlantLimit.allowed self.old call.now result self.new }
    {
        match call {
            Call::Enrol { unit, kind } => done(self.enrol(*unit, *kind)),
            Call::Retire { unit } => done(self.retire(*unit)),
            Call::Bid { unit, service, bid } => done(self.bid(*unit, *service, bid)),
            Call::Withdraw { unit, service } => done(self.withdraw(*unit, *service)),
            Call::Open { unit, reading } => {
                let outcome = self.open(*unit, reading);
                outcome.map_or_else(Answer::Refused, |pass| Answer::Opened(take_apart(pass)))
            }
            Call::Energy { pass, energy } => self.apply_energy(*pass, *energy),
            Call::Amount {
                pass,
                service,
                amount,
            } => self.apply_amount(*pass, *service, *amount),
            Call::Figure { pass, service } => {
                let outcome = with_pass(*pass, |pass| self.figure(pass, *service));
                outcome.map_or_else(Answer::Refused, Answer::Figure)
            }
            Call::Probe {
                pass,
                service,
                energy,
            } => {
                let outcome = with_pass(*pass, |pass| self.probe(pass, *service, *energy));
                outcome.map_or_else(Answer::Refused, Answer::Probed)
            }
            Call::Trapezium { pass, service } => {
                let outcome = with_pass(*pass, |pass| self.trapezium(pass, *service));
                outcome.map_or_else(Answer::Refused, Answer::Trapezium)
            }
            Call::Close { pass, places } => self.apply_close(*pass, *places),
            Call::Abandon { pass } => done(self.abandon(Pass { numbers: *pass })),
            Call::Lapse { unit } => done(self.lapse(*unit)),
        }
    }

    // One more call, whatever the past. A pass is given by its numbers.
    pub fn apply(&mut self, call: &Call) -> Answer
        ensures turn { Turn P.PlantLimit.allowed self.old call.now result self.new }
        ensures law { Follows P.PlantLimit.allowed self.old call.now result self.new }
    {
        self.answer(call)
    }

    // The law for hosts that make the calls one by one: whatever chain of calls led to this station, it is sound. Nothing is done.
    pub fn lawful(&self)
        ensures { Lawful P.PlantLimit.allowed self.now }
    {}
}

// A station after a list of calls, and their answers in the same order.
#[derive(Drop)]
pub struct Run<P> {
    pub station: Station<P>,
    pub answers: Vec<Answer>,
}

impl<P: PlantLimit + Drop> Station<P> {
    // Makes a station and runs a list of calls on it.
    pub fn run(
        number: u32,
        first: u64,
        plant: P,
        calls: &[Call],
        heap: Global,
    ) -> Result<Run<P>, AllocError>
        ensures { IfOk result (λ run. (length run.answers.items ≡ length calls.now) × Sound P.PlantLimit.allowed number first plant (upon [] calls.now run.answers.items) run.station) }
    {
        let mut station = Station::new(number, first, plant);
        let mut answers = Vec::with_capacity(heap, calls.len())?;
        for call in calls {
            answers.push(station.apply(call))?;
        }
        Ok(Run { station, answers })
    }
}
