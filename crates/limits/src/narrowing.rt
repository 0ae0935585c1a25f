// How much of a service the limits leave: the first least of their caps.
ghost use Rattle.std.specs.Prelude.{◌≡◌, ℕ, ◌<◌, ◌≤◌, false, ◌-ℤ◌, if◌then◌else◌, Some, nat_eq, slice_index_or, unsigned_abs};
ghost use Rattle.fcas.specs.Service.{service_number};
ghost use Rattle.limits.specs.Bounds.{Bounded};
ghost use Rattle.limits.specs.Limit.{exceeded, sides_of};
ghost use Rattle.limits.specs.Narrowing.{cap_of, coefficient_of, joint_of, Least, LeastOfAll, Narrowed, NarrowedAll, narrowed_to, no_best};
ghost use Rattle.limits.specs.Row.{amount as amount_of};

use crate::limit::{Limit, Sides, is_regulating};
use crate::row::CheckedRow;
use crate::terms::CheckedTerms;
use fcas::{Kind, Power, Service};

// The greatest amount so far, and the limit that breaks above it.
#[derive(Clone, Copy, Debug, PartialEq, Eq)]
pub struct Best {
    pub most: u32,
    pub limit: Limit,
}

// Before any limit has narrowed it: above every amount. No Option, since the least is then found by one comparison.
const WIDEST: Best = Best {
    most: 4_000_001,
    limit: Limit::Plant,
};

impl Best {
    pub(crate) fn narrowed(self, cap: Option<u32>, limit: Limit) -> Best
        ensures { result ≡ narrowed_to self cap limit }
    {
        match cap {
            Some(cap) if cap < self.most => Best { most: cap, limit },
            _ => self,
        }
    }
}

// What is left to a limit that is not exceeded.
fn room(sides: Sides) -> u64
    requires bound { Bounded sides }
    requires holds { exceeded (Some sides) ≡ false }
    ensures value { result ≡ unsigned_abs (sides.greater -ℤ sides.lesser) }
    ensures bound { result ≤ 128000000000000 }
{
    (sides.greater - sides.lesser) as u64
}

// The greatest amount that room leaves to a service beside what it holds.
fn cap(held: Power, room: u64, coefficient: u32) -> Option<u32>
    requires { room ≤ 128000000000000 }
    ensures { result ≡ cap_of held room coefficient }
{
    if coefficient == 0 {
        return None;
    }
    let most = u64::from(held.get()) + room / u64::from(coefficient);
    Some(most.min(4_000_001) as u32)
}

impl CheckedTerms {
    // What one kilowatt of a service takes from the room of a limit. Services are numbers in this file, since a Limit holds one.
    #[inline(always)]
    fn coefficient(&self, limit: Limit, service: u8) -> u32
        ensures { result ≡ coefficient_of self.now.terms limit service }
    {
        match limit {
            Limit::Availability(own) => u32::from(service == own),
            Limit::Upper(own) => {
                if service == own {
                    self.offer(own).upper_run
                } else if !is_regulating(own) & (service == self.terms.kind.upward().number()) {
                    self.offer(own).bid_availability
                } else {
                    0
                }
            }
            Limit::Lower(own) => {
                if service == own {
                    self.offer(own).lower_run
                } else if !is_regulating(own) & (service == self.terms.kind.downward().number()) {
                    self.offer(own).bid_availability
                } else {
                    0
                }
            }
            Limit::RampUp => u32::from(service == self.terms.kind.upward().number()),
            Limit::RampDown => u32::from(service == self.terms.kind.downward().number()),
            Limit::Plant => 0,
        }
    }
}

// The other service that takes from the room of a limit.
fn joint(kind: Kind, limit: Limit) -> Option<u8>
    ensures { result ≡ joint_of kind limit }
{
    match limit {
        Limit::Upper(service) if !is_regulating(service) => Some(kind.upward().number()),
        Limit::Lower(service) if !is_regulating(service) => Some(kind.downward().number()),
        _ => None,
    }
}

// Narrows the least so far of one service.
fn narrow_place(best: &mut [Best; 10], service: u8, cap: Option<u32>, limit: Limit)
    ensures { (s : ℕ) → s < 10 → slice_index_or best.new s no_best ≡ (if nat_eq s service then narrowed_to (slice_index_or best.old s no_best) cap limit else slice_index_or best.old s no_best) }
{
    // A test, since a call for the plant has no place; with `get_mut` the proof did not close.
    if service > 9 {
        return;
    }
    best[service as usize] = best[service as usize].narrowed(cap, limit);
}

impl CheckedTerms {
    // What a limit makes of the least so far of one service.
    // With this hint each call knows which limit it asks, and asks nothing else.
    #[inline(always)]
    pub(crate) fn narrow(
        &self,
        row: &CheckedRow,
        limit: Limit,
        service: u8,
        best: Best,
    ) -> Option<Best>
        ensures { Narrowed (sides_of self.now.terms row.now.row limit) (amount_of row.now.row service) (coefficient_of self.now.terms limit service) best limit result }
    {
        let Some(sides) = self.sides(row, limit) else {
            return Some(best);
        };
        if sides.is_exceeded() {
            return None;
        }
        Some(best.narrowed(
            cap(
                row.amount(service),
                room(sides),
                self.coefficient(limit, service),
            ),
            limit,
        ))
    }

    // What a limit makes of the least so far of every service; nothing where the row breaks the limit. At most two services take from its room: its own and the joint one.
    // With a hint as at `narrow`.
    #[inline(always)]
    fn narrow_all(&self, row: &CheckedRow, limit: Limit, best: &mut [Best; 10]) -> Option<()>
        ensures { NarrowedAll self.now.terms row.now.row limit best.old best.new result }
    {
        let Some(sides) = self.sides(row, limit) else {
            return Some(());
        };
        if sides.is_exceeded() {
            return None;
        }
        let room = room(sides);
        let own = limit.by(self.terms.kind);
        narrow_place(
            best,
            own,
            cap(row.amount(own), room, self.coefficient(limit, own)),
            limit,
        );
        if let Some(other) = joint(self.terms.kind, limit) {
            narrow_place(
                best,
                other,
                cap(row.amount(other), room, self.coefficient(limit, other)),
                limit,
            );
        }
        Some(())
    }
}

impl CheckedTerms {
    // The first least cap on a service of all limits but the plant's; nothing where the row exceeds one of them.
    // The loop goes by the number, here and below, as `Limit::of_service` is asked.
    pub(crate) fn least(&self, row: &CheckedRow, service: Service) -> Option<Best>
        ensures { Least self.now.terms row.now.row (service_number service) result }
    {
        let number = service.number();
        let mut best = WIDEST;
        for own in 0..10u8 {
            let [availability, upper, lower] = Limit::of_service(own);
            best = self.narrow(row, availability, number, best)?;
            best = self.narrow(row, upper, number, best)?;
            best = self.narrow(row, lower, number, best)?;
        }
        best = self.narrow(row, Limit::RampUp, number, best)?;
        self.narrow(row, Limit::RampDown, number, best)
    }

    // The same of all ten services, in one pass over the limits. Apart from `least`, since a probe wants one, and this does the work of several.
    pub(crate) fn least_of_all(&self, row: &CheckedRow) -> Option<[Best; 10]>
        ensures { LeastOfAll self.now.terms row.now.row result }
    {
        let mut best = [WIDEST; 10];
        for own in 0..10u8 {
            let [availability, upper, lower] = Limit::of_service(own);
            self.narrow_all(row, availability, &mut best)?;
            self.narrow_all(row, upper, &mut best)?;
            self.narrow_all(row, lower, &mut best)?;
        }
        self.narrow_all(row, Limit::RampUp, &mut best)?;
        self.narrow_all(row, Limit::RampDown, &mut best)?;
        Some(best)
    }
}
