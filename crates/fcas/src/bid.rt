// A bid for one service: a trapezium and ten price bands.
ghost use Rattle.std.specs.Prelude.{◌≡◌, ◌≤◌, false, nat_lt};
ghost use Rattle.fcas.specs.Bid.{bid_faults, falls as numbers_fall, numbers_of, some_above};
ghost use Rattle.fcas.specs.Checks.{Checked};
ghost use Rattle.fcas.specs.Trapezium.{lower_run_of, upper_run_of};

use crate::power::{Power, UpTo};
use crate::refusal::Refusal;

// The greatest power that a bid may name, in kilowatts.
const MOST: u32 = 4_000_000;

// A bid as it is handed over, in kilowatts.
#[derive(Clone, Copy, Debug, PartialEq, Eq)]
pub struct Bid {
    pub enablement_min: u32,
    pub low_breakpoint: u32,
    pub high_breakpoint: u32,
    pub enablement_max: u32,
    pub max_availability: u32,
    pub bands: [u32; 10],
}

// A bid that passed its checks.
#[derive(Clone, Copy)]
pub struct CheckedBid {
    pub bid: Bid,
    // Facts, and no Power: the bid is kept as it was handed over.
    ghost rises_to_low: { bid.enablement_min ≤ bid.low_breakpoint },
    ghost rises_to_high: { bid.low_breakpoint ≤ bid.high_breakpoint },
    ghost rises_to_max: { bid.high_breakpoint ≤ bid.enablement_max },
    ghost max_in_range: { bid.enablement_max ≤ 4000000 },
    ghost availability_in_range: { bid.max_availability ≤ 4000000 },
    ghost bands_in_range: { some_above 4000000 bid.bands ≡ false },
}

// What the slopes of a bid's trapezium are made of: each rises by the maximum availability over its run.
#[derive(Clone, Copy, Debug, PartialEq, Eq)]
pub struct Slopes {
    pub max_availability: Power,
    pub upper_run: Power,
    pub lower_run: Power,
}

fn is_above(limit: u32, number: u32) -> bool
    ensures { result ≡ nat_lt limit number }
{
    number > limit
}

// Whether some number is above the limit.
pub fn some_above(limit: u32, numbers: &[u32]) -> bool
    ensures { result ≡ some_above limit numbers.now }
{
    for number in numbers {
        if is_above(limit, *number) {
            return true;
        }
    }
    false
}

impl Bid {
    // Whether one of the bid's numbers is above the greatest power.
    fn exceeds(&self) -> bool
        ensures { result ≡ some_above 4000000 (numbers_of self.now) }
    {
        let trapezium = [
            self.enablement_min,
            self.low_breakpoint,
            self.high_breakpoint,
            self.enablement_max,
            self.max_availability,
        ];
        some_above(MOST, &trapezium) | some_above(MOST, &self.bands)
    }

    // Whether one of the first four numbers is below the one before it.
    fn falls(&self) -> bool
        ensures { result ≡ numbers_fall self.now }
    {
        (self.low_breakpoint < self.enablement_min)
            | (self.high_breakpoint < self.low_breakpoint)
            | (self.enablement_max < self.high_breakpoint)
    }
}

impl CheckedBid {
    pub fn new(bid: Bid) -> Result<CheckedBid, Refusal>
        ensures { Checked (bid_faults bid) (λ checked. checked.bid ≡ bid) result }
    {
        if bid.exceeds() {
            return Err(Refusal::BidTooLarge);
        }
        if bid.falls() {
            return Err(Refusal::BidFalls);
        }
        Ok(CheckedBid { bid })
    }

    pub fn slopes(&self) -> Slopes
        ensures max_availability { result.max_availability ≡ self.now.bid.max_availability }
        ensures upper_run { result.upper_run ≡ upper_run_of self.now.bid }
        ensures lower_run { result.lower_run ≡ lower_run_of self.now.bid }
    {
        Slopes {
            max_availability: UpTo {
                number: self.bid.max_availability,
            },
            upper_run: UpTo {
                number: self.bid.enablement_max - self.bid.high_breakpoint,
            },
            lower_run: UpTo {
                number: self.bid.low_breakpoint - self.bid.enablement_min,
            },
        }
    }
}
