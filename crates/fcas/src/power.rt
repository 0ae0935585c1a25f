// Whole kilowatts that are known to be in range.
ghost use Rattle.std.specs.Prelude.{◌≡◌, ◌*◌, ℕ, ◌≤◌};
ghost use Rattle.fcas.specs.Checks.{Checked};
ghost use Rattle.fcas.specs.Power.{power_faults};
ghost use Rattle.std.specs.Option.{unwrap_or};

use crate::refusal::Refusal;
use std::marker::Model;

// A whole number from 0 to a greatest one. A contract sees the number alone.
#[derive(Clone, Copy, Debug, PartialEq, Eq, PartialOrd, Ord)]
pub struct UpTo<const MOST: u32> {
    pub number: u32,
}

impl<const MOST: u32> Model for UpTo<MOST> {
    ghost Value = { ℕ };

    ghost view = { λ up. up.number };

    ghost invariant = { λ up. up.number ≤ MOST };

    ghost inverse = { λ n. record { number = n } };
}

// A power in kilowatts.
pub type Power = UpTo<4_000_000>;

// A ramp in kilowatts a minute.
pub type Ramp = UpTo<800_000>;

// No power at all, as of a service that is not bid.
pub const NO_POWER: Power = UpTo { number: 0 };

impl<const MOST: u32> UpTo<MOST> {
    pub fn get(self) -> u32
        ensures value { result ≡ self.entry }
        ensures most { result ≤ MOST }
    {
        self.number
    }
}

// An energy or an amount as it is handed over.
impl TryFrom<u32> for Power {
    type Error = Refusal;

    ghost try_from_gives = { λ number found. Checked (power_faults number) (λ power. power ≡ number) found };

    fn try_from(number: u32) -> Result<Power, Refusal> {
        if number > 4_000_000 {
            return Err(Refusal::PowerTooLarge);
        }
        Ok(UpTo { number })
    }
}

// A number that was found to be in range, where there is one.
pub(crate) fn known<const MOST: u32>(number: Option<u32>) -> Option<UpTo<MOST>>
    requires { unwrap_or number 0 ≤ MOST }
    ensures { result ≡ number }
{
    match number {
        Some(number) => Some(UpTo { number }),
        None => None,
    }
}

impl Ramp {
    // What the ramp gives in the five minutes of an interval.
    pub fn in_five_minutes(self) -> Power
        ensures { result ≡ 5 * self }
    {
        UpTo {
            number: 5 * self.get(),
        }
    }
}
