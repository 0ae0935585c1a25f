// Why a call is refused.
ghost use Rattle.std.specs.Prelude.{◌≡◌};
ghost use Rattle.fcas.specs.Checks.{refusal_number};
ghost use Rattle.states.specs.Refusal.{limit_told, plain, told};

use fcas::{Kind, Refusal as Unfit};
use limits::Limit;

#[derive(Clone, Copy, Debug, PartialEq, Eq)]
pub enum Refusal {
    UnitUnknown,
    // What was handed over is not fit to be taken.
    Unfit(Unfit),
    TableTooShort,
    AlreadyEnrolled,
    NotEnrolled,
    IntervalOpen,
    SerialsSpent,
    NoBid,
    NoInterval,
    PassUnknown,
    NoEnergy,
    NotLive,
    // The rules say of this refusal two numbers, its ground and by (docs/RULES.md).
    LimitBroken { ground: u8, by: u8 },
}

impl Refusal {
    // A limit of a unit of the kind broke.
    pub fn broken(limit: Limit, kind: Kind) -> Refusal
        ensures { told result ≡ limit_told kind limit }
    {
        Refusal::LimitBroken {
            ground: limit.number(),
            by: limit.by(kind),
        }
    }

    // By this name it is the number of the rules, which `u8::from(refusal)` would not say.
    pub fn number(self) -> u8
        ensures { result ≡ (told self).number }
    {
        match self {
            Refusal::UnitUnknown => 1,
            Refusal::Unfit(unfit) => unfit.number(),
            Refusal::TableTooShort => 8,
            Refusal::AlreadyEnrolled => 21,
            Refusal::NotEnrolled => 22,
            Refusal::IntervalOpen => 23,
            Refusal::SerialsSpent => 25,
            Refusal::NoBid => 26,
            Refusal::NoInterval => 27,
            Refusal::PassUnknown => 28,
            Refusal::NoEnergy => 29,
            Refusal::NotLive => 30,
            Refusal::LimitBroken { .. } => 31,
        }
    }
}

impl From<Unfit> for Refusal {
    ghost from_gives = { λ unfit refusal. told refusal ≡ plain (refusal_number unfit) };

    fn from(unfit: Unfit) -> Refusal {
        Refusal::Unfit(unfit)
    }
}
