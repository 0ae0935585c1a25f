// Why something that was handed over is not taken.
ghost use Rattle.std.specs.Prelude.{◌≡◌, Some};
ghost use Rattle.fcas.specs.Checks.{refusal_number};
ghost use Rattle.fcas.specs.Words.{refusal_words};

use std::error::Error;
use std::fmt;

#[derive(Clone, Copy, Debug, PartialEq, Eq)]
pub enum Refusal {
    KindUnknown,
    ServiceUnknown,
    BidTooLarge,
    BidFalls,
    ReadingOutOfRange,
    PowerTooLarge,
    ForecastMissing,
}

impl Refusal {
    // By this name it is the number of the rules, which `u8::from(refusal)` would not say.
    pub fn number(self) -> u8
        ensures { result ≡ refusal_number self }
    {
        match self {
            Refusal::KindUnknown => 2,
            Refusal::ServiceUnknown => 3,
            Refusal::BidTooLarge => 4,
            Refusal::BidFalls => 5,
            Refusal::ReadingOutOfRange => 6,
            Refusal::PowerTooLarge => 7,
            Refusal::ForecastMissing => 24,
        }
    }
}

// Why, in words.
impl fmt::Display for Refusal {
    ghost output = { λ refusal. Some (refusal_words refusal) };

    fn fmt<W: fmt::Write>(&self, f: &mut fmt::Formatter<W>) -> fmt::Result {
        f.pad(match self {
            Refusal::KindUnknown => "a kind is at most 3",
            Refusal::ServiceUnknown => "a service is at most 9",
            Refusal::BidTooLarge => "a number of a bid is at most 4000000 kW",
            Refusal::BidFalls => "the first four numbers of a bid never fall",
            Refusal::ReadingOutOfRange => "a number of the reading is out of its range",
            Refusal::PowerTooLarge => "an energy or an amount is at most 4000000 kW",
            Refusal::ForecastMissing => "a semi-scheduled unit needs its forecast",
        })
    }
}

impl Error for Refusal {}
