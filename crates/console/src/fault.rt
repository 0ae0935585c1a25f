// What is wrong with a line.
use crate::lines::TooLong;
use fcas::Refusal;
use std::fmt;
use thiserror::Error;

// The line cannot be read.
#[derive(Clone, Copy, Debug, Error)]
#[error("{}", self.words())]
pub enum Fault {
    TooLong(#[from] TooLong),
    UnknownCommand,
    TooFewWords,
    TooManyWords,
    NotWhole,
    TooWide,
    NotFloat,
    NoKind,
    NoService,
    NoPlant,
    NoPass,
    WideStation,
    NoStation,
    SecondStation,
}

impl Fault {
    // What Display writes, as a text whose bytes an answer appends.
    pub(crate) fn words(self) -> &'static str {
        match self {
            Fault::TooLong(too_long) => too_long.words(),
            Fault::UnknownCommand => "the first word is unknown",
            Fault::TooFewWords => "there are too few words",
            Fault::TooManyWords => "there are too many words",
            Fault::NotWhole => "a word is not a whole number below 2^64",
            Fault::TooWide => "a number of a plant is not below 2^32",
            Fault::NotFloat => "a word is not a decimal number",
            Fault::NoKind => "a word is neither a number nor the name of a kind",
            Fault::NoService => "a word is neither a number nor the name of a service",
            Fault::NoPlant => "a word is not the name of a plant limit",
            Fault::NoPass => "a word is not a pass, three whole numbers with colons between",
            Fault::WideStation => "the number of a station is not below 2^32",
            Fault::NoStation => "there is no station yet",
            Fault::SecondStation => "there is a station already",
        }
    }
}

// The line cannot be read, or what it hands over is refused.
#[derive(Clone, Copy)]
pub enum Trouble {
    Unread(Fault),
    Refused(Refusal),
}

impl From<Fault> for Trouble {
    fn from(fault: Fault) -> Trouble {
        Trouble::Unread(fault)
    }
}

impl From<Refusal> for Trouble {
    fn from(refusal: Refusal) -> Trouble {
        Trouble::Refused(refusal)
    }
}

// By hand: the derive was tried, and takes no result of a method beside the value that it is of.
impl fmt::Display for Trouble {
    fn fmt<W: fmt::Write>(&self, f: &mut fmt::Formatter<W>) -> fmt::Result {
        match self {
            Trouble::Unread(fault) => write!(f, "error: {fault}"),
            Trouble::Refused(refusal) => {
                let number = refusal.number();
                write!(f, "declined {number}: {refusal}")
            }
        }
    }
}
