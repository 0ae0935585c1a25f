// The words of a line to a call of the station.
use crate::fault::Fault;
use crate::lines::split_once;
use crate::parse::Words;
use numerals::whole;
use station::{Call, PassNumbers};

// The places of a table that holds all ten figures.
const ALL_PLACES: u64 = 10;

// A part of a pass, which has a digit at least.
fn part(word: &[u8]) -> Option<u64> {
    if word.is_empty() {
        return None;
    }
    whole(word)
}

// Three whole numbers with colons between them. Any three are taken: the station knows its own passes.
fn pass_numbers(word: &[u8]) -> Option<PassNumbers> {
    let (station, rest) = split_once(word, b':')?;
    let (unit, serial) = split_once(rest, b':')?;
    Some(PassNumbers {
        station: part(station)?,
        unit: part(unit)?,
        serial: part(serial)?,
    })
}

fn pass(words: &mut Words<'_>) -> Result<PassNumbers, Fault> {
    pass_numbers(words.word()?).ok_or(Fault::NoPass)
}

// The places of a table that may be left out.
fn places(words: &mut Words<'_>) -> Result<u64, Fault> {
    match words.next_word() {
        Some(word) => whole(word).ok_or(Fault::NotWhole),
        None => Ok(ALL_PLACES),
    }
}

// The call of a name and the words that follow it, all of which have to be used.
pub(crate) fn read_call(name: &[u8], words: &mut Words<'_>) -> Result<Call, Fault> {
    let call = match name {
        b"enrol" => Call::Enrol {
            unit: words.number()?,
            kind: words.kind()?,
        },
        b"retire" => Call::Retire {
            unit: words.number()?,
        },
        b"bid" => Call::Bid {
            unit: words.number()?,
            service: words.service()?,
            bid: words.bid()?,
        },
        b"withdraw" => Call::Withdraw {
            unit: words.number()?,
            service: words.service()?,
        },
        b"open" => Call::Open {
            unit: words.number()?,
            reading: words.reading()?,
        },
        b"energy" => Call::Energy {
            pass: pass(words)?,
            energy: words.number()?,
        },
        b"amount" => Call::Amount {
            pass: pass(words)?,
            service: words.service()?,
            amount: words.number()?,
        },
        b"figure" => Call::Figure {
            pass: pass(words)?,
            service: words.service()?,
        },
        b"probe" => Call::Probe {
            pass: pass(words)?,
            service: words.service()?,
            energy: words.number()?,
        },
        b"trapezium" => Call::Trapezium {
            pass: pass(words)?,
            service: words.service()?,
        },
        b"close" => Call::Close {
            pass: pass(words)?,
            places: places(words)?,
        },
        b"abandon" => Call::Abandon { pass: pass(words)? },
        b"lapse" => Call::Lapse {
            unit: words.number()?,
        },
        _ => return Err(Fault::UnknownCommand),
    };
    words.end()?;
    Ok(call)
}
