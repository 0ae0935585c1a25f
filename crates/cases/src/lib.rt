// The worked cases of the rules, proved from the definitions and run through the code.
#![tactic(auto)]

ghost use Rattle.std.specs.Prelude.{◌≡◌, None, Ok};
ghost use Rattle.cases.specs.Worked.{Worked, generator, lower_bid, lower_trapezium, raise_bid, raise_trapezium};
ghost use Rattle.fcas.specs.Bid.{bid_faults};
ghost use Rattle.fcas.specs.Checks.{first_of};
ghost use Rattle.fcas.specs.Reading.{measured_of};
ghost use Rattle.fcas.specs.Service.{service_number};
ghost use Rattle.fcas.specs.Trapezium.{trapezium_of};
ghost use Rattle.fcas.specs.declared.kind.Kind.TheVariants.{Generator};

use fcas::{Bid, CheckedBid, CheckedReading, Kind, Opening, Reading, Refusal, Service, Trapezium};

const ONE_BAND: [u32; 10] = [1, 0, 0, 0, 0, 0, 0, 0, 0, 0];

fn generator_reading() -> Reading
    ensures { result ≡ generator }
{
    Reading {
        initial: 450.0,
        agc_lower: Some(280.0),
        agc_upper: Some(670.0),
        ramp_up: Some(3.0),
        ramp_down: Some(2.0),
        uigf: None,
        energy_max: 690_000,
        agc_status: 1,
    }
}

fn raise_bid() -> Bid
    ensures { result ≡ raise_bid }
{
    Bid {
        enablement_min: 300_000,
        low_breakpoint: 300_000,
        high_breakpoint: 590_000,
        enablement_max: 680_000,
        max_availability: 100_000,
        bands: ONE_BAND,
    }
}

// A worked bid is its five numbers by name, and so this is a second function of that shape.
fn lower_bid() -> Bid
    ensures { result ≡ lower_bid }
{
    Bid {
        enablement_min: 300_000,
        low_breakpoint: 400_000,
        high_breakpoint: 690_000,
        enablement_max: 690_000,
        max_availability: 100_000,
        bands: ONE_BAND,
    }
}

// What the code makes of a good bid of the worked generator.
fn generator_trapezium(service: Service, bid: Bid) -> Result<Trapezium, Refusal>
    ensures { first_of (bid_faults bid) ≡ None → result ≡ Ok (trapezium_of Generator (service_number service) bid (measured_of generator)) }
{
    let opening = Opening {
        kind: Kind::Generator,
        reading: CheckedReading::new(&generator_reading())?,
    };
    let checked = CheckedBid::new(bid)?;
    Ok(Trapezium::new(&opening, service, &checked))
}

// The effective trapeziums of the worked generator's two regulating services. The rules give the same, by computation.
pub fn worked_generator() -> Result<(Trapezium, Trapezium), Refusal>
    ensures by_code { result ≡ Ok (raise_trapezium, lower_trapezium) }
    ensures by_rules { Worked }
{
    let raise = generator_trapezium(Kind::Generator.upward(), raise_bid())?;
    let lower = generator_trapezium(Kind::Generator.downward(), lower_bid())?;
    Ok((raise, lower))
}

#[cfg(test)]
mod row_tests;
#[cfg(test)]
mod tests;
