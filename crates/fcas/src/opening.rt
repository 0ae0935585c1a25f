// A unit as its interval opens.
ghost use Rattle.std.specs.Prelude.{◌≡◌, ◌*◌, ◌≤◌};
ghost use Rattle.fcas.specs.Checks.{Checked};
ghost use Rattle.fcas.specs.Live.{energy_available};
ghost use Rattle.fcas.specs.Reading.{forecast_faults};
ghost use Rattle.fcas.specs.Service.{service_number};
ghost use Rattle.fcas.specs.Trapezium.{at_least, at_most, forecast_of, ramp_of, unless_zero};
ghost use Rattle.std.specs.Option.{option_map, unwrap_or};

use crate::kind::Kind;
use crate::power::{Power, Ramp, known};
use crate::reading::CheckedReading;
use crate::refusal::Refusal;
use crate::service::Service;

// The unit's kind, and what its control system says of it.
#[derive(Clone, Copy)]
pub struct Opening {
    pub kind: Kind,
    pub reading: CheckedReading,
}

// A limit that counts only where it is told and not zero.
pub(crate) fn unless_zero(limit: Option<u32>) -> Option<u32>
    ensures value { result ≡ unless_zero limit }
    ensures bound { unwrap_or result 0 ≤ unwrap_or limit 0 }
{
    match limit {
        Some(0) => None,
        _ => limit,
    }
}

// What a ramp gives in five minutes, where it is told and not zero.
fn in_five_minutes(ramp: Option<u32>) -> Option<Power>
    requires { unwrap_or ramp 0 ≤ 800000 }
    ensures { result ≡ option_map (λ each. 5 * each) (unless_zero ramp) }
{
    known(unless_zero(ramp)).map(|each: Ramp| each.in_five_minutes())
}

impl Opening {
    // The unit can be opened: a semi-scheduled one needs its forecast.
    pub fn check_forecast(&self) -> Result<(), Refusal>
        ensures { Checked (forecast_faults self.now.kind self.now.reading.measured) (λ _. Unit {0}) result }
    {
        match (self.kind, self.reading.measured.uigf) {
            (Kind::SemiScheduled, None) => Err(Refusal::ForecastMissing),
            _ => Ok(()),
        }
    }

    // What the ramp upward gives in the interval.
    pub fn rise(&self) -> Option<Power>
        ensures { result ≡ option_map (λ each. 5 * each) (unless_zero self.now.reading.measured.ramp_up) }
    {
        in_five_minutes(self.reading.measured.ramp_up)
    }

    // What the ramp downward gives in it: the same of another field, one line each.
    pub fn fall(&self) -> Option<Power>
        ensures { result ≡ option_map (λ each. 5 * each) (unless_zero self.now.reading.measured.ramp_down) }
    {
        in_five_minutes(self.reading.measured.ramp_down)
    }

    // What the ramp that bears on a service gives in it.
    pub(crate) fn ramped(&self, service: Service) -> Option<Power>
        ensures { result ≡ option_map (λ each. 5 * each) (ramp_of self.now.kind (service_number service) self.now.reading.measured) }
    {
        if service == self.kind.upward() {
            self.rise()
        } else if service == self.kind.downward() {
            self.fall()
        } else {
            None
        }
    }

    // The forecast that bears on a unit of the kind.
    pub(crate) fn forecast(&self) -> Option<u32>
        ensures { result ≡ forecast_of self.now.kind self.now.reading.measured }
    {
        match self.kind {
            Kind::SemiScheduled => self.reading.measured.uigf,
            _ => None,
        }
    }

    // The energy that the unit can reach in the interval.
    pub(crate) fn energy_available(&self) -> u32
        ensures { result ≡ energy_available self.now.kind self.now.reading.measured }
    {
        at_most(self.forecast(), self.reading.measured.energy_max)
    }
}

// Two functions of one line each: a shared one would have to be told `max` or `min`.
pub(crate) fn at_least(limit: Option<u32>, number: u32) -> u32
    ensures { result ≡ at_least limit number }
{
    limit.map_or(number, |limit| number.max(limit))
}

pub(crate) fn at_most(limit: Option<u32>, number: u32) -> u32
    ensures { result ≡ at_most limit number }
{
    limit.map_or(number, |limit| number.min(limit))
}
