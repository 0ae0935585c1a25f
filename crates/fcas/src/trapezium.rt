// The effective trapezium of a service: the bid's, scaled by the unit's reading.
ghost use Rattle.std.specs.Prelude.{◌≡◌, ◌*◌, ◌<◌, ◌≤◌, pos, ◌+ℤ◌, ◌-ℤ◌, ◌*ℤ◌, ◌≤ℤ◌};
ghost use Rattle.fcas.specs.Trapezium.{at_least, at_most, effective_enablement_max, effective_enablement_min, forecast_of, effective_high_breakpoint, effective_low_breakpoint, lower_limit, lower_run_of, effective_max_availability, ramp_of, rounded_down, rounded_up, trapezium_of, unless_zero, upper_limit, upper_run_of};
ghost use Rattle.fcas.specs.Service.{service_number};
ghost use Rattle.std.specs.Option.{option_map, unwrap_or};

use crate::bid::{CheckedBid, Slopes};
use crate::opening::{Opening, at_least, at_most, unless_zero};
use crate::power::Power;
use crate::reading::CheckedReading;
use crate::service::Service;

#[derive(Clone, Copy, Debug, PartialEq, Eq)]
pub struct Trapezium {
    pub enablement_min: u32,
    pub low_breakpoint: i64,
    pub high_breakpoint: i64,
    pub enablement_max: u32,
    pub max_availability: u32,
}

// The three numbers that are scaled; the breakpoints follow from them by the bid's slopes.
#[derive(Clone, Copy, Debug, PartialEq, Eq)]
pub struct Envelope {
    pub enablement_min: u32,
    pub enablement_max: u32,
    pub max_availability: u32,
    ghost min_in_range: { enablement_min ≤ 4000000 },
    ghost max_in_range: { enablement_max ≤ 4000000 },
    ghost availability_in_range: { max_availability ≤ 4000000 },
}

impl Envelope {
    // What the bid offers, before it is scaled.
    fn offered(bid: &CheckedBid) -> Envelope
        ensures min { result.enablement_min ≡ bid.now.bid.enablement_min }
        ensures max { result.enablement_max ≡ bid.now.bid.enablement_max }
        ensures availability { result.max_availability ≡ bid.now.bid.max_availability }
    {
        Envelope {
            enablement_min: bid.bid.enablement_min,
            enablement_max: bid.bid.enablement_max,
            max_availability: bid.bid.max_availability,
        }
    }

    // The AGC limits narrow the enablement limits of a regulating service.
    fn within_agc(self, service: Service, reading: &CheckedReading) -> Envelope
        ensures min { result.enablement_min ≡ at_least (lower_limit (service_number service) reading.now.measured) self.enablement_min }
        ensures max { result.enablement_max ≡ at_most (upper_limit (service_number service) reading.now.measured) self.enablement_max }
        ensures availability { result.max_availability ≡ self.max_availability }
    {
        if !service.is_regulating() {
            return self;
        }
        Envelope {
            enablement_min: at_least(unless_zero(reading.measured.agc_lower), self.enablement_min),
            enablement_max: at_most(unless_zero(reading.measured.agc_upper), self.enablement_max),
            max_availability: self.max_availability,
        }
    }

    // A ramp caps the availability at what it gives in five minutes.
    fn within_ramp(self, in_five_minutes: Option<Power>) -> Envelope
        ensures min { result.enablement_min ≡ self.enablement_min }
        ensures max { result.enablement_max ≡ self.enablement_max }
        ensures availability { result.max_availability ≡ at_most in_five_minutes self.max_availability }
    {
        Envelope {
            enablement_min: self.enablement_min,
            enablement_max: self.enablement_max,
            max_availability: at_most(
                in_five_minutes.map(|power| power.get()),
                self.max_availability,
            ),
        }
    }

    // A forecast caps the enablement maximum. The steps of scaling are a function each, since which apply is a rule of its own.
    fn within_forecast(self, forecast: Option<u32>) -> Envelope
        ensures min { result.enablement_min ≡ self.enablement_min }
        ensures max { result.enablement_max ≡ at_most forecast self.enablement_max }
        ensures availability { result.max_availability ≡ self.max_availability }
    {
        Envelope {
            enablement_min: self.enablement_min,
            enablement_max: at_most(forecast, self.enablement_max),
            max_availability: self.max_availability,
        }
    }

    // The effective limits and availability of a service.
    pub fn new(opening: &Opening, service: Service, bid: &CheckedBid) -> Envelope
        ensures min { result.enablement_min ≡ effective_enablement_min (service_number service) bid.now.bid opening.now.reading.measured }
        ensures max { result.enablement_max ≡ effective_enablement_max opening.now.kind (service_number service) bid.now.bid opening.now.reading.measured }
        ensures availability { result.max_availability ≡ effective_max_availability opening.now.kind (service_number service) bid.now.bid opening.now.reading.measured }
    {
        Envelope::offered(bid)
            .within_agc(service, &opening.reading)
            .within_ramp(opening.ramped(service))
            .within_forecast(opening.forecast())
    }
}

// The product of two powers.
fn product(a: Power, b: u32) -> i64
    requires { b ≤ 4000000 }
    ensures value { result ≡ pos a *ℤ pos b }
    ensures low { pos 0 ≤ℤ result }
    ensures high { result ≤ℤ pos 16000000000000 }
{
    i64::from(a.get()) * i64::from(b)
}

// The quotient of a sum or a difference of products, rounded down.
fn rounded_down(number: i64, divisor: u32) -> i64
    requires divisor { 0 < divisor }
    ensures value { result ≡ rounded_down number divisor }
{
    number.div_euclid(i64::from(divisor))
}

// The quotient rounded up.
fn rounded_up(number: i64, divisor: u32) -> i64
    requires divisor { 0 < divisor }
    requires low { pos 0 ≤ℤ number }
    requires high { number ≤ℤ pos 32000000000000 }
    ensures { result ≡ rounded_up number divisor }
{
    -rounded_down(-number, divisor)
}

impl Trapezium {
    // Where the top of the trapezium ends: the bid's upper slope, hung from the effective enablement maximum.
    fn high_breakpoint(slopes: &Slopes, envelope: &Envelope) -> i64
        ensures { result ≡ effective_high_breakpoint slopes.now.max_availability slopes.now.upper_run envelope.now.enablement_max envelope.now.max_availability }
    {
        let availability = slopes.max_availability;
        if availability.get() == 0 {
            return i64::from(envelope.enablement_max);
        }
        rounded_down(
            product(availability, envelope.enablement_max)
                - product(slopes.upper_run, envelope.max_availability),
            availability.get(),
        )
    }

    // Where it begins: the bid's lower slope, raised from the effective enablement minimum. The mirror of the other: another slope, sign and rounding.
    fn low_breakpoint(slopes: &Slopes, envelope: &Envelope) -> i64
        ensures { result ≡ effective_low_breakpoint slopes.now.max_availability slopes.now.lower_run envelope.now.enablement_min envelope.now.max_availability }
    {
        let availability = slopes.max_availability;
        if availability.get() == 0 {
            return i64::from(envelope.enablement_min);
        }
        rounded_up(
            product(availability, envelope.enablement_min)
                + product(slopes.lower_run, envelope.max_availability),
            availability.get(),
        )
    }

    // The five effective numbers of a service.
    pub fn new(opening: &Opening, service: Service, bid: &CheckedBid) -> Trapezium
        ensures { result ≡ trapezium_of opening.now.kind (service_number service) bid.now.bid opening.now.reading.measured }
    {
        let slopes = bid.slopes();
        let envelope = Envelope::new(opening, service, bid);
        Trapezium {
            enablement_min: envelope.enablement_min,
            low_breakpoint: Trapezium::low_breakpoint(&slopes, &envelope),
            high_breakpoint: Trapezium::high_breakpoint(&slopes, &envelope),
            enablement_max: envelope.enablement_max,
            max_availability: envelope.max_availability,
        }
    }
}
