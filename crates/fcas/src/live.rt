// Whether a service of a unit is live, and if not, why.
ghost use Rattle.std.specs.Prelude.{◌≡◌, Some, ◌≤◌};
ghost use Rattle.fcas.specs.Checks.{first_true};
ghost use Rattle.fcas.specs.Live.{ground_number, ground_of, grounds_against, is_off, not_below_zero};
ghost use Rattle.fcas.specs.Service.{service_number};
ghost use Rattle.fcas.specs.Words.{ground_words};
ghost use Rattle.std.specs.Option.{option_copied, option_map};

use crate::bid::{CheckedBid, some_above};
use crate::opening::Opening;
use crate::reading::AgcStatus;
use crate::service::Service;
use crate::trapezium::Envelope;
use std::fmt;

// What keeps a service out.
#[derive(Clone, Copy, Debug, PartialEq, Eq)]
pub enum Ground {
    NoBid,
    NoAvailability,
    NoBand,
    EnergyMaxTooLow,
    OutsideEnablement,
    AgcIsOff,
}

// The greater of a power and 0.
fn not_below_zero(power: i32) -> u32
    ensures { result ≡ not_below_zero power }
{
    u32::try_from(power).unwrap_or(0)
}

// A status that is not told counts as on.
fn is_off(status: AgcStatus) -> bool
    ensures { result ≡ is_off status }
{
    status == AgcStatus::Off
}

impl Ground {
    // By this name it is the number of the rules, which `u8::from(ground)` would not say.
    pub fn number(self) -> u8
        ensures { result ≡ ground_number self }
    {
        match self {
            Ground::NoBid => 11,
            Ground::NoAvailability => 12,
            Ground::NoBand => 13,
            Ground::EnergyMaxTooLow => 14,
            Ground::OutsideEnablement => 15,
            Ground::AgcIsOff => 16,
        }
    }

    // The lowest ground against a service that is bid.
    fn against_bid(opening: &Opening, service: Service, bid: &CheckedBid) -> Option<Ground>
        ensures { result ≡ first_true (grounds_against opening.now.kind (service_number service) bid.now.bid opening.now.reading.measured) }
    {
        let envelope = Envelope::new(opening, service, bid);
        if envelope.max_availability == 0 {
            return Some(Ground::NoAvailability);
        }
        if !some_above(0, &bid.bid.bands) {
            return Some(Ground::NoBand);
        }
        if opening.energy_available() < envelope.enablement_min {
            return Some(Ground::EnergyMaxTooLow);
        }
        let initial = not_below_zero(opening.reading.measured.initial);
        if initial < envelope.enablement_min || envelope.enablement_max < initial {
            return Some(Ground::OutsideEnablement);
        }
        if service.is_regulating() && is_off(opening.reading.measured.agc_status) {
            return Some(Ground::AgcIsOff);
        }
        None
    }

    // The lowest ground against a service, or nothing where it is live.
    pub fn against(opening: &Opening, service: Service, bid: Option<&CheckedBid>) -> Option<Ground>
        ensures { result ≡ ground_of opening.now.kind (service_number service) (option_map (λ held. held.bid) (option_copied bid.entry)) opening.now.reading.measured }
    {
        match bid {
            Some(bid) => Ground::against_bid(opening, service, bid),
            None => Some(Ground::NoBid),
        }
    }
}

// Why, in words.
impl fmt::Display for Ground {
    ghost output = { λ told. Some (ground_words told) };

    fn fmt<W: fmt::Write>(&self, f: &mut fmt::Formatter<W>) -> fmt::Result {
        f.pad(match self {
            Ground::NoBid => "no bid",
            Ground::NoAvailability => "effective max availability is 0",
            Ground::NoBand => "no band is above 0",
            Ground::EnergyMaxTooLow => "available energy is below enablement min",
            Ground::OutsideEnablement => "initial is outside the enablement limits",
            Ground::AgcIsOff => "AGC is off",
        })
    }
}
