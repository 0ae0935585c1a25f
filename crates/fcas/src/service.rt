// The ten frequency services.
ghost use Rattle.std.specs.Prelude.{◌≡◌, ◌<◌, Some};
ghost use Rattle.fcas.specs.Checks.{Checked};
ghost use Rattle.fcas.specs.Words.{service_name};
ghost use Rattle.fcas.specs.Service.{regulating, service_faults, service_number};

use crate::refusal::Refusal;
use std::fmt;

#[derive(Clone, Copy, Debug, PartialEq, Eq)]
pub enum Service {
    Raise1Sec,
    Raise6Sec,
    Raise60Sec,
    Raise5Min,
    RaiseReg,
    Lower1Sec,
    Lower6Sec,
    Lower60Sec,
    Lower5Min,
    LowerReg,
}

// All ten, in the order of their numbers.
pub const SERVICES: [Service; 10] = [
    Service::Raise1Sec,
    Service::Raise6Sec,
    Service::Raise60Sec,
    Service::Raise5Min,
    Service::RaiseReg,
    Service::Lower1Sec,
    Service::Lower6Sec,
    Service::Lower60Sec,
    Service::Lower5Min,
    Service::LowerReg,
];

impl Service {
    // By this name it is the number of the rules, which `u8::from(service)` would not say.
    pub fn number(self) -> u8
        ensures value { result ≡ service_number self }
        ensures one_of_ten { result < 10 }
    {
        self as u8
    }

    pub fn is_regulating(self) -> bool
        ensures { result ≡ regulating (service_number self) }
    {
        self == Service::RaiseReg || self == Service::LowerReg
    }
}

impl TryFrom<u32> for Service {
    type Error = Refusal;

    ghost try_from_gives = { λ number found. Checked (service_faults number) (λ service. service_number service ≡ number) found };

    fn try_from(number: u32) -> Result<Service, Refusal> {
        SERVICES
            .get(number as usize)
            .copied()
            .ok_or(Refusal::ServiceUnknown)
    }
}

// The market's name.
impl fmt::Display for Service {
    ghost output = { λ service. Some (service_name service) };

    fn fmt<W: fmt::Write>(&self, f: &mut fmt::Formatter<W>) -> fmt::Result {
        f.pad(match self {
            Service::Raise1Sec => "RAISE1SEC",
            Service::Raise6Sec => "RAISE6SEC",
            Service::Raise60Sec => "RAISE60SEC",
            Service::Raise5Min => "RAISE5MIN",
            Service::RaiseReg => "RAISEREG",
            Service::Lower1Sec => "LOWER1SEC",
            Service::Lower6Sec => "LOWER6SEC",
            Service::Lower60Sec => "LOWER60SEC",
            Service::Lower5Min => "LOWER5MIN",
            Service::LowerReg => "LOWERREG",
        })
    }
}
