// The kinds of unit.
ghost use Rattle.std.specs.Prelude.{◌≡◌, Some};
ghost use Rattle.fcas.specs.Checks.{Checked};
ghost use Rattle.fcas.specs.Service.{service_number};
ghost use Rattle.fcas.specs.Kind.{downward as downward_of, kind_faults, kind_number, upward as upward_of};
ghost use Rattle.fcas.specs.Words.{kind_words};

use crate::refusal::Refusal;
use crate::service::Service;
use std::fmt;

#[derive(Clone, Copy, Debug, PartialEq, Eq)]
pub enum Kind {
    Generator,
    SemiScheduled,
    Load,
    DemandResponse,
}

impl Kind {
    // The regulating service that moves the unit's energy up.
    pub fn upward(self) -> Service
        ensures { service_number result ≡ upward_of self }
    {
        match self {
            Kind::Load => Service::LowerReg,
            _ => Service::RaiseReg,
        }
    }

    // The regulating service that moves it down: the other one, and two matches are plainer than one of a direction.
    pub fn downward(self) -> Service
        ensures { service_number result ≡ downward_of self }
    {
        match self {
            Kind::Load => Service::RaiseReg,
            _ => Service::LowerReg,
        }
    }
}

impl TryFrom<u32> for Kind {
    type Error = Refusal;

    ghost try_from_gives = { λ number found. Checked (kind_faults number) (λ kind. kind_number kind ≡ number) found };

    fn try_from(number: u32) -> Result<Kind, Refusal> {
        match number {
            0 => Ok(Kind::Generator),
            1 => Ok(Kind::SemiScheduled),
            2 => Ok(Kind::Load),
            3 => Ok(Kind::DemandResponse),
            _ => Err(Refusal::KindUnknown),
        }
    }
}

impl fmt::Display for Kind {
    ghost output = { λ kind. Some (kind_words kind) };

    fn fmt<W: fmt::Write>(&self, f: &mut fmt::Formatter<W>) -> fmt::Result {
        f.pad(match self {
            Kind::Generator => "scheduled generator",
            Kind::SemiScheduled => "semi-scheduled generator",
            Kind::Load => "scheduled load",
            Kind::DemandResponse => "wholesale demand response unit",
        })
    }
}
