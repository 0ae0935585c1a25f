// The states of a row, and what an event makes of each.
ghost use Rattle.std.specs.Prelude.{◌≡◌};
ghost use Rattle.states.specs.State.{energy_of, stepped};

use crate::refusal::Refusal;

#[derive(Debug, Clone, Copy, PartialEq, Eq)]
pub enum State {
    Vacant,
    Idle,
    Open { serial: u64 },
    OpenWithEnergy { serial: u64, energy: u32 },
}

#[derive(Debug, Clone, Copy, PartialEq, Eq)]
pub enum Event {
    Enrol,
    Retire,
    // A bid is set or withdrawn.
    Rebid,
    Open { serial: u64 },
    Energy { energy: u32 },
    // An amount is set, or figures are read, at the energy that is held.
    AtEnergy,
    End,
}

impl State {
    // The energy that is held, 0 where none is.
    pub fn energy(self) -> u32
        ensures { result ≡ energy_of self }
    {
        match self {
            State::OpenWithEnergy { energy, .. } => energy,
            _ => 0,
        }
    }

    pub fn step(self, event: Event) -> Result<State, Refusal>
        ensures { result ≡ stepped self event }
    {
        match (self, event) {
            (State::Vacant, Event::Enrol) => Ok(State::Idle),
            (State::Idle, Event::Retire) => Ok(State::Vacant),
            (State::Idle, Event::Rebid) => Ok(State::Idle),
            (State::Idle, Event::Open { serial }) => Ok(State::Open { serial }),
            // Two arms: within a pair the checker does not cover an or-pattern that binds the serial of either.
            (State::Open { serial }, Event::Energy { energy }) => {
                Ok(State::OpenWithEnergy { serial, energy })
            }
            (State::OpenWithEnergy { serial, .. }, Event::Energy { energy }) => {
                Ok(State::OpenWithEnergy { serial, energy })
            }
            (State::OpenWithEnergy { .. }, Event::AtEnergy) => Ok(self),
            (State::Open { .. } | State::OpenWithEnergy { .. }, Event::End) => Ok(State::Idle),
            (_, Event::Enrol) => Err(Refusal::AlreadyEnrolled),
            (State::Open { .. }, Event::AtEnergy) => Err(Refusal::NoEnergy),
            (_, Event::Energy { .. } | Event::AtEnergy) => Err(Refusal::PassUnknown),
            (State::Vacant, _) => Err(Refusal::NotEnrolled),
            (State::Idle, Event::End) => Err(Refusal::NoInterval),
            (_, _) => Err(Refusal::IntervalOpen),
        }
    }
}
