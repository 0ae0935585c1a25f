// The states of a unit's row, what an event makes of each, and why a call is refused.
#![tactic(auto)]

mod refusal;
mod state;

pub use refusal::Refusal;
pub use state::{Event, State};
