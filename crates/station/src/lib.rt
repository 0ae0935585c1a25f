// The headroom station: up to 24 units, a row for each, the thirteen calls on them, and the law over every run of calls.
#![tactic(auto)]

mod call;
mod calls;
mod lent;
mod pass;
mod row;
mod run;
mod station;

pub use call::{Answer, Call};
pub use pass::{Pass, PassNumbers, Returned};
pub use run::Run;
pub use states::Refusal;
pub use station::Station;
