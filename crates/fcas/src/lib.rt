// The market's rules for one unit as an interval opens: what is handed over is checked, a bid's trapezium is scaled by the unit's readings, and each service is found live or not.
#![tactic(auto)]

mod bid;
mod kilowatts;
mod kind;
mod live;
mod opening;
mod power;
mod reading;
mod refusal;
mod service;
mod trapezium;

pub use bid::{Bid, CheckedBid, Slopes, some_above};
pub use kind::Kind;
pub use live::Ground;
pub use opening::Opening;
pub use power::{NO_POWER, Power, Ramp, UpTo};
pub use reading::{AgcStatus, CheckedReading, Measured, Reading};
pub use refusal::Refusal;
pub use service::{SERVICES, Service};
pub use trapezium::{Envelope, Trapezium};
