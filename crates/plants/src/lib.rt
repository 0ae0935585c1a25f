// The four plant limits.
#![tactic(auto)]

mod bare;
mod both;
mod choice;
mod connection_cap;
mod governor_share;
mod room;

pub use bare::Bare;
pub use both::Both;
pub use choice::PlantChoice;
pub use connection_cap::ConnectionCap;
pub use governor_share::GovernorShare;
