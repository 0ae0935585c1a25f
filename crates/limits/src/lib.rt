// The limits of one row of energy and amounts: what breaks, and how much more of a service the row bears.
#![tactic(auto)]

mod figure;
mod limit;
mod narrowing;
mod opening;
mod plant;
mod row;
mod terms;

pub use figure::{Figure, figures, probe};
pub use limit::{Limit, Sides, first_broken};
pub use plant::PlantLimit;
pub use row::{CheckedRow, Row};
pub use terms::{CheckedTerms, Offer, Terms};
