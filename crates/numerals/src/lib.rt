// Whole numbers as text: what digits spell, and the digits of a number.
#![tactic(auto)]

mod reading;
mod writing;

pub use reading::whole;
pub use writing::put_number;
