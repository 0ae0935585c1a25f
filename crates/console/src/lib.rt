// Sessions over lines of text: a station that is called line by line, and the survey of one unit.
#![tactic(auto)]

mod answers;
mod calls;
mod fault;
mod figures;
mod lines;
mod parse;
mod print;
mod serve;
mod survey;

pub use lines::{Session, TooLong, run};
pub use serve::Server;
pub use survey::Survey;
