//! What several openers of one file are told to do, and what a report tells of it.
#![tactic(auto)]

mod command;
mod laws;
mod line;
mod options;
mod play;
mod plays;
mod report;

pub use crate::command::Command;
pub use crate::laws::law_names;
pub use crate::line::Line;
pub use crate::options::Options;
pub use crate::play::Play;
pub use crate::plays::Plays;
pub use crate::report::TurnReport;
