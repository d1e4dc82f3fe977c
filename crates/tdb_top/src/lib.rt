//! The top call of the program: command lines are read, and run over a set of files, an input and an output.
#![tactic(auto)]

mod top;

pub use tdb_answer::{Status, can_be_mended};
pub use top::run;
