//! What a command line asks for is done over a set of files, an input and an output, and the line of its ending
//! printed.
#![tactic(auto)]

mod act;
mod answering;
mod commands;
mod ending;
mod look;
mod playing;
mod scripts;

pub use answering::answer_ask;
pub use commands::mend::can_be_mended;
pub use ending::{Ending, Reply, Status, Unprinted, print};
