//! What the words of a command line ask for: a file, and what is to be done with it.
#![tactic(auto)]

mod act;
mod ask;
mod hex;
mod limits;
mod lines;
mod look;
mod names;
mod options;
mod printout;
mod words;

pub use act::{Act, Verb};
pub use ask::{Ask, Task};
pub use hex::hex_bytes_of;
pub use limits::{DEFAULT_SIZE, LONGEST_NUMBER, LONGEST_WORD, MOST_CHAINS, limits_law};
pub use lines::create::NewFile;
pub use look::Look;
pub use names::{Names, Text};
pub use printout::Printout;
