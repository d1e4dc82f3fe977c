//! The opening of a file: an unfinished change is undone, and no file is used before the whole of it is checked. And
//! the making of a new file.
#![tactic(auto)]

mod creating;
mod halt;
mod limits;
mod loading;
mod opening;
mod verdict;

pub use crate::creating::{NewForm, make};
pub use crate::halt::{Fault, Halt, Refusal};
pub use crate::limits::{LONGEST_FILE, limits_law};
pub use crate::loading::open_to_turn;
pub use crate::opening::Opened;
