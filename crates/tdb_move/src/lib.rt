//! One key is moved with its value from a file into another.
#![tactic(auto)]

mod fault;
mod laws;
mod moving;

pub use crate::fault::MoveFault;
pub use crate::laws::moved_keys_stay;
pub use crate::moving::move_key;
