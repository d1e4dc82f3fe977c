//! Changes of a file that nobody else changes: a key that is stored, and one that is deleted.
#![tactic(auto)]

mod deleting;
mod refusal;
mod storing;

pub use crate::deleting::delete;
pub use crate::refusal::StoreRefusal;
pub use crate::storing::store;
