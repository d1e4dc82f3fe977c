//! What can still be read of a damaged tdb file: the pairs of all used records, wherever they stand.
#![tactic(auto)]

mod key_hash;
mod laws;
mod readable;
mod refusal;
mod rescuing;
mod window;

pub use crate::laws::rescued_law;
pub use crate::refusal::RescueRefusal;
pub use crate::rescuing::rescue;
