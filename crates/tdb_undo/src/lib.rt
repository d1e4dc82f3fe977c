//! The undo area of a tdb file: placing it, filling it, opening and shutting its gate, and recovery.
#![tactic(auto)]

mod area;
mod content;
mod emptying;
mod front;
mod gate;
mod giving;
mod pieces;
mod placing;
mod recovering;
mod refusal;
mod runs;
mod testing;
mod undoing;
mod window;
mod writing;

pub use crate::content::put_content;
pub use crate::gate::{open_gate, shut_gate};
pub use crate::placing::ensure;
pub use crate::recovering::{needs_recovery, recover};
pub use crate::refusal::UndoRefusal;
pub use crate::runs::Runs;
