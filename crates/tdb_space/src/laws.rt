//! Laws over images: each function does nothing, and its clauses hold of all lists of bytes.

mod first_fault;
mod gate;
mod new_area;
mod opening;
mod opening_fault;
mod planned;
mod runs;
mod scheme;
mod sequence_number;
mod undoing;

pub use crate::laws::first_fault::first_fault_law;
pub use crate::laws::gate::gate_law;
pub use crate::laws::new_area::new_area_law;
pub use crate::laws::opening::opening_law;
pub use crate::laws::opening_fault::opening_fault_law;
pub use crate::laws::planned::planned_law;
pub use crate::laws::runs::runs_law;
pub use crate::laws::scheme::scheme_law;
pub use crate::laws::sequence_number::sequence_law;
pub use crate::laws::undoing::{recovery_steps_law, undoing_law};
