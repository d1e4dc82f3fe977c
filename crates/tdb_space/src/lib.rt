//! What the bytes of a tdb file mean: records, chains, the free list, accepted images and the map that a file holds.
#![tactic(auto)]

mod direct;
mod hand;
mod io;
mod laws;
mod layout;
mod new_record;
mod plain;
mod reads;
mod space;
mod standing;

pub use crate::direct::Direct;
pub use crate::hand::Hand;
pub use crate::io::Io;
pub use crate::laws::{
    first_fault_law, gate_law, new_area_law, opening_fault_law, opening_law, planned_law,
    recovery_steps_law, runs_law, scheme_law, sequence_law, undoing_law,
};
pub use crate::layout::{FREE_HEAD, chain_head, data_start};
pub use crate::new_record::{fill_record, rec_len_for, record_bytes};
pub use crate::plain::{KeyValue, chain_offsets, pairs_in_order, record_at};
pub use crate::reads::{key_equals, read_rec, read_word, rec_in};
pub use crate::space::Space;
pub use crate::standing::{content_stands, header_stands, read_listed};
