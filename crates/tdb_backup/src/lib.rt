//! What `dump`, `restore` and `backup` do with files: all pairs are read one after the other, and new ones are added.
#![tactic(auto)]

mod copying;
mod dumping;
mod filling;
mod held;
mod refusal;
mod restoring;
mod telling;
mod traversal;

pub use crate::copying::copy_pairs;
pub use crate::dumping::{list_next, write_pairs};
pub use crate::filling::insert_new;
pub use crate::held::Held;
pub use crate::refusal::{BackupRefusal, CopyRefusal, DumpRefusal, InsertRefusal, RestoreRefusal};
pub use crate::restoring::{LONGEST_TEXT, longest_text_law, restore_pairs};
pub use crate::traversal::Traversal;
