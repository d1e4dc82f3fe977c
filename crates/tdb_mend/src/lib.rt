//! Reading a damaged tdb file as the stock library would: what its open undo gate keeps is given back in memory, and
//! stray bytes count for nothing.
#![tactic(auto)]

mod area;
mod copy_on_write;
mod counting;
mod file;
mod giving;
mod laws;
mod mending;
mod mutexes;
mod pages;
mod surveying;
mod undoing;
mod view;

pub use crate::file::MendedFile;
pub use crate::laws::mended_law;
pub use crate::mending::mend;
pub use crate::mutexes::{Database, find_database};
pub use crate::view::MendedView;
