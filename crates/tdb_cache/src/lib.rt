//! A cache of blocks of a disk, and a disk that is written behind. Both are disks themselves.
#![tactic(auto)]

mod blocks;
mod cached;
mod content;
mod kept;
mod pending;
mod piece;
mod write_behind;

pub use cached::Cached;
pub use write_behind::WriteBehind;
