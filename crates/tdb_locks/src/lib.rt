//! Byte-range locks of many owners on one file, granted exactly where nothing conflicts.
#![tactic(auto)]

pub use held::Held;
pub use kind::Kind;
pub use len::Len;
pub use locks::{LockRefusal, Locks};
pub use piece::Piece;
pub use spots::Spots;
pub use turn::{Reply, Turn};

mod conflict;
mod cut;
mod held;
mod kind;
mod len;
mod locks;
mod piece;
mod replace;
mod search;
mod spots;
mod turn;
