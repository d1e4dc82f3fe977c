//! What is kept of a disk that is written behind.
use crate::content::Content;
use crate::pending::Pending;

/// What is kept of a disk that is written behind.
#[derive(Drop)]
pub enum Kept {
    /// Each call is passed on.
    Nothing,

    /// The whole content.
    Whole(Content),

    /// The blocks to which was written.
    Gathered(Pending),
}
