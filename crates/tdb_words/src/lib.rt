//! The words of a tdb file: byte strings, numbers in either byte order, record headers, the file's
//! header, and the hashes of keys.
#![tactic(auto)]

mod bytes;
mod hash;
mod header;
mod jenkins;
mod old;
mod record;
mod what;
mod word;

pub use crate::bytes::Bytes;
pub use crate::hash::{HashKind, HashRun, chain_of, hash_jenkins, hash_of, hash_old};
pub use crate::header::{Header, HeaderFault, header_bytes, header_of};
pub use crate::record::{
    DEAD, FREE, GATE_OPEN, GATE_SHUT, PADDING, Rec, USED, magics_law, rec_bytes, rec_of,
};
pub use crate::what::What;
pub use crate::word::{Order, word_at, word_bytes, word_in};
