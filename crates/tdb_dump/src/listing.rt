//! The ways in which pairs are listed.

ghost use Rattle.std.specs.Prelude.{◌≡◌, ◌++◌, OnOk};
ghost use Rattle.tdb_dump.specs.Listing.{entry_text};

use crate::lines::{push_hex_key, push_key_line};
use crate::writer::push_pair;
use std::alloc::AllocError;

/// What is written of each pair of a list.
#[derive(Clone, Copy, Debug, PartialEq, Eq)]
pub enum Listing {
    /// The pair, as dump text.
    Pairs,

    /// A line `key(N) = "TEXT"`.
    Keys,

    /// A line `key(N) = HEX`: two hexadecimal digits in upper case for each byte of the key.
    HexKeys,
}

impl Listing {
    /// Puts what is written of a pair at the end of a text. It takes no memory but that of the text.
    pub fn push(self, text: &mut Vec<u8>, key: &[u8], value: &[u8]) -> Result<(), AllocError>
        ensures { OnOk result (text.new.items ≡ text.old.items ++ entry_text self key.now value.now) }
    {
        match self {
            Listing::Pairs => push_pair(text, key, value),
            Listing::Keys => push_key_line(text, key),
            Listing::HexKeys => {
                push_hex_key(text, key)?;
                text.extend_from_slice(b"\n")
            }
        }
    }
}
