//! The text in which administrators carry databases: escapes, words of commands, and dump text both ways.
#![tactic(auto)]

mod escapes;
mod key_set;
mod laws;
mod lines;
mod listing;
mod pairs;
mod partial;
mod reader;
mod words;
mod writer;

pub use crate::escapes::{escape, hex_value};
pub use crate::laws::{spelling_law, word_law};
pub use crate::lines::{data_line, key_line, pair_line};
pub use crate::listing::Listing;
pub use crate::pairs::{Pair, Pairs};
pub use crate::reader::{ReadRefusal, Reader};
pub use crate::words::{WordRefusal, word_bytes_of};
pub use crate::writer::{WriteRefusal, push_pair, write_pair};
