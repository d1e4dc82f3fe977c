// The commands that read a file alone.

use tdb_words::Bytes;

/// What is asked of a file that is read alone.
#[derive(Debug, Drop)]
pub enum Look {
    /// All its pairs.
    Dump,

    /// The value that it holds for a key, and nothing else.
    Value { key: Bytes },
}
