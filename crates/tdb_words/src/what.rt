// What a check finds wrong with a file.

ghost use Rattle.std.specs.Prelude.{◌≡◌};

use std::fmt;

/// What is wrong with a file, as its check answers it.
#[derive(Clone, Copy, Debug, PartialEq, Eq)]
pub enum What {
    /// The file ends within its header or the heads of its chains, or its length isn't a multiple
    /// of 4.
    Short,

    /// The header has a fault.
    Header,

    /// The undo area doesn't fit into the file, or its gate word is neither open nor shut.
    AreaBad,

    /// The gate of the undo area is open, and what the area holds can't be undone.
    UndoBad,

    /// A chain leads to a place where no record can stand.
    ChainOut,

    /// A chain leads back to a record that it has passed.
    ChainLoop,

    /// A record's magic is not that of its list, or its lengths don't fit.
    BadRecord,

    /// A record's last word isn't its extent.
    Tailer,

    /// A record's hash isn't that of its key, or is that of another chain.
    WrongHash,

    /// Two live records have one key.
    TwiceKey,

    /// The free list leads to a place where no record can stand.
    FreeOut,

    /// The free list leads back to a record that it has passed.
    FreeLoop,

    /// Two extents share a byte.
    Overlap,

    /// A byte outside all extents is neither 0 nor padding.
    Stray,
}

impl What {
    ghost use Rattle.tdb_words.specs.What.{what_text};

    /// The word that is printed.
    pub fn as_str(self) -> &'static str
        ensures { result.now ≡ what_text self }
    {
        match self {
            What::Short => "Short",
            What::Header => "Header",
            What::AreaBad => "AreaBad",
            What::UndoBad => "UndoBad",
            What::ChainOut => "ChainOut",
            What::ChainLoop => "ChainLoop",
            What::BadRecord => "BadRecord",
            What::Tailer => "Tailer",
            What::WrongHash => "WrongHash",
            What::TwiceKey => "TwiceKey",
            What::FreeOut => "FreeOut",
            What::FreeLoop => "FreeLoop",
            What::Overlap => "Overlap",
            What::Stray => "Stray",
        }
    }
}

impl fmt::Display for What {
    fn fmt<W: fmt::Write>(&self, f: &mut fmt::Formatter<W>) -> fmt::Result {
        f.write_str(self.as_str())
    }
}
