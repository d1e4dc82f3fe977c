// How long words may be, and how many chains a new file gets.

ghost use Rattle.tdb_cmdline.specs.Limits.{AreLimits};

/// The greatest length of a word of the command line, in bytes.
pub const LONGEST_WORD: usize = 16_777_216;

/// The greatest length of a number on the command line, in digits.
pub const LONGEST_NUMBER: usize = 10;

/// The number of chains of a new file where none is asked for.
pub const DEFAULT_SIZE: u32 = 131;

/// The greatest number of chains that a new file is made with.
pub const MOST_CHAINS: u32 = 1_048_576;

/// The limits above are the numbers that the definitions name.
pub fn limits_law()
    ensures { AreLimits }
{}
