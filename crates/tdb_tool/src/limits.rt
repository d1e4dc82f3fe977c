// Limits of a session.

ghost use Rattle.tdb_tool.specs.Limits.{AreLimits};

/// How many bytes a line has at most, without its newline.
pub const LONGEST_LINE: usize = 16_777_216;

/// How many bytes the text of a session has at most, in which the last line counts as if it had a newline.
pub const LONGEST_SESSION: u64 = 17_179_869_184;

/// How many moves a list makes at most. A file has fewer records: each takes 28 bytes of less than 2^32.
pub const MOST_MOVES: u32 = 268_435_456;

/// The limits above are the numbers that the definitions name.
pub fn limits_law()
    ensures { AreLimits }
{}
