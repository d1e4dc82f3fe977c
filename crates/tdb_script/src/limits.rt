// Limits of scripts.

ghost use Rattle.tdb_script.specs.Limits.{AreLimits};

/// How many bytes a script has at most.
pub const LONGEST_SCRIPT: usize = 16_777_216;

/// The greatest number of an opener: nine digits.
pub const MOST_NUMBER: u32 = 999_999_999;

/// The limits above are the numbers that the definitions name.
pub fn limits_law()
    ensures { AreLimits }
{}
