// How long a file may be that is opened.

ghost use Rattle.std.specs.Prelude.{◌≡◌};

/// The greatest length of a file, in bytes: what a word can tell, less a page.
pub const LONGEST_FILE: u64 = 4_294_963_200;

/// The limit above is the number that the definitions name: 2 ^ 32 less a page of 4096 bytes.
pub fn limits_law()
    ensures { LONGEST_FILE ≡ 4294963200 }
{}
