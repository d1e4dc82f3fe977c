//! What the environment and the words of a command line say of how files are dealt with beside other programs.

use std::env;
use tdb_files::{Kept, Manner};

/// The variable of the environment that lets files be changed that another program has open, where it is `1`.
const SHARED_VARIABLE: &str = "TDB_SHARED";

/// The variable that says how many seconds a file is waited for that another run has.
const WAIT_VARIABLE: &str = "TDB_WAIT";

/// The commands of `tool` that change nothing, but for undoing what an unfinished change left.
const READING: [&str; 10] = [
    "show", "check", "first", "next", "dump", "keys", "hexkeys", "info", "list", "free",
];

/// The word with this number, counted from 0, is this one.
fn is_word(words: &[String], number: usize, word: &str) -> bool {
    words
        .get(number)
        .is_some_and(|found| found.as_str() == word)
}

/// The command reads its file, and changes nothing but for an undo. False where it isn't known.
fn reads_first(words: &[String]) -> bool {
    is_word(words, 0, "backup")
        || is_word(words, 0, "tool") && READING.iter().any(|verb| is_word(words, 2, *verb))
}

/// The command verifies files, and replaces those that are refused.
fn verifies(words: &[String]) -> bool {
    is_word(words, 0, "backup") && words.iter().any(|word| word.as_str().starts_with("-v"))
}

/// How the command of these words deals with files beside other programs. A variable that says no number counts for
/// nothing.
pub(crate) fn manner_of(rt: &HostRuntime, words: &[String]) -> Manner {
    let manner = Manner::new();
    let seconds = match env::var(rt, WAIT_VARIABLE) {
        Ok(text) => text.parse::<u32>().unwrap_or(manner.seconds),
        Err(_) => manner.seconds,
    };
    let is_shared = match env::var(rt, SHARED_VARIABLE) {
        Ok(text) => text.as_str() == "1",
        Err(_) => false,
    };
    Manner {
        seconds,
        is_shared,
        reads_first: reads_first(words),
        replaced: if verifies(words) {
            Kept::AsRefused
        } else {
            Kept::Nowhere
        },
        warns: true,
    }
}
