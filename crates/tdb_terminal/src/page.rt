//! The page that a person is shown who asks for help.

use crate::words::WORDS;
use std::alloc::Global;
use tdb_disk::Sink;

/// What stands in front of the commands.
const HEAD: &str = "Commands of a session:\n";

/// What stands behind them.
const FOOT: &str = "  help                 print this page\n\
In KEY and DATA \\XX is one byte, a blank is \\20, and \"\" is the empty string. The manual: man tdb-tool\n";

/// Writes a page that says how each command of a session is written and what it does. What can't be written is left
/// out.
pub fn write_page<K: Sink>(alloc: Global, told: &mut K) {
    let _ = told.write(HEAD.as_bytes());
    for word in &WORDS {
        if let Ok(row) = format!(in alloc; "  {:<20} {}\n", word.usage, word.does) {
            let _ = told.write(row.as_bytes());
        }
    }
    let _ = told.write(FOOT.as_bytes());
}
