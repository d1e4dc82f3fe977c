// Words and lines of input that are too long.

use crate::images::NEW;
use crate::runs::Failing::Nothing;
use crate::runs::answer;
use crate::tables::files_of;
use std::alloc::{AllocError, Global};

/// These words, and behind them a value of 5000 bytes.
pub(crate) fn long_words(alloc: Global, front: &str) -> Result<String, AllocError> {
    let mut words = String::from_str(alloc, front)?;
    for _ in 0..500 {
        words.push_str("xxxxxxxxxx")?;
    }
    Ok(words)
}

/// The first run over a new file that goes otherwise: a long word in a file that may have 4096 bytes; a line and a
/// script that are one byte too long, and ones that aren't. The file stays as long as it was.
pub(crate) fn failing_run(alloc: Global) -> Result<Option<&'static str>, AllocError> {
    let store = long_words(alloc, "tool --limit 4096 f.tdb store a ")?;
    let blanks = vec![in alloc; b' '; 16_777_217]?;
    let newlines = vec![in alloc; b'\n'; 16_777_217]?;
    for (name, words, text, status, printed) in [
        (
            "a long value",
            store.as_str(),
            &blanks[..0],
            6,
            "full 696 6280\n",
        ),
        (
            "a line that is too long",
            "tool f.tdb",
            &blanks[..],
            7,
            "input malformed at 0\n",
        ),
        ("a line that is long", "tool f.tdb", &blanks[1..], 0, ""),
        (
            "a script that is too long",
            "turns f.tdb",
            &newlines[..],
            7,
            "input malformed at 16777216\n",
        ),
        ("a script that is long", "turns f.tdb", &blanks[1..], 0, ""),
    ] {
        let mut files = files_of(alloc, &[("f.tdb", NEW)])?;
        let logs = &mut Vec::new(alloc);
        let (found, bytes) = answer(alloc, &mut files, words, text, &Nothing, logs)?;
        let len = match files.get("f.tdb") {
            Some(left) => left.len(),
            None => 0,
        };
        if found != status || bytes.as_slice() != printed.as_bytes() || len != 696 {
            return Ok(Some(name));
        }
    }
    Ok(None)
}
