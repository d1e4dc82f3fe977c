//! The command whose name is nearest to a word.

use crate::words::{WORDS, Word};
use std::alloc::{AllocError, Global};
use strsim::osa_distance;

/// How many bytes a word has at most to which a name is near.
const LONGEST_WORD: usize = 32;

/// How many edits lead at most to a name that is near.
const MOST_EDITS: usize = 3;

/// How many edits lead at most to a name that is near to a word of this length.
fn most_edits(len: usize) -> usize {
    (1 + len / 4).min(MOST_EDITS)
}

/// The command whose name is nearest to the word, and by how many edits, where one is near. An edit adds, removes or
/// changes a character, or swaps two neighbours. Of two that are as near it is the later one.
pub(crate) fn nearest_to(
    alloc: Global,
    word: &str,
) -> Result<Option<(&'static Word, usize)>, AllocError> {
    let mut nearest = None;
    if word.len() > LONGEST_WORD {
        return Ok(nearest);
    }
    let mut fewest = most_edits(word.len());
    for known in &WORDS {
        let edits = osa_distance(alloc, word, known.name)?;
        if edits <= fewest {
            fewest = edits;
            nearest = Some((known, edits));
        }
    }
    Ok(nearest)
}
