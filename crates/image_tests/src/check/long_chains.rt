// The walk along chains of many records, and of keys that have one Jenkins hash.

use crate::check::answers::{Part, part_says};
use crate::check::chains::{Link, file};
use crate::check::files::{Fault, HEADER};
use std::alloc::{AllocError, Global};
use tdb_words::What::TwiceKey;
use tdb_words::{Order, USED, hash_jenkins, word_bytes};

/// Twenty keys, each a `k`, a byte that counts up from 0, and two bytes of 0, as little-endian words.
const KEYS: [u32; 20] = [
    0x006B, 0x016B, 0x026B, 0x036B, 0x046B, 0x056B, 0x066B, 0x076B, 0x086B, 0x096B, 0x0A6B, 0x0B6B,
    0x0C6B, 0x0D6B, 0x0E6B, 0x0F6B, 0x106B, 0x116B, 0x126B, 0x136B,
];

/// Eleven keys of one Jenkins hash, as little-endian words.
pub(crate) const LIKE_KEYS: [u32; 11] = [
    0x0711_577B,
    0x1E0A_7D6A,
    0x2823_DB4C,
    0x406F_03DD,
    0x4F30_51D3,
    0x6788_15C2,
    0x7E47_573C,
    0x8F5B_EE70,
    0x97C1_2CD9,
    0xB12E_77AE,
    0xF4E9_A54C,
];

/// A chain of records with the first so many of these keys, and behind them one with the key of this number.
pub(crate) fn links_of(
    alloc: Global,
    keys: &[u32],
    count: usize,
    last: usize,
) -> Result<Vec<Link>, AllocError> {
    let mut links = Vec::new(alloc);
    let mut next = 176u32;
    for key in keys.iter().take(count) {
        next = next.saturating_add(32);
        links.push((next, word_bytes(*key, Order::Little), USED))?;
    }
    if let Some(key) = keys.get(last) {
        links.push((0, word_bytes(*key, Order::Little), USED))?;
    }
    Ok(links)
}

/// Keys, how many of them stand in front of another one of them, and what the walk along the chain says.
type LongChain = (&'static [u32], usize, usize, Result<u64, Fault>);

static LONG_CHAINS: [(&'static str, LongChain); 8] = [
    ("twenty keys", (&KEYS, 19, 19, Ok(20))),
    (
        "the key in front of the last",
        (&KEYS, 19, 18, Err((TwiceKey, 784))),
    ),
    ("the third key again", (&KEYS, 19, 2, Err((TwiceKey, 784)))),
    ("eight keys of one Jenkins hash", (&LIKE_KEYS, 7, 7, Ok(8))),
    ("nine keys of one Jenkins hash", (&LIKE_KEYS, 8, 8, Ok(9))),
    (
        "eleven keys of one Jenkins hash",
        (&LIKE_KEYS, 10, 10, Ok(11)),
    ),
    (
        "the third of seven again",
        (&LIKE_KEYS, 7, 2, Err((TwiceKey, 400))),
    ),
    (
        "the third of ten again",
        (&LIKE_KEYS, 10, 2, Err((TwiceKey, 496))),
    ),
];

/// The first chain of many records, or of keys of one Jenkins hash, of which the walk doesn't say that.
pub(crate) fn failing_long_chain(alloc: Global) -> Result<Option<&'static str>, AllocError> {
    for key in &LIKE_KEYS {
        if hash_jenkins(&word_bytes(*key, Order::Little)) != 0x0214_FB16 {
            return Ok(Some("a Jenkins hash"));
        }
    }
    for (name, (keys, count, last, want)) in &LONG_CHAINS {
        let bytes = file(alloc, &[176], &links_of(alloc, keys, *count, *last)?)?;
        if !part_says(alloc, &HEADER, &bytes, None, &Part::Chains, *want, None)? {
            return Ok(Some(*name));
        }
    }
    Ok(None)
}
