// The walk along chains, over small files in memory.

use crate::check::answers::{Part, part_says};
use crate::check::files::{Fault, HEADER};
use std::alloc::{AllocError, Global};
use tdb_words::What::{ChainLoop, ChainOut, TwiceKey, WrongHash};
use tdb_words::{
    DEAD, Header, Order, Rec, USED, hash_jenkins, hash_old, header_bytes, rec_bytes, word_bytes,
};

/// A record of a file: where it leads, its key, and what it is.
pub(crate) type Link = (u32, [u8; 4], u32);

/// The heads of a file's chains, and behind them these records of 32 bytes each. What the walk along them says, and the
/// offsets of the extents that it puts down, where they are looked at.
struct Chains {
    heads: &'static [u32],
    links: &'static [Link],
    want: Result<u64, Fault>,
    offsets: Option<&'static [u32]>,
}

/// Three records in one chain.
const THREE: Option<&'static [u32]> = Some(&[176, 208, 240]);

/// Two dead records at 180 and 212, of which the second leads to the first.
const DEAD_LINKS: [Link; 2] = [(0, *b"apah", DEAD), (180, *b"apah", DEAD)];

/// A used record, whose key is filed in the first of two chains.
const USED_LINK: [Link; 1] = [(0, *b"apah", USED)];

// The keys "apah" and "zapu" have the same Jenkins hash.
static CHAINS: [(&'static str, Chains); 18] = [
    (
        "three keys",
        Chains {
            heads: &[176],
            links: &[
                (208, *b"apah", USED),
                (240, *b"cccc", USED),
                (0, *b"bbbb", USED),
            ],
            want: Ok(3),
            offsets: THREE,
        },
    ),
    (
        "a dead record between",
        Chains {
            heads: &[176],
            links: &[
                (208, *b"apah", USED),
                (240, *b"cccc", DEAD),
                (0, *b"bbbb", USED),
            ],
            want: Ok(2),
            offsets: THREE,
        },
    ),
    (
        "a dead record of the key in front of it",
        Chains {
            heads: &[176],
            links: &[
                (208, *b"apah", USED),
                (240, *b"apah", DEAD),
                (0, *b"bbbb", USED),
            ],
            want: Ok(2),
            offsets: THREE,
        },
    ),
    (
        "two keys of one Jenkins hash",
        Chains {
            heads: &[176],
            links: &[
                (208, *b"apah", USED),
                (240, *b"zapu", USED),
                (0, *b"bbbb", USED),
            ],
            want: Ok(3),
            offsets: THREE,
        },
    ),
    (
        "a key twice",
        Chains {
            heads: &[176],
            links: &[
                (208, *b"apah", USED),
                (240, *b"cccc", USED),
                (0, *b"apah", USED),
            ],
            want: Err((TwiceKey, 240)),
            offsets: None,
        },
    ),
    (
        "a key twice, with another of its Jenkins hash between",
        Chains {
            heads: &[176],
            links: &[
                (208, *b"apah", USED),
                (240, *b"zapu", USED),
                (0, *b"apah", USED),
            ],
            want: Err((TwiceKey, 240)),
            offsets: None,
        },
    ),
    (
        "a key twice, behind another of its Jenkins hash",
        Chains {
            heads: &[176],
            links: &[
                (208, *b"apah", USED),
                (240, *b"zapu", USED),
                (0, *b"zapu", USED),
            ],
            want: Err((TwiceKey, 240)),
            offsets: None,
        },
    ),
    (
        "a key twice before the chain leads in front of the data",
        Chains {
            heads: &[176],
            links: &[
                (208, *b"apah", USED),
                (240, *b"apah", USED),
                (172, *b"bbbb", USED),
            ],
            want: Err((TwiceKey, 208)),
            offsets: None,
        },
    ),
    (
        "a key twice before the chain leads back",
        Chains {
            heads: &[176],
            links: &[
                (208, *b"apah", USED),
                (240, *b"cccc", USED),
                (208, *b"apah", USED),
            ],
            want: Err((TwiceKey, 240)),
            offsets: None,
        },
    ),
    (
        "a chain that leads in front of the data, with two keys of one Jenkins hash",
        Chains {
            heads: &[176],
            links: &[
                (208, *b"apah", USED),
                (240, *b"zapu", USED),
                (172, *b"bbbb", USED),
            ],
            want: Err((ChainOut, 240)),
            offsets: None,
        },
    ),
    (
        "a chain that leads back",
        Chains {
            heads: &[176],
            links: &[
                (208, *b"apah", USED),
                (240, *b"cccc", USED),
                (208, *b"bbbb", USED),
            ],
            want: Err((ChainLoop, 240)),
            offsets: None,
        },
    ),
    (
        "a chain that leads in front of the data",
        Chains {
            heads: &[176],
            links: &[
                (208, *b"apah", USED),
                (240, *b"cccc", USED),
                (172, *b"bbbb", USED),
            ],
            want: Err((ChainOut, 240)),
            offsets: None,
        },
    ),
    // Of what two chains lead to, the least extent is put down again.
    (
        "two chains that lead to the same two dead records",
        Chains {
            heads: &[212, 212],
            links: &DEAD_LINKS,
            want: Ok(0),
            offsets: Some(&[212, 180, 180]),
        },
    ),
    (
        "a second chain that leads to the last record of the first one",
        Chains {
            heads: &[212, 180],
            links: &DEAD_LINKS,
            want: Ok(0),
            offsets: Some(&[212, 180, 180]),
        },
    ),
    (
        "a first chain that leads to the last record of the second one",
        Chains {
            heads: &[180, 212],
            links: &DEAD_LINKS,
            want: Ok(0),
            offsets: Some(&[180, 212, 180]),
        },
    ),
    (
        "two dead records in one of two chains",
        Chains {
            heads: &[212, 0],
            links: &DEAD_LINKS,
            want: Ok(0),
            offsets: Some(&[212, 180]),
        },
    ),
    (
        "a key in its own chain",
        Chains {
            heads: &[180, 0],
            links: &USED_LINK,
            want: Ok(1),
            offsets: None,
        },
    ),
    (
        "a key in another chain",
        Chains {
            heads: &[0, 180],
            links: &USED_LINK,
            want: Err((WrongHash, 180)),
            offsets: None,
        },
    ),
];

/// Puts records of 32 bytes each at the end of a file.
pub(crate) fn push_links(bytes: &mut Vec<u8>, links: &[Link]) -> Result<(), AllocError> {
    for (next, key, magic) in links {
        let r = Rec {
            next: *next,
            rec_len: 8,
            key_len: 4,
            data_len: 0,
            full_hash: hash_old(key),
            magic: *magic,
        };
        bytes.extend_from_slice(&rec_bytes(&r, Order::Little))?;
        bytes.extend_from_slice(key)?;
        bytes.extend_from_slice(&word_bytes(32, Order::Little))?;
    }
    Ok(())
}

/// The header of a file of so many chains.
pub(crate) fn header_of(heads: &[u32]) -> Header {
    Header {
        hash_size: u32::try_from(heads.len()).unwrap_or(u32::MAX),
        ..HEADER
    }
}

/// A file with these chain heads, and these records behind them.
pub(crate) fn file(alloc: Global, heads: &[u32], links: &[Link]) -> Result<Vec<u8>, AllocError> {
    let h = header_of(heads);
    let mut bytes = header_bytes(h.hash_size.max(1), h.order, h.hash).to_vec(alloc)?;
    bytes.extend_from_slice(&word_bytes(0, Order::Little))?;
    for head in heads {
        bytes.extend_from_slice(&word_bytes(*head, Order::Little))?;
    }
    push_links(&mut bytes, links)?;
    Ok(bytes)
}

/// The first chains of which the walk doesn't say that.
pub(crate) fn failing_chains(alloc: Global) -> Result<Option<&'static str>, AllocError> {
    if hash_jenkins(b"apah") != hash_jenkins(b"zapu") {
        return Ok(Some("two hashes"));
    }
    for (name, row) in &CHAINS {
        let bytes = file(alloc, row.heads, row.links)?;
        let header = header_of(row.heads);
        if !part_says(
            alloc,
            &header,
            &bytes,
            None,
            &Part::Chains,
            row.want,
            row.offsets,
        )? {
            return Ok(Some(*name));
        }
    }
    Ok(None)
}
