// What is done to the free lists of small files in memory.

use crate::files::file_of;
use small_file::Word;
use std::alloc::{AllocError, Global};
use tdb_disk::MemDisk;
use tdb_free::{FreeRefusal, ListRefusal, give, list, take, take_fit};
use tdb_space::{Direct, Hand, Io};
use tdb_words::Header;

/// How long a file may be where nothing else is said.
pub(crate) const MOST: u64 = 4294963200;

/// The offset and the length of a record.
pub(crate) type Place = (u32, u32);

/// What is done: a give of a record, a take of so many bytes, for which the file may grow up to a limit, and one that
/// doesn't let it grow.
#[derive(Drop)]
pub(crate) enum Step {
    Give(Place),
    Take(u32, u64),
    TakeFit(u32),
}

/// What a step answers: the record that it takes, if it takes one. None where the record has no whole words.
pub(crate) fn answer(
    disk: &mut MemDisk,
    header: &Header,
    step: &Step,
) -> Option<Result<Option<Place>, FreeRefusal>> {
    let (off, rec_len) = match step {
        Step::Give(place) => *place,
        Step::Take(rec_len, _) | Step::TakeFit(rec_len) => (0, *rec_len),
    };
    if off % 4 != 0 || rec_len % 4 != 0 || rec_len < 4 {
        return None;
    }
    let mut s = Direct::new(disk, header);
    let taken = match step {
        Step::Give(_) => match give(&mut s, Hand::new(off, rec_len)) {
            Ok(()) => Ok(None),
            Err(e) => Err(e),
        },
        Step::Take(_, limit) => match take(&mut s, u64::from(rec_len), (*limit).min(MOST)) {
            Ok(hand) => Ok(Some(hand)),
            Err(e) => Err(e),
        },
        Step::TakeFit(_) => match take_fit(&mut s, u64::from(rec_len)) {
            Ok(hand) => Ok(hand),
            Err(Io) => Err(FreeRefusal::Io),
        },
    };
    Some(match taken {
        Ok(Some(hand)) => {
            let place = (hand.off(), hand.rec_len());
            hand.end();
            Ok(Some(place))
        }
        Ok(None) => Ok(None),
        Err(e) => Err(e),
    })
}

/// Whether the free list of a file has just these records.
pub(crate) fn has_list(
    alloc: Global,
    disk: &mut MemDisk,
    header: &Header,
    want: &[Place],
) -> Result<bool, ListRefusal> {
    let records = list(alloc, &mut Direct::new(disk, header))?;
    for (i, place) in want.iter().enumerate() {
        if records.get(i) != Some(*place) {
            return Ok(false);
        }
    }
    Ok(records.len() == want.len())
}

/// A file of this header and this length with words, of which the later ones overwrite the earlier ones, and else full
/// of one byte.
pub(crate) struct File {
    pub(crate) header: Header,
    pub(crate) len: usize,
    pub(crate) fill: u8,
    pub(crate) words: &'static [Word],
    pub(crate) later: &'static [Word],
}

/// The bytes of a file.
pub(crate) fn bytes_of(alloc: Global, file: &File) -> Result<Vec<u8>, AllocError> {
    file_of(
        alloc,
        file.len,
        file.fill,
        file.header.order,
        file.words,
        file.later,
    )
}
