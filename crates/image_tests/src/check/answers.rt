// What the parts of the check answer over files in memory.

use crate::check::files::{Fault, extents_of, refusal};
use crate::files::disk_of;
use std::alloc::{AllocError, Global};
use tdb_check::{
    CheckRefusal, Extent, ListKind, can_stand, follow_chains, follow_free_list, read_area,
    read_record, scan,
};
use tdb_disk::{Call, MemDisk};
use tdb_space::{Direct, Space};
use tdb_words::Header;

/// A part of the check: of the undo area, of the record at 176 in this list, of the free list, of the chains, and of
/// the gaps between these extents.
pub(crate) enum Part {
    Area,
    Record(ListKind),
    FreeList,
    Chains,
    Gaps(&'static [(u32, u32)]),
}

/// What a part of the check answers over a disk: the next of a record, how many keys the chains hold, how many bytes
/// the gaps, and else 0. The extents that it finds are put down. None where the file is too short for that part, or
/// memory is wanting.
fn answer(
    alloc: Global,
    disk: &mut MemDisk,
    header: &Header,
    part: &Part,
    found: &mut Vec<Extent>,
) -> Option<Result<u64, CheckRefusal>> {
    let mut s = Direct::new(disk, header);
    let len = s.len().ok()?;
    if header.hash_size == 0 || len < 168 + 4 * (u64::from(header.hash_size) + 1) {
        return None;
    }
    Some(match part {
        Part::Area => match read_area(&mut s, len) {
            Ok(Some(area)) => {
                found.push(area).ok()?;
                Ok(0)
            }
            Ok(None) => Ok(0),
            Err(e) => Err(e),
        },
        Part::Record(kind) => {
            if len < 200 || !can_stand(176, len, header.hash_size) {
                return None;
            }
            match read_record(&mut s, len, *kind, 176) {
                Ok(record) => Ok(u64::from(record.header.next)),
                Err(e) => Err(e),
            }
        }
        Part::FreeList => match follow_free_list(alloc, &mut s, len, found) {
            Ok(()) => Ok(0),
            Err(e) => Err(e),
        },
        Part::Chains => follow_chains(alloc, &mut s, len, found),
        Part::Gaps(places) => scan(&mut s, len, &extents_of(alloc, places).ok()?),
    })
}

/// Whether records of 8 bytes at these offsets were found.
fn are_at(found: &[Extent], offsets: &[u32]) -> bool {
    for (i, off) in offsets.iter().enumerate() {
        let extent = Extent {
            off: *off,
            rec_len: 8,
        };
        if found.get(i) != Some(&extent) {
            return false;
        }
    }
    found.len() == offsets.len()
}

/// Whether a part of the check says this of a file in which this call fails, and finds records of 8 bytes at these
/// offsets, where they are looked at.
pub(crate) fn part_says(
    alloc: Global,
    header: &Header,
    bytes: &[u8],
    failing: Option<(Call, u64)>,
    part: &Part,
    want: Result<u64, Fault>,
    offsets: Option<&[u32]>,
) -> Result<bool, AllocError> {
    let mut disk = disk_of(alloc, bytes, failing)?;
    let mut found = Vec::new(alloc);
    let said = answer(alloc, &mut disk, header, part, &mut found);
    Ok(
        said == Some(want.map_err(refusal))
            && match offsets {
                Some(offsets) => are_at(&found, offsets),
                None => true,
            },
    )
}
