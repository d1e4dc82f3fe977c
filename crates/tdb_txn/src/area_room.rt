//! How long the content of an undo area is, and the area that is made for it.
ghost use Rattle.std.specs.Prelude.{◌≡◌, ◌+◌, ◌*◌, ◌-◌, ◌/◌, ◌%◌, ◌<◌, ◌≤◌, ◌^◌, min};
ghost use Rattle.tdb_space.specs.Planned.{content_length};
ghost use Rattle.tdb_txn.specs.AreaRoom.{new_area_length};

use tdb_undo::Runs;

/// The length of a content above which no longer one is counted: none of a file is so long.
const MOST_CONTENT: u64 = 1 << 40;

/// How many bytes the header of an undo area has.
pub(crate) const AREA_HEADER: u32 = 24;

/// How many bytes the content has for these runs: for each two words and its bytes, and at the end one word. It is at
/// most the greatest number of 64 bits.
pub(crate) fn content_len(runs: &Runs) -> u64
    ensures { result ≡ min (content_length runs.now) (2 ^ 64 - 1) }
{
    let mut len: u64 = 4;
    for i in 0..runs.len() {
        let Some(run) = runs.get(i) else {
            return len;
        };
        len = len.saturating_add(8 + run.1 as u64);
    }
    len
}

/// How many bytes a new undo area gets, with its header, for a content of so many bytes: a quarter more than that, in
/// whole blocks of 4096 bytes.
fn area_len(content: u64) -> u64
    requires { content < 2 ^ 62 }
    ensures length { result ≡ new_area_length content }
    ensures room { 24 + content ≤ result }
    ensures words { result % 4 ≡ 0 }
{
    (AREA_HEADER as u64 + content + content / 4).next_multiple_of(4_096)
}

/// The same of a content of any length: one that is longer than `MOST_CONTENT` counts as that long.
pub(crate) fn area_len_for(content: u64) -> u64
    ensures length { content < 2 ^ 40 → result ≡ new_area_length content }
    ensures room { 24 + min content (2 ^ 40) ≤ result }
    ensures words { result % 4 ≡ 0 }
{
    area_len(content.min(MOST_CONTENT))
}

/// How many bytes a new undo area gets, with its header, for the content of these runs.
pub(crate) fn area_len_of(runs: &Runs) -> u64
    ensures length { content_length runs.now < 2 ^ 40 → result ≡ new_area_length (content_length runs.now) }
    ensures room { 24 + min (content_length runs.now) (2 ^ 40) ≤ result }
    ensures words { result % 4 ≡ 0 }
{
    area_len_for(content_len(runs))
}
