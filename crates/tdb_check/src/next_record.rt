// The next record of a file that is read in the order in which its records stand.

ghost use Rattle.std.specs.Prelude.{◌≡◌, ℕ, ◌+◌, ◌-◌, ◌%◌, ◌<◌, ◌≤◌, ◌^◌, false, List, IsTrue, length, take, drop, IfOk, IfSome, OnOk};
ghost use Rattle.tdb_disk.specs.Count.{HasCause, RoseUpTo};
ghost use Rattle.tdb_words.specs.Record.{rec_at};
ghost use Rattle.tdb_space.specs.Form.{data_start};
ghost use Rattle.tdb_check.specs.Seen.{kind_of, is_bad_header, is_misfiled_header};
ghost use Rattle.tdb_check.specs.InSequence.{IsOf, IsMemberIn, MemberAt, IsAmong, IsWindowOn, reach_of};
ghost use Rattle.tdb_space.specs.Frame.{Looked};

use crate::hashes::hashes_of;
use crate::list_kind::ListKind;
use crate::record::{Found, header_in, is_bad};
use crate::window::Window;
use tdb_space::{Io, Space};
use tdb_words::{DEAD, FREE, HashKind, Order, Rec, USED, chain_of};

/// A record, and the list that it belongs to.
#[derive(Clone, Copy)]
pub(crate) struct Member {
    pub list: ListKind,
    pub found: Found,
}

/// What of a file's form tells the list of a record and its key's hash.
#[derive(Clone, Copy)]
struct Filing {
    order: Order,
    hash: HashKind,
    chains: u32,
}

/// The list that a record with this header belongs to, for a used or dead one by the hash in its header; none for one
/// that is neither used, dead nor free. A dead record may stand in any chain, and is put there by what stores.
fn list_of(header: &Rec, chains: u32) -> Option<ListKind>
    requires { 0 < chains }
    ensures of { IfSome result (λ list. IsAmong chains list × IsOf (kind_of list) header.now.magic) }
    ensures filed { IfSome result (λ list. is_misfiled_header (kind_of list) header.now header.now.full_hash chains ≡ false) }
{
    match header.magic {
        USED | DEAD => Some(ListKind::Chain(chain_of(header.full_hash, chains))),
        FREE => Some(ListKind::Free),
        _ => None,
    }
}

/// The record at an offset by the bytes that begin with it, in a file of `len` bytes; none where it belongs to no list,
/// is bad or misfiled, or where its key isn't whole in these bytes. Its tailer isn't looked at.
fn member_in(bytes: &[u8], at: u32, len: u64, filing: Filing) -> Option<Member>
    requires chains { 0 < filing.chains }
    requires header { 24 ≤ length bytes.now }
    requires within { at + 24 ≤ len }
    ensures { IfSome result (λ member. IsMemberIn filing bytes.now at len member) }
{
    let header = header_in(bytes, filing.order);
    let list = list_of(&header, filing.chains)?;
    if is_bad(list, &header, at, len) {
        return None;
    }
    if header.magic != USED {
        return Some(Member {
            list,
            found: Found { header, mark: 0 },
        });
    }
    let hashes = hashes_of(filing.hash, bytes.get(24..24 + header.key_len as usize)?);
    if header.full_hash != hashes.own {
        return None;
    }
    Some(Member {
        list,
        found: Found {
            header,
            mark: hashes.mark,
        },
    })
}

/// The record at an offset and the list that it belongs to; none where it belongs to no list, is bad or misfiled, where
/// its tailer is wrong, or where the window has no room for its header and key. The window goes forward to the record,
/// or to its tailer.
pub(crate) fn next_record<S: Space>(
    s: &mut S,
    len: u64,
    window: &mut Window,
    at: u32,
) -> Result<Option<Member>, Io>
    requires length { len ≡ S.size s.old }
    requires within { at + 24 ≤ len }
    requires chains { 0 < (S.form s.old).chains }
    requires back { window.old.from ≤ at }
    requires reach { reach_of window.old ≤ len }
    ensures stands { IfOk result (λ found. IfSome found (λ member. IsTrue S.tells → length (S.image s.old) ≡ len → IsWindowOn (S.image s.old) window.old → at % 4 ≡ 0 → data_start (S.form s.old) ≤ at
        → MemberAt (S.form s.old) (S.image s.old) at member)) }
    ensures among { IfOk result (λ found. IfSome found (λ member. IsAmong (S.form s.old).chains member.list)) }
    ensures fits { IfOk result (λ found. IfSome found (λ member. at + 24 + member.found.header.rec_len ≤ len)) }
    ensures shows { OnOk result (IsTrue S.tells → IsWindowOn (S.image s.old) window.old → IsWindowOn (S.image s.old) window.new) }
    ensures from { IfOk result (λ found. IfSome found (λ member. window.new.from ≤ at + 20 + member.found.header.rec_len)) }
    ensures reach { OnOk result ((reach_of window.old ≤ reach_of window.new) × (reach_of window.new ≤ len)) }
    ensures looked { Looked S.Space s.old s.new }
    ensures cause { HasCause (S.faults s.old) (S.faults s.new) result }
    ensures bytes_read { OnOk result (RoseUpTo (reach_of window.new - reach_of window.old) (S.bytes_read s.old) (S.bytes_read s.new)) }
    ensures bytes_in_all { RoseUpTo (len - reach_of window.old) (S.bytes_read s.old) (S.bytes_read s.new) }
{
    let filing = Filing {
        order: s.order(),
        hash: s.hash(),
        chains: s.hash_size(),
    };
    if !window.holds_key(at as u64, filing.order) {
        window.move_to(s, len, at as u64)?;
    }
    let Some(member) = member_in(window.bytes_from(at as u64), at, len, filing) else {
        return Ok(None);
    };
    let rec_len = member.found.header.rec_len as u64;
    let tailer = window.word(s, len, at as u64 + 20 + rec_len)?;
    if tailer as u64 != 24 + rec_len {
        return Ok(None);
    }
    Ok(Some(member))
}
