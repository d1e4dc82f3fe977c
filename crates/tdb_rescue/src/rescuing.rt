// All pairs that can be read are written, in the order in which they stand.

ghost use Rattle.std.specs.Prelude.{◌≡◌, ◌≢◌, ◌≤◌, ◌<◌, ◌+◌, ◌^◌, ◌++◌, length, IsTrue, IfOk, IfErr, OnOk, OnErr, MatchBool};
ghost use Rattle.tdb_disk.specs.Count.{HasCause, HasCauseOf};
ghost use Rattle.tdb_words.specs.Record.{rec_at};
ghost use Rattle.tdb_dump.specs.DumpText.{pair_text};
ghost use Rattle.tdb_space.specs.Frame.{Looked};
ghost use Rattle.tdb_space.specs.Record.{key_at, data_at};
ghost use Rattle.tdb_rescue.specs.Window.{Shows};
ghost use Rattle.tdb_rescue.specs.Rescued.{is_readable, rescued};
ghost use Rattle.tdb_rescue.specs.Text.{rescued_text, HandedOn, WroteFront};
ghost use Rattle.tdb_rescue.specs.declared.refusal.RescueRefusal.TheVariants.{Io, OutFailed};

use crate::readable::readable_at;
use crate::refusal::RescueRefusal;
use crate::window::Window;
use std::alloc::Global;
use tdb_disk::{Sink, SinkFault};
use tdb_dump::push_pair;
use tdb_space::{Space, data_start};
use tdb_words::Rec;

/// How many bytes of text are written at once, or more.
const PIECE: usize = 65_536;

/// How many bytes a record has at least: its header and its tailer.
const LEAST: u64 = 28;

/// Writes the text where it has at least so many bytes, and empties it then.
fn hand_on<K: Sink>(out: &mut K, text: &mut Vec<u8>, least: usize) -> Result<(), SinkFault>
    ensures done { OnOk result (IsTrue K.tells → HandedOn (K.written out.old) text.old.items (K.written out.new) text.new.items) }
    ensures left { OnOk result (0 < least → length text.new.items < least) }
    ensures failed { OnErr result (IsTrue K.tells → WroteFront (K.written out.old) text.old.items (K.written out.new)) }
    ensures cause { HasCause (K.faults out.old) (K.faults out.new) result }
{
    if text.len() < least {
        return Ok(());
    }
    out.write(text)?;
    text.clear();
    Ok(())
}

/// Puts the text of the pair of a record at the end. The room is for the bytes of the pair.
fn push_text<S: Space>(
    s: &mut S,
    window: &Window,
    at: u64,
    rec: &Rec,
    room: &mut Vec<u8>,
    text: &mut Vec<u8>,
) -> Result<(), RescueRefusal>
    requires within { at + 24 + rec.now.key_len + rec.now.data_len ≤ S.size s.old }
    requires small { at + 24 < 2 ^ 64 }
    ensures text { OnOk result (IsTrue S.tells → Shows (S.image s.old) window.now → rec.now ≡ rec_at (S.form s.old).order (S.image s.old) at
        → text.new.items ≡ text.old.items ++ pair_text (key_at (S.form s.old).order (S.image s.old) at) (data_at (S.form s.old).order (S.image s.old) at)) }
    ensures looked { Looked S.Space s.old s.new }
    ensures cause { HasCauseOf Io (S.faults s.old) (S.faults s.new) result }
    ensures unwritten { IfErr result (λ e. e ≢ OutFailed) }
    ensures bytes_read { S.bytes_read s.old ≤ S.bytes_read s.new }
{
    let key_len = rec.key_len as usize;
    room.resize(key_len + rec.data_len as usize, 0)?;
    window.read(s, at + 24, room)?;
    push_pair(text, &room[..key_len], &room[key_len..])?;
    Ok(())
}

/// Puts the text of the pair at a place of a file of `len` bytes at the end, and says whether one can be read there.
fn push_readable<S: Space>(
    s: &mut S,
    window: &mut Window,
    len: u64,
    at: u64,
    room: &mut Vec<u8>,
    text: &mut Vec<u8>,
) -> Result<bool, RescueRefusal>
    requires length { len ≡ S.size s.old }
    requires within { at + 24 ≤ len }
    ensures readable { IfOk result (λ found. IsTrue S.tells → Shows (S.image s.old) window.old → found ≡ is_readable (S.form s.old) (S.image s.old) at) }
    ensures text { IfOk result (λ found. IsTrue S.tells → Shows (S.image s.old) window.old → MatchBool found
        (text.new.items ≡ text.old.items ++ pair_text (key_at (S.form s.old).order (S.image s.old) at) (data_at (S.form s.old).order (S.image s.old) at))
        (text.new.items ≡ text.old.items)) }
    ensures shows { OnOk result (IsTrue S.tells → Shows (S.image s.old) window.old → Shows (S.image s.old) window.new) }
    ensures looked { Looked S.Space s.old s.new }
    ensures cause { HasCauseOf Io (S.faults s.old) (S.faults s.new) result }
    ensures unwritten { IfErr result (λ e. e ≢ OutFailed) }
    ensures bytes_read { S.bytes_read s.old ≤ S.bytes_read s.new }
{
    window.go_to(s, len, at)?;
    let Some(rec) = readable_at(s, window, len, at)? else {
        return Ok(false);
    };
    push_text(s, window, at, &rec, room, text)?;
    Ok(true)
}

/// Writes the dump text of each pair that can still be read in a file, in order of place, and answers their number.
///
/// A pair can be read at a multiple of 4 from the start of the data on where a used record stands whole, has room for
/// its key and its value, and has the hash of its key (`rescued`). No list is followed, and no other byte of the file
/// is looked at: the undo area's gate may be open. A pair that was deleted may be among them, and a key more than once.
///
/// `Io` where a read of the file failed, `OutFailed` where a write to the sink did, and `Memory` where that is wanting.
/// Then a front of the text was written. The file isn't changed.
///
/// It goes over the file once from its front, in reads of 64 KiB, and holds one pair, its text, and at most 64 KiB of
/// the text before it. A record that passes the end of what was read is read by itself: its key and its tailer where
/// the header fits, and the pair where it's to be written. Time and text are linear in the length of the file where no
/// two records overlap. Each place is tested by itself, so in the worst case, where each of n records stands in the
/// key or the value of the one before it, each is hashed or written whole. Time and text are quadratic in the length
/// then: up to an eighth of its square in bytes are hashed, and as many written, each as up to three bytes of text.
pub fn rescue<S: Space, K: Sink>(
    alloc: Global,
    s: &mut S,
    out: &mut K,
) -> Result<u64, RescueRefusal>
    ensures written { OnOk result (IsTrue S.tells → IsTrue K.tells
        → K.written out.new ≡ K.written out.old ++ rescued_text (S.form s.old) (S.image s.old)) }
    ensures number { IfOk result (λ n. IsTrue S.tells → n ≡ length (rescued (S.form s.old) (S.image s.old))) }
    ensures front { OnErr result (IsTrue S.tells → IsTrue K.tells
        → WroteFront (K.written out.old) (rescued_text (S.form s.old) (S.image s.old)) (K.written out.new)) }
    ensures looked { Looked S.Space s.old s.new }
    ensures cause { HasCauseOf Io (S.faults s.old) (S.faults s.new) result }
    ensures sink_cause { HasCauseOf OutFailed (K.faults out.old) (K.faults out.new) result }
    ensures bytes_read { S.bytes_read s.old ≤ S.bytes_read s.new }
{
    let len = s.len()?;
    let mut at = data_start(s.hash_size());
    let mut window = Window::new(alloc);
    let mut room = Vec::new(alloc);
    let mut text = Vec::new(alloc);
    let mut count = 0;
    while len.saturating_sub(at) >= LEAST {
        let found = push_readable(s, &mut window, len, at, &mut room, &mut text)?;
        hand_on(out, &mut text, PIECE)?;
        count += found as u64;
        at += 4;
    }
    hand_on(out, &mut text, 1)?;
    Ok(count)
}
