// A new record: how long it is, what its header says, and its bytes.

ghost use Rattle.std.specs.Prelude.{◌≡◌, ◌+◌, ◌^◌, ◌<◌, ◌≤◌, length, IfOk};
ghost use Rattle.tdb_space.specs.NewRecord.{rec_len_for, record_bytes};

use std::alloc::{AllocError, Global};
use tdb_words::{Order, PADDING, Rec, rec_bytes, word_bytes};

/// The `rec_len` of a new record, in bytes, from the lengths of its key and of its value: room for both, a quarter as
/// much again to grow, and the tailer, in whole words.
pub fn rec_len_for(key_len: u64, value_len: u64) -> u64
    requires key { key_len < 2 ^ 62 }
    requires value { value_len < 2 ^ 62 }
    ensures { result ≡ rec_len_for key_len value_len }
{
    let sum = key_len + value_len;
    (sum + sum / 4 + 4).div_ceil(4) * 4
}

/// Fills the room of a record: its header, the key, the value, padding, and the tailer.
pub fn fill_record(room: &mut [u8], rec: &Rec, order: Order, key: &[u8], value: &[u8])
    requires room { length room.old ≡ 24 + rec.now.rec_len }
    requires fits { length key.now + length value.now + 4 ≤ rec.now.rec_len }
    requires short { 24 + rec.now.rec_len < 2 ^ 32 }
    ensures { room.new ≡ record_bytes order rec.now key.now value.now }
{
    let len = room.len();
    let (header, rest) = room.split_at_mut(24);
    header.copy_from_slice(&rec_bytes(rec, order));
    let (key_room, rest) = rest.split_at_mut(key.len());
    key_room.copy_from_slice(key);
    let (value_room, rest) = rest.split_at_mut(value.len());
    value_room.copy_from_slice(value);
    let (padding, tailer) = rest.split_at_mut(rest.len() - 4);
    padding.fill(PADDING);
    tailer.copy_from_slice(&word_bytes(len as u32, order));
}

/// The bytes of a record: what isn't its header, its key, its value or its tailer is padding.
pub fn record_bytes(
    alloc: Global,
    rec: &Rec,
    order: Order,
    key: &[u8],
    value: &[u8],
) -> Result<Vec<u8>, AllocError>
    requires fits { length key.now + length value.now + 4 ≤ rec.now.rec_len }
    requires short { 24 + rec.now.rec_len < 2 ^ 32 }
    ensures { IfOk result (λ bytes. bytes.items ≡ record_bytes order rec.now key.now value.now) }
{
    let mut bytes = vec![in alloc; 0; 24 + rec.rec_len as usize]?;
    fill_record(&mut bytes, rec, order, key, value);
    Ok(bytes)
}
