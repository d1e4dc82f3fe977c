//! Dump text, as it is written.

ghost use Rattle.std.specs.Prelude.{◌≡◌, ◌≤◌, ℕ, ◌++◌, length, take, IsTrue, IfOk, OnOk, OnErr, IsErrOf};
ghost use Rattle.tdb_disk.specs.Count.{HasCauseOf};
ghost use Rattle.tdb_dump.specs.DumpText.{pair_text};

use crate::lines::push_behind;
use std::alloc::{AllocError, Global};
use tdb_disk::Sink;
use thiserror::Error;

/// Why a pair wasn't written.
#[derive(Clone, Copy, Debug, PartialEq, Eq, Error)]
pub enum WriteRefusal {
    /// The sink failed.
    #[error("sink fault")]
    Failed,
    #[error("out of memory")]
    Memory,
}

/// Puts the text of one pair at the end.
pub fn push_pair(text: &mut Vec<u8>, key: &[u8], value: &[u8]) -> Result<(), AllocError>
    ensures { OnOk result (text.new.items ≡ text.old.items ++ pair_text key.now value.now) }
{
    push_behind(text, b"{\nkey(", key)?;
    push_behind(text, b"\"\ndata(", value)?;
    text.extend_from_slice(b"\"\n}\n")
}

/// The text of one pair.
fn text_of(alloc: Global, key: &[u8], value: &[u8]) -> Result<Vec<u8>, AllocError>
    ensures { IfOk result (λ text. text.items ≡ pair_text key.now value.now) }
{
    let room = key.len().saturating_add(value.len()).saturating_add(64);
    let mut text = Vec::with_capacity(alloc, room)?;
    push_pair(&mut text, key, value)?;
    Ok(text)
}

/// Writes the text of one pair in one call. Where the sink fails a front of the text was written, and
/// where memory is wanting nothing was. It takes memory for the text, at most four bytes for each byte
/// of key and value.
pub fn write_pair<K: Sink>(
    alloc: Global,
    out: &mut K,
    key: &[u8],
    value: &[u8],
) -> Result<(), WriteRefusal>
    ensures ok { OnOk result (IsTrue K.tells →
        K.written out.new ≡ K.written out.old ++ pair_text key.now value.now) }
    ensures err { OnErr result (IsTrue K.tells →
        (n : ℕ) × (n ≤ length (pair_text key.now value.now))
        × (K.written out.new ≡ K.written out.old ++ take n (pair_text key.now value.now))) }
    ensures cause { HasCauseOf WriteRefusal.Failed (K.faults out.old) (K.faults out.new) result }
    ensures memory { IsErrOf result WriteRefusal.Memory → out.new ≡ out.old }
{
    let text = match text_of(alloc, key, value) {
        Ok(text) => text,
        Err(_) => return Err(WriteRefusal::Memory),
    };
    match out.write(text.as_slice()) {
        Ok(()) => Ok(()),
        Err(_) => Err(WriteRefusal::Failed),
    }
}
