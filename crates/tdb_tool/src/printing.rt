// Text of a session that is held, so that a list is written in few calls.

ghost use Rattle.std.specs.Prelude.{◌≡◌, ◌≢◌, ◌++◌, [], IsTrue, IfErr, OnOk, OnErr, if◌then◌else◌};
ghost use Rattle.tdb_disk.specs.Count.{HasCause, HasCauseOf};
ghost use Rattle.tdb_backup.specs.Dump.{WroteFront};
ghost use Rattle.tdb_tool.specs.declared.fault.SessionFault.TheVariants as FaultIs;
ghost use Rattle.tdb_tool.specs.Serving.{fault_of, is_broken, HeldBehind, EndsPrinted};

use crate::fault::SessionFault;
use tdb_disk::{Sink, SinkFault};

/// Fewer bytes of text than these are held.
const PIECE: usize = 65536;

/// Writes a text in one call, if there is any, and empties it.
fn flush<K: Sink>(output: &mut K, text: &mut Vec<u8>) -> Result<(), SinkFault>
    ensures whole { OnOk result (IsTrue K.tells → K.written output.new ≡ K.written output.old ++ text.old.items) }
    ensures emptied { OnOk result (text.new.items ≡ []) }
    ensures front { OnErr result (IsTrue K.tells → WroteFront (K.written output.old) text.old.items (K.written output.new)) }
    ensures cause { HasCause (K.faults output.old) (K.faults output.new) result }
{
    if text.is_empty() {
        return Ok(());
    }
    output.write(text)?;
    text.clear();
    Ok(())
}

/// Writes a text that is held, and one behind it, and empties them.
fn flush_both<K: Sink>(
    output: &mut K,
    held: &mut Vec<u8>,
    text: &mut Vec<u8>,
) -> Result<(), SinkFault>
    ensures whole { OnOk result (IsTrue K.tells → K.written output.new ≡ K.written output.old ++ (held.old.items ++ text.old.items)) }
    ensures emptied { OnOk result (held.new.items ≡ []) }
    ensures front { OnErr result (IsTrue K.tells → WroteFront (K.written output.old) (held.old.items ++ text.old.items) (K.written output.new)) }
    ensures cause { HasCause (K.faults output.old) (K.faults output.new) result }
{
    flush(output, held)?;
    flush(output, text)
}

/// Puts a text behind the one that is held, where both are less than a piece and there is memory for it. Tells whether
/// it did.
fn append_short(held: &mut Vec<u8>, text: &[u8]) -> bool
    ensures { held.new.items ≡ (if result then held.old.items ++ text.now else held.old.items) }
{
    if text.len() >= PIECE.saturating_sub(held.len()) {
        return false;
    }
    held.extend_from_slice(text).is_ok()
}

/// Holds a text behind the one that is held, where both are less than a piece and there is memory for it; else both are
/// written.
pub(crate) fn hold<K: Sink>(
    output: &mut K,
    held: &mut Vec<u8>,
    text: &mut Vec<u8>,
) -> Result<(), SinkFault>
    ensures held { OnOk result (IsTrue K.tells → HeldBehind (K.written output.old) (held.old.items ++ text.old.items) (K.written output.new) held.new.items) }
    ensures front { OnErr result (IsTrue K.tells → WroteFront (K.written output.old) (held.old.items ++ text.old.items) (K.written output.new)) }
    ensures cause { HasCause (K.faults output.old) (K.faults output.new) result }
{
    if append_short(held, text) {
        return Ok(());
    }
    flush_both(output, held, text)
}

/// Whether plays broke off since the disk failed.
fn is_broken(plays: &Result<(), SessionFault>) -> bool
    ensures { result ≡ is_broken (fault_of plays.now) }
{
    match plays {
        Err(SessionFault::Device) => true,
        _ => false,
    }
}

/// Ends a part of a session whose plays left these texts, and broke off so, if they did: writes the texts. A write that
/// fails is answered in the place of why they broke off. So nothing is written where the disk failed, of which is told
/// in any case.
pub(crate) fn end_part<K: Sink>(
    output: &mut K,
    held: &mut Vec<u8>,
    text: &mut Vec<u8>,
    plays: Result<(), SessionFault>,
) -> Result<(), SessionFault>
    requires taken { IfErr plays (λ e. (e ≢ FaultIs.Input) × (e ≢ FaultIs.Output)) }
    ensures ended { EndsPrinted K.tells (fault_of plays) (K.written output.old) (held.old.items ++ text.old.items) (K.written output.new) (fault_of result) }
    ensures fault { IfErr result (λ e. e ≢ FaultIs.Input) }
    ensures cause { HasCauseOf FaultIs.Output (K.faults output.old) (K.faults output.new) result }
{
    if is_broken(&plays) {
        return plays;
    }
    flush_both(output, held, text)?;
    plays
}
