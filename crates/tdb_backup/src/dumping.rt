// The listing of a file: its dump, or its keys.

ghost use Rattle.std.specs.Prelude.{◌≡◌, ◌≤◌, ◌<◌, [], ◌∷◌, ◌++◌, ℕ, List, length, take, IsTrue, IfOk, OnOk, OnErr, MatchBool};
ghost use Rattle.tdb_disk.specs.Count.{HasCause, HasCauseOf, RoseUpTo};
ghost use Rattle.tdb_space.specs.Frame.{Looked};
ghost use Rattle.tdb_space.specs.Pairs.{order_of};
ghost use Rattle.tdb_space.specs.Extents.{HandPair};
ghost use Rattle.tdb_space.specs.Accepted.{AcceptWith};
ghost use Rattle.tdb_backup.specs.Traversal.{Gave, pair_at_hand, most_left};
ghost use Rattle.tdb_backup.specs.Reads.{ReadsAlong, ahead_reads, pairs_reads};
ghost use Rattle.tdb_backup.specs.Dump.{text_of, listing_of, HandedOn, WroteFront, WroteNext};
ghost use Rattle.tdb_backup.specs.declared.refusal.DumpRefusal.TheVariants.{Io, Failed};

use crate::refusal::DumpRefusal;
use crate::traversal::Traversal;
use std::alloc::Global;
use tdb_disk::{Sink, SinkFault};
use tdb_dump::Listing;
use tdb_space::Space;

/// How many bytes of text are written at once, or more.
const PIECE: usize = 65536;

/// Writes the text where it has at least so many bytes, and empties it then.
fn hand_on<K: Sink>(out: &mut K, text: &mut Vec<u8>, least: usize) -> Result<(), SinkFault>
    ensures done { OnOk result (IsTrue K.tells → HandedOn (K.written out.old) text.old.items (K.written out.new) text.new.items) }
    ensures left { OnOk result (0 < least → length text.new.items < least) }
    ensures failed { OnErr result (IsTrue K.tells → WroteFront (K.written out.old) text.old.items (K.written out.new)) }
    ensures cause { HasCause (K.faults out.old) (K.faults out.new) result }
{
    if text.len() < least {
        return Ok(());
    }
    out.write(text)?;
    text.clear();
    Ok(())
}

/// Lists the next pair of a walk, if there is one: puts its text behind what is held, and writes that where it has 64
/// KiB at least. So between two pairs fewer than 64 KiB are held.
///
/// Where it is refused, some of what was held is written, from its beginning on.
pub fn list_next<S: Space, K: Sink>(
    traversal: &mut Traversal,
    s: &mut S,
    listing: Listing,
    text: &mut Vec<u8>,
    out: &mut K,
) -> Result<bool, DumpRefusal>
    ensures few_held { IfOk result (λ more. IsTrue more → length text.new.items < 65536) }
    ensures listed { IfOk result (λ more. IsTrue S.tells → IsTrue K.tells → (hands : List HandPair) → AcceptWith (S.form s.old) (S.image s.old) hands
        → (given : List (List ℕ × List ℕ)) → Gave (S.form s.old) (S.image s.old) given traversal.old
        → MatchBool more (Gave (S.form s.old) (S.image s.old) (given ++ pair_at_hand traversal.new ∷ []) traversal.new
        × HandedOn (K.written out.old) (text.old.items ++ text_of listing (pair_at_hand traversal.new)) (K.written out.new) text.new.items)
        ((order_of (S.form s.old) (S.image s.old) ≡ given) × (K.written out.new ≡ K.written out.old) × (text.new ≡ text.old))) }
    ensures front { OnErr result (IsTrue S.tells → IsTrue K.tells → (hands : List HandPair) → AcceptWith (S.form s.old) (S.image s.old) hands
        → (given : List (List ℕ × List ℕ)) → Gave (S.form s.old) (S.image s.old) given traversal.old
        → WroteNext listing (order_of (S.form s.old) (S.image s.old)) given (K.written out.old) text.old.items (K.written out.new)) }
    ensures fewer { IfOk result (λ more. IsTrue more → most_left (S.form s.old).chains (S.size s.old) traversal.new < most_left (S.form s.old).chains (S.size s.old) traversal.old) }
    ensures looked { Looked S.Space s.old s.new }
    ensures cause { HasCauseOf Io (S.faults s.old) (S.faults s.new) result }
    ensures sink_cause { HasCauseOf Failed (K.faults out.old) (K.faults out.new) result }
    ensures bytes_read { S.bytes_read s.old ≤ S.bytes_read s.new }
    ensures reads { IfOk result (λ more. IsTrue S.tells → IsTrue more → ReadsAlong (S.form s.old) (S.image s.old) traversal.old traversal.new (S.bytes_read s.old) (S.bytes_read s.new)) }
    ensures reads_at_most { IsTrue S.tells → RoseUpTo (ahead_reads (S.form s.old) (S.image s.old) traversal.old) (S.bytes_read s.old) (S.bytes_read s.new) }
{
    if !traversal.advance(s)? {
        return Ok(false);
    }
    listing.push(text, traversal.key(), traversal.value())?;
    hand_on(out, text, PIECE)?;
    Ok(true)
}

/// Lists all pairs of a file: chain 0 first, each chain from its head on. What is written of a file that isn't accepted
/// is the listing of the pairs that a `Traversal` gives.
///
/// It holds one pair, and text that it writes in pieces of at least 64 KiB. Time is linear in the length of the file
/// and of the text. Where it is refused some of the text was written, from its beginning on: `Io` where the disk
/// failed, `Failed` where the sink did, and `Memory` where that is wanting for the pair or the text.
pub fn write_pairs<S: Space, K: Sink>(
    alloc: Global,
    s: &mut S,
    listing: Listing,
    out: &mut K,
) -> Result<(), DumpRefusal>
    ensures written { OnOk result (IsTrue S.tells → IsTrue K.tells → (hands : List HandPair) → AcceptWith (S.form s.old) (S.image s.old) hands
        → K.written out.new ≡ K.written out.old ++ listing_of listing (S.form s.old) (S.image s.old)) }
    ensures front { OnErr result (IsTrue S.tells → IsTrue K.tells → (hands : List HandPair) → AcceptWith (S.form s.old) (S.image s.old) hands
        → WroteFront (K.written out.old) (listing_of listing (S.form s.old) (S.image s.old)) (K.written out.new)) }
    ensures looked { Looked S.Space s.old s.new }
    ensures cause { HasCauseOf Io (S.faults s.old) (S.faults s.new) result }
    ensures sink_cause { HasCauseOf Failed (K.faults out.old) (K.faults out.new) result }
    ensures bytes_read { S.bytes_read s.old ≤ S.bytes_read s.new }
    ensures reads { IsTrue S.tells → RoseUpTo (pairs_reads (S.form s.old) (S.image s.old)) (S.bytes_read s.old) (S.bytes_read s.new) }
{
    let mut traversal = Traversal::new(alloc);
    let mut text = Vec::new(alloc);
    while list_next(&mut traversal, s, listing, &mut text, out)? {}
    hand_on(out, &mut text, 1)?;
    Ok(())
}
