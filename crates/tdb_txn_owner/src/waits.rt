//! When a turn of the opener aside is blocked.
ghost use Rattle.tdb_txn_owner.specs.Waits.{AloneGoes, BlockIsOwn};

/// A turn that the first conflict with others' locks blocks is a turn of the law for the opener aside; and in a lock
/// table in which it is alone no turn of a Start, a Commit or a Prepare is blocked. The laws are over all openers and
/// lock tables; the function does nothing.
pub fn blocks_are_own()
    ensures blocked { BlockIsOwn }
    ensures alone { AloneGoes }
{}
