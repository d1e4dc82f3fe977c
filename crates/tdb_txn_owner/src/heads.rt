//! What the heads of the chains tell while a transaction is committed.
ghost use Rattle.tdb_txn_owner.specs.Heads.{HeadsAreThere, LackedAreOut};

/// While the opener holds all records for writing, the heads of the chains in the file tell of an image: of the file's
/// until the changes are written, and of the transaction's from then on. What that lacks is out of the file then, by
/// the law's word. The laws are over all stages and images; the function does nothing.
pub fn heads_are_there()
    ensures heads { HeadsAreThere }
    ensures out { LackedAreOut }
{}
