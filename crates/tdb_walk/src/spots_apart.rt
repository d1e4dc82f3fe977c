// The laws by which cursors keep off records that are taken out of their chains.

ghost use Rattle.tdb_walk.specs.Apart.{CursorComesApart, PurgerHolds};

/// Nobody comes to a record that is being taken out of its chain: by `apart` a cursor comes to no record of a chain
/// that another opener has locked for writing, and by `purger` who is going to purge a record has its chain locked so.
/// The law is over all turns; the function does nothing.
pub fn cursors_keep_apart()
    ensures apart { CursorComesApart }
    ensures purger { PurgerHolds }
{}
