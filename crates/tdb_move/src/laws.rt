//! That a key which is moved is at each moment in one of the two files.
ghost use Rattle.tdb_move.specs.Keeping.{KeyStays};

/// While two files are prepared and committed of which the first gets a key with its value, and the second loses it, a
/// stop at any moment leaves the key with its value in one of the two. The law is over all groups of two files, and
/// over each of their calls; the function does nothing.
pub fn moved_keys_stay()
    ensures law { KeyStays }
{}
