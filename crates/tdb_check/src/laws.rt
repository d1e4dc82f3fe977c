// What an accepted file's check reads has to do with the length of the file.

ghost use Rattle.tdb_check.specs.Reads.{ReadsAreLinear};

/// Where no two keys of one chain have one length and one first word of their digests, what a check of an accepted file
/// reads at most is in proportion to the length of the file. The law is over all lists of bytes; the function does
/// nothing.
pub fn reads_law()
    ensures { ReadsAreLinear }
{}
