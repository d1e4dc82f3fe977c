// The laws of walks over the chains of an image.

ghost use Rattle.tdb_law.specs.Going.{ToNext, ToFirst, PastLast, PastEmpty, StepsJoin, NoneLeft};
ghost use Rattle.tdb_law.specs.Layout.{LinkKeeps, UnlinkKeeps, KillKeeps, WalksShift, AllShift};

/// A record linked in front of a chain, one taken out on which no cursor stands, and one marked dead keep the chain
/// but for its key. The law is over all chains; the function does nothing.
pub fn chains_keep()
    ensures link { LinkKeeps }
    ensures unlink { UnlinkKeeps }
    ensures kill { KillKeeps }
{}

/// Where one chain keeps but for a key and the others stay, every walk shifts; and a walk that stands on no record
/// shifts whatever becomes of the chains. The law is over all chains and places; the function does nothing.
pub fn walks_shift()
    ensures one { WalksShift }
    ensures all { AllShift }
{}

/// The steps of a cursor, to the next record of its chain, to the first of a chain, past the last and past a chain
/// without one, go on as a move does: they never go back, and lose no key but the one that they come to. Past the
/// last chain there is none. The law is over all chains; the function does nothing.
pub fn moves_go()
    ensures next { ToNext }
    ensures first { ToFirst }
    ensures last { PastLast }
    ensures empty { PastEmpty }
    ensures joined { StepsJoin }
    ensures end { NoneLeft }
{}
