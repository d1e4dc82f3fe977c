// The laws of the file's map: at the beginning, between turns, and where nothing is unfinished.

ghost use Rattle.tdb_law.specs.Laws.{BeginningStands, FileIsPlain, QuietIsPlain, NumberIsPlain};

/// A world just loaded is sound, and the replay that begins with its map stands for it. The law is over all worlds;
/// the function does nothing.
pub fn beginning_stands()
    ensures law { BeginningStands }
{}

/// In a sound world for which a replay stands, the file's map at a key whose chain nobody holds for writing is the
/// replay's, and the file's sequence number is the replay's but for a commit that has shut its gate. The law is
/// over all worlds; the function does nothing.
pub fn file_is_plain()
    ensures map { FileIsPlain }
    ensures number { NumberIsPlain }
{}

/// In a sound world in which no command on the map is unfinished the file's map is the replay's, or that of the
/// image of a Commit that has shut its gate. The law is over all worlds; the function does nothing.
pub fn quiet_is_plain()
    ensures law { QuietIsPlain }
{}
