// The laws that lift what an opener does to the world.

ghost use Rattle.tdb_openers.specs.Aside.{ImageKeepsWorld, ImageKeepsFile, LockKeepsFile};
ghost use Rattle.tdb_openers.specs.Aside.{LowIsFree, OthersWriteNone, RecordsAreFree};
ghost use Rattle.tdb_openers.specs.Laws.{EmptyFileStands, EmptyIsLoaded, EmptyStands};
ghost use Rattle.tdb_openers.specs.Laws.{JoinJoins, JoinKeepsFile, JoinKeepsWorld};
ghost use Rattle.tdb_openers.specs.Laws.{GiftIsGiven, GiftKeepsFile, GiftKeepsWorld};
ghost use Rattle.tdb_openers.specs.Laws.{CursorsAreBeside, ImageIsReady, KeysAreCounted, OpenerIsReady};
ghost use Rattle.tdb_openers.specs.Laws.{TurnIsTurned, TurnKeepsFile, TurnKeepsWorld};
ghost use Rattle.tdb_openers.specs.Laws.{WalkIsTurned, WalkKeepsFile, WalkKeepsWorld};
ghost use Rattle.tdb_openers.specs.Played.{BrokenIsLawful};

/// A world without openers stands, and so do the bytes of an accepted image; in the words of the law of reports it
/// is just loaded. The law is over all images; the function does nothing.
pub fn empty_stands()
    ensures world { EmptyStands }
    ensures file { EmptyFileStands }
    ensures loaded { EmptyIsLoaded }
{}

/// An opener that joins behind the others, with nothing yet, where there is room, leaves a world that stands and bytes
/// that do, and joins in the words of the law of reports. The law is over all worlds; the function does nothing.
pub fn join_stands()
    ensures world { JoinKeepsWorld }
    ensures file { JoinKeepsFile }
    ensures joins { JoinJoins }
{}

/// A command that is given to a live opener without one, whose job stands at its beginning, leaves a world that
/// stands and bytes that do, and is given in the words of the law of reports. The law is over all worlds; the
/// function does nothing.
pub fn gift_stands()
    ensures world { GiftKeepsWorld }
    ensures file { GiftKeepsFile }
    ensures given { GiftIsGiven }
{}

/// Before each turn the opener holds what its task has locked and what it keeps, and no other's locks conflict with
/// that. The law is over all worlds; the function does nothing.
pub fn opener_is_ready()
    ensures law { OpenerIsReady }
{}

/// Before each turn the image is accepted with the record that the opener's command holds and with those of all
/// others; none of these is out where a wipe or a check has locked the free list; and the command knows its chain.
/// The law is over all worlds; the function does nothing.
pub fn image_is_ready()
    ensures law { ImageIsReady }
{}

/// Before each turn each record on which a cursor stands is one of a chain; no delete is going to take it out, and
/// beside a wipe that has locked all records there is none. The law is over all worlds; the function does nothing.
pub fn cursors_are_beside()
    ensures law { CursorsAreBeside }
{}

/// A world stands over any bytes of its file, which may be longer. Where no opener's command has locked a record, and
/// no cursor stands on one, the bytes of any accepted image stand: so they do while an opener that has nothing else
/// holds all records for writing. The law is over all worlds and images; the function does nothing.
pub fn image_is_replaced()
    ensures world { ImageKeepsWorld }
    ensures file { ImageKeepsFile }
    ensures locked { LockKeepsFile }
{}

/// While an opener that has nothing else holds all records, for reading or for writing, no other opener holds a
/// record's byte for writing, and no command holds a record that is in no list: the image is accepted as it is. The law
/// is over all worlds; the function does nothing.
pub fn records_are_free()
    ensures write { OthersWriteNone }
    ensures accepted { RecordsAreFree }
{}

/// Between two turns no opener holds a lock byte below that of the free list: not those of the opening lock and of the
/// transaction lock, nor that of the sequence number. The law is over all worlds; the function does nothing.
pub fn low_is_free()
    ensures law { LowIsFree }
{}

/// A turn that does to the lock table what its row allows leaves a world that stands, whatever the bytes of the file
/// are. The law is over all worlds and turns; the function does nothing.
pub fn turn_keeps_world()
    ensures law { TurnKeepsWorld }
{}

/// A turn that also does to the file what it may leaves bytes that stand: they are accepted with the records of all
/// commands, each command still knows its chain, and each cursor its record. The law is over all worlds and turns; the
/// function does nothing.
pub fn turn_keeps_file()
    ensures law { TurnKeepsFile }
{}

/// After a turn of a command on its opener's cursor the world stands, whatever the bytes of the file are. The law is
/// over all worlds and turns; the function does nothing.
pub fn walk_keeps_world()
    ensures law { WalkKeepsWorld }
{}

/// And where the bytes of the file are told, they stand: no cursor stands on a record that another is going to purge.
/// The law is over all worlds and turns; the function does nothing.
pub fn walk_keeps_file()
    ensures law { WalkKeepsFile }
{}

/// And it is a turn of the law of reports. The law is over all worlds and turns; the function does nothing.
pub fn walk_is_turned()
    ensures law { WalkIsTurned }
{}

/// A turn on no cursor that does to the lock table and to the file what it may is a turn of the law of reports. The law
/// is over all worlds and turns; the function does nothing.
pub fn turn_is_turned()
    ensures law { TurnIsTurned }
{}

/// The map of an accepted image has as many keys as the image has pairs, which a check counts. The law is over all
/// images; the function does nothing.
pub fn keys_are_counted()
    ensures law { KeysAreCounted }
{}

/// The lines of plays from a state just loaded that broke off are lawful, as far as the plays came. The law is over all
/// plays and states; the function does nothing.
pub fn broken_is_lawful()
    ensures law { BrokenIsLawful }
{}
