// The law of courses, and of the beginning.

ghost use Rattle.tdb_law.specs.Laws.{CourseIsLawful, CommandsEnd};

/// The report of every course of plays is lawful: in a sound world, from each replay that stands for it, the report
/// is lawful, the world at the end is sound, and the replay at its end stands for it. The law is over all courses;
/// the function does nothing.
pub fn course_is_lawful()
    ensures law { CourseIsLawful }
{}

/// A command that isn't blocked is done at the latest at its ninth turn, where it is a Commit, and else at its
/// eighth. The law is over all commands and openers; the function does nothing.
pub fn commands_end()
    ensures law { CommandsEnd }
{}
