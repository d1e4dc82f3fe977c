//! The law of reports of a world.
ghost use Rattle.tdb_world.specs.Courses.Changes.{StepsTellChanges};
ghost use Rattle.tdb_world.specs.Courses.Laws.{ReportIsLawful, EndedFileOpens, EndsAlike, ReadOnlyFilesStay};
ghost use Rattle.tdb_world.specs.Courses.Prepared.{PreparedCommitsEnd};

/// The report of plays from a world just loaded is lawful, with the lines of the commands behind it that aren't done;
/// and what isn't done in a world isn't done in each of its states. The laws are over all worlds and plays; the
/// function does nothing.
pub fn report_is_lawful()
    ensures report { ReportIsLawful }
    ensures ends { EndsAlike }
{}

/// Where no command is unfinished the file of a world can be opened, whatever has been done to it. The law is over all
/// worlds and histories; the function does nothing.
pub fn ended_files_open()
    ensures law { EndedFileOpens }
{}

/// A report without a step of a change or of a command on a cursor changes nothing outside a transaction. The law is
/// over all worlds and reports; the function does nothing.
pub fn steps_tell_changes()
    ensures law { StepsTellChanges }
{}

/// A Commit of a prepared transaction ends, whatever others do between its turns: the report tells of its opener the
/// steps that are left, three at most, and then that the Commit is done. It tells no block, no refusal and no want of
/// memory or room, and where it breaks off or the opener dies before, only steps. The law is over all reports of a
/// world from its beginning on; the function does nothing.
pub fn prepared_commits_end()
    ensures law { PreparedCommitsEnd }
{}

/// Where a world is loaded over a file that is read-only, whatever is played in it leaves the file as it is. The law is
/// over all chains of calls that lines tell; the function does nothing.
pub fn read_only_files_stay()
    ensures law { ReadOnlyFilesStay }
{}
