// The lines of all tables, and what else is told of runs.

use crate::tables::first_failure;
use crate::{
    backup, changes, create, faults, generate, growths, inserts, limits, lines, logs, long, mends,
    merges, moves, options, pipes, printing, rescues, rewrites, sessions, summaries, turns, undo,
    verify,
};

// In parts: a list of all tables is more than the prover computes in one step.
#[test]
fn lines_that_change_a_file(rt: HostRuntime) {
    for (file, tables) in [
        ("changes", changes::TABLES.as_slice()),
        ("create", create::TABLES.as_slice()),
        ("generate", generate::TABLES.as_slice()),
        ("inserts", inserts::TABLES.as_slice()),
        ("limits", limits::TABLES.as_slice()),
        ("lines", lines::TABLES.as_slice()),
        ("options", options::TABLES.as_slice()),
        ("printing", printing::TABLES.as_slice()),
        ("sessions", sessions::TABLES.as_slice()),
        ("turns", turns::TABLES.as_slice()),
    ] {
        assert_eq!(rt; first_failure(rt.alloc(), tables), Ok(None), "{file}");
    }
}

#[test]
fn lines_that_copy_and_look(rt: HostRuntime) {
    for (file, tables) in [
        ("backup", backup::TABLES.as_slice()),
        ("merges", merges::TABLES.as_slice()),
        ("moves", moves::TABLES.as_slice()),
        ("rescues", rescues::TABLES.as_slice()),
        ("rewrites", rewrites::TABLES.as_slice()),
        ("summaries", summaries::TABLES.as_slice()),
        ("undo", undo::TABLES.as_slice()),
        ("verify", verify::TABLES.as_slice()),
    ] {
        assert_eq!(rt; first_failure(rt.alloc(), tables), Ok(None), "{file}");
    }
}

#[test]
fn lines_that_mend(rt: HostRuntime) {
    for (file, tables) in [
        ("sound and left", mends::TABLES.as_slice()),
        ("behind mutexes", mends::BEHIND_MUTEXES.as_slice()),
        ("refused", mends::REFUSED.as_slice()),
    ] {
        assert_eq!(rt; first_failure(rt.alloc(), tables), Ok(None), "{file}");
    }
}

#[test]
fn runs_beside_the_tables(rt: HostRuntime) {
    let alloc = rt.alloc();
    for (table, failing) in [
        ("loads", generate::failing_load(alloc)),
        ("checks", lines::failing_check(alloc)),
        ("logs", logs::failing_row(alloc, &logs::LOGGED)),
        ("growths", logs::failing_row(alloc, &growths::LOGGED)),
        (
            "loads with logs",
            logs::failing_row(alloc, &generate::LOGGED),
        ),
        ("looks at damaged files", mends::failing_look(alloc)),
        ("summaries", summaries::failing_growth(alloc)),
        ("calls that fail in a commit", turns::failing_call(alloc)),
        ("a pipe that is held open", pipes::failing_session(alloc)),
        ("damaged undo areas", undo::failing_damage(alloc)),
    ] {
        assert_eq!(rt; failing, Ok(None), "{table}");
    }
}

#[test]
fn calls_that_fail_in_a_command(rt: HostRuntime) {
    assert_eq!(rt; faults::failing_row(rt.alloc()), Ok(None));
}

// Apart from the others, since a line of sixteen megabytes takes `rt try` longer than all of these.
#[test]
fn long_words_and_lines(rt: HostRuntime) {
    assert_eq!(rt; long::failing_run(rt.alloc()), Ok(None));
}
