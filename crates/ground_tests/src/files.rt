//! Tests of the real files: what is made, read, renamed and removed, each refusal, and the streams, over the public
//! calls of `tdb_files`.

mod disks;
mod folder;
mod lock_tables;
mod lost_names;
mod names;
mod pairs;
mod streams;
mod takes;

use crate::rows::failing;

#[test]
fn real_files_are_taken_and_changed(rt: HostRuntime) {
    assert!(rt; folder::make(rt).is_ok() && takes::lay_names(rt).is_ok());
    for (table, failing) in [
        ("takes", failing(rt, &takes::TAKES)),
        ("calls of disks", failing(rt, &disks::CASES)),
        ("changes beneath", failing(rt, &disks::BENEATH)),
        ("locks of taken files", failing(rt, &disks::LOCKED)),
        ("names that are lost", failing(rt, &lost_names::LOST)),
        ("renames", failing(rt, &names::RENAMES)),
        ("removals", failing(rt, &names::REMOVALS)),
        ("tables of locks", failing(rt, &lock_tables::TABLES)),
        ("names of processes", failing(rt, &lock_tables::HOLDERS)),
        ("sinks", failing(rt, &streams::SINKS)),
        ("sources", failing(rt, &streams::SOURCES)),
    ] {
        assert_eq!(rt; failing, None, "{table}");
    }
    assert_eq!(rt; pairs::refuses_second(rt), Some(true));
    assert_eq!(rt; pairs::makes_copy(rt), Some(true));
    assert!(rt; folder::remove(rt).is_ok());
}
