//! Tests of undo areas and recoveries, over the public calls of `tdb_undo`.

mod acts;
mod damages;
mod faults;
mod files;
mod steps;
mod stops;

#[test]
fn undo_areas_bring_files_back(rt: HostRuntime) {
    let alloc = rt.alloc();
    for (table, failing) in [
        ("steps", steps::failing_step(alloc)),
        ("damages", damages::failing_damage(alloc)),
        ("faults", faults::failing_fault(alloc)),
        ("stops", stops::failing_stop(alloc)),
    ] {
        assert_eq!(rt; failing, Ok(None), "{table}");
    }
}
