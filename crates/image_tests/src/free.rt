//! Tests of the free list: what is given, taken and grown, over the public calls of `tdb_free`.

mod faults;
mod files;
mod giving;
mod growing;
mod taking;
mod walking;

#[test]
fn free_records_are_given_and_taken(rt: HostRuntime) {
    let alloc = rt.alloc();
    for (table, failing) in [
        ("gives", giving::failing_give(alloc)),
        ("walks of gives", walking::failing_walk(alloc)),
        ("takes", taking::failing_take(alloc)),
        ("turns in a new file", growing::failing_turns(alloc)),
        ("faults", faults::failing_fault(alloc)),
    ] {
        assert_eq!(rt; failing, Ok(None), "{table}");
    }
}
