//! Tests of summaries, of the lines of records and of files that are written anew, by the calls of `tdb_rewrite`.

mod anew;
pub(crate) mod summaries;

#[test]
fn files_are_summed_up_and_shown(rt: HostRuntime) {
    let alloc = rt.alloc();
    for (table, failing) in [
        ("files", summaries::failing_file(alloc)),
        ("faults of reads", summaries::failing_fault(alloc)),
        ("files written anew", anew::failing_rewrite(alloc)),
    ] {
        assert_eq!(rt; failing, Ok(None), "{table}");
    }
}
