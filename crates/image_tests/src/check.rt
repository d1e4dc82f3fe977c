//! Tests of the check, its parts and its report, over the public calls of `tdb_check`.

mod answers;
mod chains;
pub(crate) mod files;
mod fronts;
mod long_chains;
mod parts;
mod reports;
mod sequences;

#[test]
fn checks_say_what_a_file_is(rt: HostRuntime) {
    let alloc = rt.alloc();
    for (table, failing) in [
        ("chains", chains::failing_chains(alloc)),
        ("long chains", long_chains::failing_long_chain(alloc)),
        ("fronts", fronts::failing_front(alloc)),
        ("fronts through a view", fronts::failing_view_front(alloc)),
        ("overlaps", parts::failing_overlap(alloc)),
        ("parts", parts::failing_part(alloc)),
        ("records", parts::failing_record(alloc, 4)),
        ("records of long keys", parts::failing_record(alloc, 600)),
        ("checks", reports::failing_check(alloc)),
        ("sequences", sequences::failing_sequence(alloc)),
        ("long records", sequences::failing_long_record(alloc)),
        ("like keys in sequence", sequences::failing_like_keys(alloc)),
    ] {
        assert_eq!(rt; failing, Ok(None), "{table}");
    }
}
