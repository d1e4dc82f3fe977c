//! Tests of plays in a world, over the public calls of `tdb_world`.

mod files;
mod rows;
mod stops;
mod tables;
pub(crate) mod worlds;

#[test]
fn plays_are_told_and_stop(rt: HostRuntime) {
    let alloc = rt.alloc();
    assert_eq!(rt; tables::failing_row(alloc), Ok(None), "plays");
    assert_eq!(rt; stops::failing_stop(alloc), Ok(None), "calls before a stop");
    assert_eq!(rt;
        stops::failing_recovery(alloc),
        Ok(None),
        "stops of an opening"
    );
}
