//! Tests of views of a disk and the plain reading of an image, over the public calls of `tdb_space`.

mod plain;
mod views;

#[test]
fn images_are_read_and_written(rt: HostRuntime) {
    let alloc = rt.alloc();
    for (table, failing) in [
        ("records", plain::failing_record(alloc)),
        ("heads", plain::failing_head(alloc)),
        ("pairs", plain::failing_pairs(alloc)),
        ("the room of a record", Ok(plain::failing_room())),
        ("the view of a disk", views::failing_view(alloc)),
        ("a fault of a disk", views::failing_fault(alloc)),
    ] {
        assert_eq!(rt; failing, Ok(None), "{table}");
    }
}
