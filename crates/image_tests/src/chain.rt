//! Tests of values, and changes of records in their chains, over the public calls of `tdb_chain`.

mod changes;
mod files;
mod values;

use tdb_words::Order;

#[test]
fn chains_are_read_and_changed(rt: HostRuntime) {
    let alloc = rt.alloc();
    for (table, failing) in [
        ("look-ups", values::failing_look_up(alloc)),
        ("changes", changes::failing_change(alloc, Order::Little)),
        (
            "changes in big order",
            changes::failing_change(alloc, Order::Big),
        ),
    ] {
        assert_eq!(rt; failing, Ok(None), "{table}");
    }
}
