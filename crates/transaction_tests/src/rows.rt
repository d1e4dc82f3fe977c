// Tables of tests: rows that have names.

use std::alloc::Global;

/// A row of a table.
pub(crate) trait Row {
    /// Whether all goes as the row says. None where memory is wanting.
    fn holds(&self, alloc: Global) -> Option<bool>;
}

/// The name of the first row that doesn't go as it says.
pub(crate) fn failing<R: Row>(alloc: Global, rows: &[(&'static str, R)]) -> Option<&'static str> {
    for (name, row) in rows {
        if row.holds(alloc) != Some(true) {
            return Some(*name);
        }
    }
    None
}
