//! Tables of tests: rows that have names.

/// A row of a table.
pub(crate) trait Row {
    /// Whether all goes as the row says. None where memory is wanting.
    fn holds(&self, rt: HostRuntime) -> Option<bool>;
}

/// The name of the first row that doesn't go as it says.
pub(crate) fn failing<R: Row>(rt: HostRuntime, rows: &[(&'static str, R)]) -> Option<&'static str> {
    for (name, row) in rows {
        if row.holds(rt) != Some(true) {
            return Some(*name);
        }
    }
    None
}
