//! Which row is the first that fails.

/// The name of the first row that doesn't hold.
pub(crate) fn first_false(rows: &[(&'static str, bool)]) -> Option<&'static str> {
    for (name, holds) in rows {
        if !*holds {
            return Some(*name);
        }
    }
    None
}
