//! Tests of the machines of plain commands, over the public calls of `tdb_steps`.

pub(crate) mod faults;
pub(crate) mod lines;
pub(crate) mod wipes;
