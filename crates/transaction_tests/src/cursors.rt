//! Tests of moves and cursors, over the public calls of `tdb_walk`.

pub(crate) mod leaves;
pub(crate) mod moves;
pub(crate) mod pairs;
pub(crate) mod purges;
