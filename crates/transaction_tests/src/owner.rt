//! Tests of the opener that has a transaction, turn by turn, over the public calls of `tdb_txn_owner`.

pub(crate) mod asked;
pub(crate) mod cases;
pub(crate) mod faults;
pub(crate) mod plays;
pub(crate) mod states;
