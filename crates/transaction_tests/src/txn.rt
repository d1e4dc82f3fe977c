//! Tests of transactions and their commits, over the public calls of `tdb_txn`.

pub(crate) mod commits;
pub(crate) mod stops;
pub(crate) mod views;
