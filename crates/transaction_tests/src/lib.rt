//! Tests of locks, cursors, plain commands and transactions, over the public calls of `tdb_steps`, `tdb_walk`,
//! `tdb_txn`, `tdb_txn_turns` and `tdb_txn_owner`: tables whose rows have names.
#![tactic(auto)]

#[cfg(test)]
mod cursors;
#[cfg(test)]
mod files;
#[cfg(test)]
mod openers;
#[cfg(test)]
mod owner;
#[cfg(test)]
mod plain;
#[cfg(test)]
mod rows;
#[cfg(test)]
mod tables;
#[cfg(test)]
mod told;
#[cfg(test)]
mod turns;
#[cfg(test)]
mod txn;
