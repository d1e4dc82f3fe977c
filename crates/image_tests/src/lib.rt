//! Tests of what reads and changes a file's image, over the public calls of `tdb_space`, `tdb_chain`, `tdb_check`,
//! `tdb_free`, `tdb_undo`, `tdb_backup`, `tdb_rescue` and `tdb_rewrite`: each module has one test, over tables whose
//! rows have names.
#![tactic(auto)]

#[cfg(test)]
mod backup;
#[cfg(test)]
mod chain;
#[cfg(test)]
mod check;
#[cfg(test)]
mod files;
#[cfg(test)]
mod free;
#[cfg(test)]
mod rescue;
#[cfg(test)]
mod rewrite;
#[cfg(test)]
mod rows;
#[cfg(test)]
mod space;
#[cfg(test)]
mod undo;
