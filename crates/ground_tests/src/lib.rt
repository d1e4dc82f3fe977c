//! Tests of what all stands on, over the public calls of `tdb_words`, `tdb_disk`, `tdb_cache`, `tdb_files`, `tdb_dump`,
//! `tdb_log` and `tdb_locks`: each module has one test, over tables whose rows have names.
#![tactic(auto)]

#[cfg(test)]
mod cache;
#[cfg(test)]
mod disk;
#[cfg(test)]
mod dump;
#[cfg(test)]
mod edits;
#[cfg(test)]
mod files;
#[cfg(test)]
mod locks;
#[cfg(test)]
mod log;
#[cfg(test)]
mod rows;
#[cfg(test)]
mod words;
