//! Tests of commits over several files, over the public calls of `tdb_group`.
#![tactic(auto)]

#[cfg(test)]
mod failing;
#[cfg(test)]
mod moves;
