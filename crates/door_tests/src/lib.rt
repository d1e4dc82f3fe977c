//! Tests of whole command lines over the forms in memory, by the public call of `tdb_top`.
#![tactic(auto)]

#[cfg(test)]
mod all;
#[cfg(test)]
mod backup;
#[cfg(test)]
mod changes;
#[cfg(test)]
mod create;
#[cfg(test)]
mod faults;
#[cfg(test)]
mod generate;
#[cfg(test)]
mod growths;
#[cfg(test)]
mod images;
#[cfg(test)]
mod inserts;
#[cfg(test)]
mod limits;
#[cfg(test)]
mod lines;
#[cfg(test)]
mod logs;
#[cfg(test)]
mod long;
#[cfg(test)]
mod mends;
#[cfg(test)]
mod merges;
#[cfg(test)]
mod moves;
#[cfg(test)]
mod options;
#[cfg(test)]
mod pipes;
#[cfg(test)]
mod printing;
#[cfg(test)]
mod rescues;
#[cfg(test)]
mod rewrites;
#[cfg(test)]
mod runs;
#[cfg(test)]
mod sessions;
#[cfg(test)]
mod summaries;
#[cfg(test)]
mod tables;
#[cfg(test)]
mod turns;
#[cfg(test)]
mod undo;
#[cfg(test)]
mod verify;
