//! Tests of plays in a world, of generated commands, scripts and sessions, over the public calls of `tdb_commands`,
//! `tdb_world`, `tdb_gen`, `tdb_script` and `tdb_tool`: each module has one test, over tables whose rows have names.
#![tactic(auto)]

#[cfg(test)]
mod commands;
#[cfg(test)]
mod files;
#[cfg(test)]
mod loads;
#[cfg(test)]
mod rows;
#[cfg(test)]
mod scripts;
#[cfg(test)]
mod sessions;
#[cfg(test)]
mod world;
