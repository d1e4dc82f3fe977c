//! The small file of one record with which the tests of several crates begin.
#![tactic(auto)]

mod record;

pub use record::{HEADER, RECORD, Word};
