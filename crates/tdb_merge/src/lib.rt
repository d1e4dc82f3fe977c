//! Pairs of one file are stored into another, in one transaction.
#![tactic(auto)]

mod ending;
mod fault;
mod merging;
mod playing;
mod storing;

pub use crate::fault::MergeFault;
pub use crate::merging::merge;
