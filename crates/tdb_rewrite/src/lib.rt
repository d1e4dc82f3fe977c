//! Summaries of a tdb file: what it holds in numbers, and the records of its chains one by one; and files that are
//! written anew from the pairs of others.
#![tactic(auto)]

mod lines;
mod numbers;
mod places;
mod refusal;
mod rewriting;
mod spot;
mod summing;
mod sums;
mod text;
mod walk;
mod writing;

pub use crate::lines::chain_lines;
pub use crate::numbers::Summary;
pub use crate::refusal::{LinesRefusal, ShowRefusal, SummaryRefusal};
pub use crate::rewriting::rewrite;
pub use crate::spot::{Shown, Spot};
pub use crate::summing::{sum_up, summary};
pub use crate::writing::{write_chains, write_free_list, write_summary};
