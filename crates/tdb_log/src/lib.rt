//! Logs, which are told what becomes of a file beside the answers of its commands.
#![tactic(auto)]

mod count_log;
mod log;
mod logs;
mod mem_log;
mod notice;
mod sink_log;

pub use crate::count_log::CountLog;
pub use crate::log::{Log, LogRefusal};
pub use crate::logs::{Logs, tell_growth};
pub use crate::mem_log::MemLog;
pub use crate::notice::Notice;
pub use crate::sink_log::SinkLog;
