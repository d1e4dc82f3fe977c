//! The texts of a run of turns: what a script says, and what is printed of a report.
#![tactic(auto)]

mod command;
mod cut;
mod laws;
mod limits;
mod line;
mod number;
mod play;
mod reply;
mod rows;
mod script;
mod text;
mod unread;

pub use crate::cut::{first_word, line_end};
pub use crate::laws::script_law;
pub use crate::limits::{LONGEST_SCRIPT, MOST_NUMBER, limits_law};
pub use crate::line::write_line;
pub use crate::reply::text_of_reply;
pub use crate::script::{ScriptRefusal, read_script};
pub use crate::text::text_of;
