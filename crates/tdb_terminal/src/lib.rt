//! A session at a terminal: a source that shows a prompt, and hands on only lines that are commands.
#![tactic(auto)]

mod answer;
mod nearest;
mod page;
mod terminal_source;
mod words;

pub use answer::{Answer, answer_to};
pub use page::write_page;
pub use terminal_source::TerminalSource;

#[cfg(test)]
mod tests;
