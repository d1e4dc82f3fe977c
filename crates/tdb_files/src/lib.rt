//! The outside of the database as the operating system has it: files, standard input and output.
#![tactic(auto)]

mod dir_files;
mod faults;
mod file_disk;
mod file_fault;
mod file_sink;
mod finding;
mod folder;
mod guard;
mod holder;
mod identity;
mod in_source;
mod lock_table;
mod locks;
mod manner;
mod opening;
mod others;
mod out_sink;
mod pace;
mod part;
mod progress;
mod reason;
mod replacing;
mod silence;
mod stamp;

pub use dir_files::DirFiles;
pub use file_disk::FileDisk;
pub use file_fault::FileFault;
pub use file_sink::FileSink;
pub use finding::Finding;
pub use holder::{Holder, ProcessName};
pub use identity::Identity;
pub use in_source::InSource;
pub use lock_table::{LockEntry, LockFamily, find_lock, has_lock};
pub use manner::{Kept, Manner};
pub use out_sink::OutSink;
pub use progress::Progress;
pub use reason::{Reason, SystemError};
pub use replacing::before_name;
pub use silence::Silence;
