//! The outside of the database, as traits: disks that may stop at any moment, sets of files, sources and sinks of
//! bytes, and a form of each in memory.
#![tactic(auto)]

mod disk;
pub mod example;
mod files;
mod fuse_disk;
mod mem_disk;
mod mem_files;
mod mem_sink;
mod mem_source;
mod pick;
mod script;
mod sink;
mod source;
mod tape;

pub use disk::{Disk, DiskFault};
pub use files::{Files, FilesFault, Take, TakeRefusal};
pub use fuse_disk::FuseDisk;
pub use mem_disk::MemDisk;
pub use mem_files::MemFiles;
pub use mem_sink::MemSink;
pub use mem_source::MemSource;
pub use pick::Pick;
pub use script::Call;
pub use sink::{Sink, SinkFault};
pub use source::{Source, SourceFault};
