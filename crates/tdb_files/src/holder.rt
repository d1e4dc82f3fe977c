//! A program that has a file open.

use std::fmt;
use std::str::from_utf8;

/// The longest name of a process, in bytes.
const LONGEST_NAME: usize = 16;

/// The name of a process, as the system keeps it: cut to 16 bytes.
#[derive(Clone, Copy, Debug, PartialEq, Eq)]
pub struct ProcessName {
    /// The name, and zeros behind it.
    bytes: [u8; LONGEST_NAME],
}

/// A byte as it is shown: what isn't a printable character of ASCII is a question mark.
fn shown(byte: u8) -> u8 {
    if byte == b' ' || byte.is_ascii_graphic() {
        byte
    } else {
        b'?'
    }
}

impl ProcessName {
    /// The name of a process, as the system's file of it has it, with a line end behind it.
    pub fn of_file(text: &[u8]) -> ProcessName {
        let name = match text.split_last() {
            Some((b'\n', front)) => front,
            _ => text,
        };
        let mut bytes = [0; LONGEST_NAME];
        for (kept, byte) in bytes.iter_mut().zip(name) {
            *kept = shown(*byte);
        }
        ProcessName { bytes }
    }
}

impl fmt::Display for ProcessName {
    fn fmt<W: fmt::Write>(&self, f: &mut fmt::Formatter<W>) -> fmt::Result {
        f.pad(from_utf8(&self.bytes).unwrap_or("").trim_end_matches('\0'))
    }
}

/// A program that has a file open, as far as it is known.
#[derive(Clone, Copy, Debug, PartialEq, Eq)]
pub enum Holder {
    /// A process and its name.
    Named(ProcessName, u32),
    /// A process whose name can't be read.
    Process(u32),
    /// The process can't be told.
    Unknown,
}

impl fmt::Display for Holder {
    fn fmt<W: fmt::Write>(&self, f: &mut fmt::Formatter<W>) -> fmt::Result {
        match self {
            Holder::Named(name, process) => write!(f, "{name} (process {process})"),
            Holder::Process(process) => write!(f, "process {process}"),
            Holder::Unknown => f.pad("another program"),
        }
    }
}
