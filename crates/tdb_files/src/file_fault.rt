//! A fault of a file: what a user is told of it.

use crate::reason::Reason;
use std::fmt;

/// Why a call failed, and at which file. The name isn't known where there was no memory for it.
#[derive(Drop)]
pub struct FileFault {
    pub(crate) name: Option<String>,
    pub(crate) reason: Reason,
}

impl FileFault {
    /// The name of the file, as it was given.
    pub fn name(&self) -> Option<&str> {
        match &self.name {
            Some(name) => Some(name.as_str()),
            None => None,
        }
    }

    /// Why the call failed.
    pub fn reason(&self) -> Reason {
        self.reason
    }
}

impl fmt::Display for FileFault {
    fn fmt<W: fmt::Write>(&self, f: &mut fmt::Formatter<W>) -> fmt::Result {
        match &self.name {
            Some(name) => write!(f, "{name}: {}", self.reason),
            None => write!(f, "{}", self.reason),
        }
    }
}
