//! Why a call of the system failed, or why a file wasn't used.

use crate::holder::Holder;
use std::io::Write;
use std::str::from_utf8;
use std::{fmt, io};
use thiserror::Error;

/// Why a call failed, in the words that a user is told.
#[derive(Clone, Copy, Debug, Error)]
pub enum Reason {
    /// The system refused it.
    #[error("{0}")]
    System(SystemError),
    /// It is a folder, a pipe, a device or a socket.
    #[error("is not a regular file")]
    NotRegular,
    /// It is locked, or was made or replaced by another program in the meantime.
    #[error("another program uses the file")]
    InUse,
    /// Another program has it open, or locked.
    #[error("{0} has the file open")]
    Elsewhere(Holder),
    /// It isn't as this run left it.
    #[error("the file was changed by another program")]
    Changed,
    /// It is taken already, under another name.
    #[error("the file is in use under another name")]
    TakenTwice,
    /// It is a database, which is not to be written over as something else.
    #[error("is a database")]
    Database,
    /// It has fewer bytes than it had.
    #[error("the file has become shorter")]
    Shorter,
    /// A write took no byte.
    #[error("nothing could be written")]
    NothingWritten,
    /// A file that was made before didn't get its name.
    #[error("a new file has no name")]
    Unnamed,
}

/// An error of the system. It is told in the system's words, without its number.
#[derive(Clone, Copy, Debug)]
pub struct SystemError(io::Error);

/// The longest text of an error of the system, in bytes.
const LONGEST_TEXT: usize = 256;

impl fmt::Display for SystemError {
    fn fmt<W: fmt::Write>(&self, f: &mut fmt::Formatter<W>) -> fmt::Result {
        let mut text = [0; LONGEST_TEXT];
        let mut room = text.as_mut_slice();
        // A longer text is cut.
        let _ = write!(room, "{}", self.0);
        let told = from_utf8(&text).unwrap_or("");
        match told.split_once(" (os error ") {
            Some((words, _number)) => f.pad(words),
            None => f.pad(told.trim_end_matches('\0')),
        }
    }
}

impl From<io::Error> for Reason {
    fn from(error: io::Error) -> Reason {
        Reason::System(SystemError(error))
    }
}

impl Reason {
    /// The system found no file of the name, or no folder on the way to it.
    pub(crate) fn is_missing(&self) -> bool {
        match self {
            Reason::System(SystemError(error)) => is_missing(error),
            _ => false,
        }
    }
}

/// The system found no file of the name: it isn't there, or what should be a folder on the way to it is a file or isn't
/// there.
pub(crate) fn is_missing(error: &io::Error) -> bool {
    matches!(
        error.kind(),
        io::ErrorKind::NotFound | io::ErrorKind::NotADirectory
    )
}
