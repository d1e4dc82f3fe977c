//! For which fault a file was refused, which files are told by a log.

use std::alloc::{AllocError, Global};
use std::cell::Cell;
use std::fmt;
use std::rc::Rc;
use tdb_words::What;

/// Why a file that is replaced, or was given back, was refused.
#[derive(Clone, Copy)]
pub(crate) enum Cause {
    /// For this fault, at this offset in bytes.
    Fault(What, u64),
    /// For its header, of which no log is told.
    Header,
    /// Nobody told it.
    Unknown,
}

impl fmt::Display for Cause {
    fn fmt<W: fmt::Write>(&self, f: &mut fmt::Formatter<W>) -> fmt::Result {
        match self {
            Cause::Fault(what, at) => write!(f, "was refused for corrupt {what} {at}"),
            Cause::Header => f.pad("was refused for its header"),
            Cause::Unknown => f.pad("was refused"),
        }
    }
}

/// What files and a log share: the fault for which the file that is taken was refused, if it was. No clause sees it.
#[derive(Drop)]
pub struct Finding {
    cause: Rc<Cell<Cause>, Global>,
}

impl Finding {
    /// No fault was found.
    pub fn new(alloc: Global) -> Result<Finding, AllocError> {
        let cause = Rc::new(alloc, Cell::new(Cause::Header))?;
        Ok(Finding { cause })
    }

    /// The same one, to be kept in a second place. It takes no memory; an Err comes where it is kept in too many.
    pub fn share(&self) -> Result<Finding, AllocError> {
        let cause = self.cause.clone()?;
        Ok(Finding { cause })
    }

    /// The file that is taken was refused for this fault, at this offset in bytes.
    pub fn note(&self, what: What, at: u64) {
        self.cause.set(Cause::Fault(what, at));
    }

    /// Why the file was refused that is given back, if it was. The next file has no fault yet.
    pub(crate) fn take(&self) -> Cause {
        self.cause.replace(Cause::Header)
    }
}
