//! A source that reads from a reader of the operating system, as standard input.
ghost use Rattle.std.specs.Prelude.{◌≡◌, ◌<◌, ◌↔◌, [], false, IsSome};

use crate::faults::Faults;
use crate::progress::{Passing, Progress};
use crate::reason::Reason;
use std::io::Read;
use tdb_disk::{Source, SourceFault};

/// A source over a reader. It tells no content.
#[derive(Drop)]
pub struct InSource<R> {
    reader: R,
    faults: Faults<Reason>,

    /// Where a person is told what is read.
    progress: Option<Progress>,
}

impl<R: Read> InSource<R> {
    ghost use Rattle.tdb_files.specs.InSource.{in_faults};

    /// What the reader gives from here on, with no faults yet.
    pub fn new(reader: R) -> InSource<R>
        ensures { in_faults result ≡ 0 }
    {
        InSource {
            reader,
            faults: Faults::new(),
            progress: None,
        }
    }

    /// The same source, of which a person is told what is read, where there is a place for it.
    pub fn with_progress(self, progress: Option<Progress>) -> InSource<R>
        ensures { in_faults result ≡ in_faults self }
    {
        InSource { progress, ..self }
    }

    /// Why the last read that failed did; None where none did.
    pub fn last_fault(&self) -> Option<Reason>
        ensures { IsSome result ↔ (0 < in_faults self.now) }
    {
        self.faults.last().copied()
    }
}

impl<R: Read> Source for InSource<R> {
    ghost use Rattle.tdb_files.specs.InSource.{in_faults};

    ghost tells = { false };

    ghost left = { λ _. [] };

    ghost faults = { λ s. in_faults s };

    fn read(&mut self, buf: &mut [u8]) -> Result<usize, SourceFault> {
        match self.reader.read(buf) {
            Ok(n) => {
                if let Some(progress) = &mut self.progress {
                    progress.pass(Passing::Read, n);
                }
                Ok(n)
            }
            Err(error) => {
                self.faults.raise(error.into());
                Err(SourceFault)
            }
        }
    }
}
