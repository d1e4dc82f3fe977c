//! A sink that writes to a writer of the operating system, as standard output.
ghost use Rattle.std.specs.Prelude.{◌≡◌, ◌<◌, ◌↔◌, [], false, IsSome};

use crate::faults::Faults;
use crate::progress::{Passing, Progress};
use crate::reason::Reason;
use crate::silence::Silence;
use std::io::Write;
use tdb_disk::{Sink, SinkFault};

/// A sink over a writer, without a buffer: what was written has reached the system. It tells no content.
#[derive(Drop)]
pub struct OutSink<W> {
    writer: W,
    faults: Faults<Reason>,

    /// Once this begins nothing is written.
    silence: Option<Silence>,

    /// Where a person is told what is written.
    progress: Option<Progress>,
}

impl<W: Write> OutSink<W> {
    ghost use Rattle.tdb_files.specs.OutSink.{out_faults};

    /// What is written goes to the writer. There are no faults yet.
    pub fn new(writer: W) -> OutSink<W>
        ensures { out_faults result ≡ 0 }
    {
        OutSink {
            writer,
            faults: Faults::new(),
            silence: None,
            progress: None,
        }
    }

    /// The same sink, of which a person is told what is written, where there is a place for it.
    pub fn with_progress(self, progress: Option<Progress>) -> OutSink<W>
        ensures { out_faults result ≡ out_faults self }
    {
        OutSink { progress, ..self }
    }

    /// The same sink, whose writes fail once this begins.
    pub fn with_silence(self, silence: Silence) -> OutSink<W>
        ensures { out_faults result ≡ out_faults self }
    {
        OutSink {
            silence: Some(silence),
            ..self
        }
    }

    /// Why the last write that failed did; None where none did.
    pub fn last_fault(&self) -> Option<Reason>
        ensures { IsSome result ↔ (0 < out_faults self.now) }
    {
        self.faults.last().copied()
    }

    /// Writes all the bytes.
    fn put(&mut self, bytes: &[u8]) -> Result<(), Reason>
        ensures { out_faults self.new ≡ out_faults self.old }
    {
        if self
            .silence
            .as_ref()
            .is_some_and(|silence| silence.has_begun())
        {
            return Err(Reason::Unnamed);
        }
        let mut done = 0;
        while done < bytes.len() {
            match self.writer.write(&bytes[done..]) {
                Ok(0) => return Err(Reason::NothingWritten),
                Ok(n) => done += n,
                Err(error) => return Err(error.into()),
            }
        }
        Ok(())
    }
}

impl<W: Write> Sink for OutSink<W> {
    ghost use Rattle.tdb_files.specs.OutSink.{out_faults};

    ghost tells = { false };

    ghost written = { λ _. [] };

    ghost faults = { λ s. out_faults s };

    fn write(&mut self, bytes: &[u8]) -> Result<(), SinkFault> {
        match self.put(bytes) {
            Ok(()) => {
                if let Some(progress) = &mut self.progress {
                    progress.pass(Passing::Written, bytes.len());
                }
                Ok(())
            }
            Err(reason) => {
                self.faults.raise(reason);
                Err(SinkFault)
            }
        }
    }
}
