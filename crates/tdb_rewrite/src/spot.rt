// The lines by which the records of a file are shown.

ghost use Rattle.std.specs.Prelude.{◌≡◌, ◌++◌, ◌∷◌, [], OnOk};
ghost use Rattle.tdb_rewrite.specs.Lines.{spot_of, under_head};

use std::alloc::{AllocError, Global};
use std::marker::Model;
use tdb_words::{Rec, USED};

/// A line of the list of a file's records. Offsets and lengths are in bytes.
#[derive(Clone, Copy, Debug, PartialEq, Eq)]
pub enum Spot {
    /// A chain that isn't empty. Its records follow.
    Chain {
        /// The number of the chain.
        chain: u32,

        /// How many records stand in it, used and dead ones.
        count: u64,
    },

    /// A used record.
    Used {
        /// Its offset.
        off: u32,

        /// How many bytes the key has.
        key_len: u32,

        /// How many bytes the value has.
        data_len: u32,

        /// How many bytes follow the header, the tailer among them.
        rec_len: u32,
    },

    /// A dead record.
    Dead {
        /// Its offset.
        off: u32,

        /// How many bytes follow the header, the tailer among them.
        rec_len: u32,
    },
}

impl Spot {
    /// The line of the record at an offset with this header.
    pub fn of(off: u32, rec: &Rec) -> Spot
        ensures { result ≡ spot_of off rec.now }
    {
        if rec.magic == USED {
            Spot::Used {
                off,
                key_len: rec.key_len,
                data_len: rec.data_len,
                rec_len: rec.rec_len,
            }
        } else {
            Spot::Dead {
                off,
                rec_len: rec.rec_len,
            }
        }
    }
}

/// Lines in their order. A contract sees them as a list.
#[derive(Debug, Drop)]
pub struct Shown {
    lines: Vec<Spot>,
}

impl Model for Shown {
    ghost use Rattle.std.specs.Prelude.{List};
    ghost use Rattle.tdb_rewrite.specs.declared.spot.Spot.{Spot};

    ghost Value = { List Spot };

    ghost view = { λ a. a.lines.items };
}

impl Shown {
    /// No line. It takes no memory.
    pub(crate) fn new(alloc: Global) -> Shown
        ensures { result ≡ [] }
    {
        Shown {
            lines: Vec::new(alloc),
        }
    }

    /// Puts a line at the end.
    pub(crate) fn push(&mut self, spot: Spot) -> Result<(), AllocError>
        ensures { OnOk result (self.new ≡ self.old ++ spot ∷ []) }
    {
        self.lines.push(spot)?;
        Ok(())
    }

    /// Puts a line in front that says how many records of a chain these lines show, where there are any.
    #[tactic(auto, using(crate::proofs::Showing::head_none, crate::proofs::Showing::head_put))]
    pub(crate) fn put_head(&mut self, chain: u32) -> Result<(), AllocError>
        ensures { OnOk result (self.new ≡ under_head chain self.old) }
    {
        if self.lines.is_empty() {
            return Ok(());
        }
        let count = self.lines.len() as u64;
        self.lines.insert(0, Spot::Chain { chain, count })?;
        Ok(())
    }

    /// The lines.
    pub fn as_slice(&self) -> &[Spot]
        ensures { result.now ≡ self.now }
    {
        &self.lines
    }
}
