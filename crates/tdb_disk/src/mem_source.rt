//! A source in memory, which fails where it is told to.
ghost use Rattle.std.specs.Prelude.{◌≡◌, ◌≤◌, ◌<◌, [], ◌∷◌, ◌++◌, true, length, take, min, IfOk, OnOk, OnErr};
ghost use Rattle.tdb_disk.specs.Count.{HasCause};
ghost use Rattle.tdb_disk.specs.Script.{FailsExactly, unmade};
ghost use Rattle.tdb_disk.specs.declared.script.Call.TheVariants.{Read};

use crate::script::{Call, Script, raise};
use crate::source::{Source, SourceFault};
use std::alloc::{AllocError, Global};

/// A source in memory. A read of it fails exactly where its list names it, and takes no memory.
#[derive(Drop)]
pub struct MemSource {
    bytes: Vec<u8>,
    next: usize,
    script: Script,
    faults: u64,
    ghost within: { next ≤ length bytes.items },
}

impl MemSource {
    ghost use Rattle.tdb_disk.specs.MemSource.{source_left, source_script, source_faults};

    /// A source with these bytes left, no faults and no read that is to fail.
    pub fn new(alloc: Global, bytes: &[u8]) -> Result<MemSource, AllocError>
        ensures left { IfOk result (λ s. source_left s ≡ bytes.now) }
        ensures failing { IfOk result (λ s. (source_script s).failing.items ≡ []) }
        ensures made { IfOk result (λ s. (source_script s).made ≡ unmade) }
        ensures faults { IfOk result (λ s. source_faults s ≡ 0) }
    {
        Ok(MemSource {
            bytes: Vec::from_slice(alloc, bytes)?,
            next: 0,
            script: Script::new(alloc),
            faults: 0,
        })
    }

    /// The call of this kind with this number, counted from 0 since the source was made, is to fail.
    pub fn fail(&mut self, call: Call, nth: u64) -> Result<(), AllocError>
        ensures added { OnOk result ((source_script self.new).failing.items ≡ (source_script self.old).failing.items ++ (call, nth) ∷ []) }
        ensures kept { OnErr result ((source_script self.new).failing.items ≡ (source_script self.old).failing.items) }
        ensures made { (source_script self.new).made ≡ (source_script self.old).made }
        ensures left { source_left self.new ≡ source_left self.old }
        ensures faults { source_faults self.new ≡ source_faults self.old }
    {
        self.script.fail(call, nth)
    }

    /// The bytes that are left.
    fn left(&self) -> &[u8]
        ensures { result.now ≡ source_left self.now }
    {
        &self.bytes[self.next..]
    }

    /// How many reads found no memory: none, since a read takes none.
    pub fn starved(&self) -> u64
        ensures { result ≡ 0 }
    {
        0
    }
}

impl Source for MemSource {
    ghost use Rattle.tdb_disk.specs.MemSource.{source_left, source_script, source_faults};

    ghost tells = { true };

    ghost left = { λ s. source_left s };

    ghost faults = { λ s. source_faults s };

    fn read(&mut self, buf: &mut [u8]) -> Result<usize, SourceFault>
        ensures fails { FailsExactly Call.Read (source_script self.old) (source_script self.new) 0 0 result }
        ensures count { IfOk result (λ n. n ≡ min (length buf.old) (length (source_left self.old))) }
        ensures within { IfOk result (λ n. n ≤ length buf.old) }
        ensures bytes { IfOk result (λ n. source_left self.old ≡ take n buf.new ++ source_left self.new) }
        ensures end { IfOk result (λ n. n ≡ 0 → 0 < length buf.old → source_left self.old ≡ []) }
        ensures kept { OnErr result (source_left self.new ≡ source_left self.old) }
        ensures cause { HasCause (source_faults self.old) (source_faults self.new) result }
    {
        if self.script.fails(Call::Read) {
            raise(&mut self.faults);
            return Err(SourceFault);
        }
        let left = self.left();
        let n = buf.len().min(left.len());
        buf[..n].copy_from_slice(&left[..n]);
        self.next += n;
        Ok(n)
    }
}
