//! A sink in memory, which fails where it is told to.
ghost use Rattle.std.specs.Prelude.{◌≡◌, ◌≤◌, [], ◌∷◌, ◌++◌, ℕ, true, length, take, OnOk, OnErr};
ghost use Rattle.tdb_disk.specs.Count.{HasCause};
ghost use Rattle.tdb_disk.specs.Script.{FailsExactly, unmade};
ghost use Rattle.tdb_disk.specs.declared.script.Call.TheVariants.{Write};

use crate::script::{Call, Script, raise};
use crate::sink::{Sink, SinkFault};
use std::alloc::{AllocError, Global};

/// A sink in memory. A write of it fails exactly where its list names it or it finds no memory, and then writes
/// nothing.
#[derive(Drop)]
pub struct MemSink {
    bytes: Vec<u8>,
    script: Script,
    faults: u64,
    starved: u64,
}

impl MemSink {
    ghost use Rattle.tdb_disk.specs.MemSink.{sink_written, sink_script, sink_faults, sink_starved};

    /// A sink to which nothing was written, with no faults and no write that is to fail. It takes no memory.
    pub fn new(alloc: Global) -> MemSink
        ensures written { sink_written result ≡ [] }
        ensures failing { (sink_script result).failing.items ≡ [] }
        ensures made { (sink_script result).made ≡ unmade }
        ensures faults { sink_faults result ≡ 0 }
        ensures starved { sink_starved result ≡ 0 }
    {
        MemSink {
            bytes: Vec::new(alloc),
            script: Script::new(alloc),
            faults: 0,
            starved: 0,
        }
    }

    /// The call of this kind with this number, counted from 0 since the sink was made, is to fail.
    pub fn fail(&mut self, call: Call, nth: u64) -> Result<(), AllocError>
        ensures added { OnOk result ((sink_script self.new).failing.items ≡ (sink_script self.old).failing.items ++ (call, nth) ∷ []) }
        ensures kept { OnErr result ((sink_script self.new).failing.items ≡ (sink_script self.old).failing.items) }
        ensures made { (sink_script self.new).made ≡ (sink_script self.old).made }
        ensures written { sink_written self.new ≡ sink_written self.old }
        ensures faults { sink_faults self.new ≡ sink_faults self.old }
        ensures starved { sink_starved self.new ≡ sink_starved self.old }
    {
        self.script.fail(call, nth)
    }

    /// The bytes that were written.
    pub fn as_slice(&self) -> &[u8]
        ensures { result.now ≡ sink_written self.now }
    {
        &self.bytes
    }

    /// How many writes found no memory.
    pub fn starved(&self) -> u64
        ensures { result ≡ sink_starved self.now }
    {
        self.starved
    }
}

impl Sink for MemSink {
    ghost use Rattle.tdb_disk.specs.MemSink.{sink_written, sink_script, sink_faults, sink_starved};

    ghost tells = { true };

    ghost written = { λ s. sink_written s };

    ghost faults = { λ s. sink_faults s };

    fn write(&mut self, bytes: &[u8]) -> Result<(), SinkFault>
        ensures fails { FailsExactly Call.Write (sink_script self.old) (sink_script self.new) (sink_starved self.old) (sink_starved self.new) result }
        ensures all { OnOk result (sink_written self.new ≡ sink_written self.old ++ bytes.now) }
        ensures none { OnErr result (sink_written self.new ≡ sink_written self.old) }
        ensures some { OnErr result ((n : ℕ) × (n ≤ length bytes.now) × (sink_written self.new ≡ sink_written self.old ++ take n bytes.now)) }
        ensures cause { HasCause (sink_faults self.old) (sink_faults self.new) result }
    {
        if self.script.fails(Call::Write) {
            raise(&mut self.faults);
            return Err(SinkFault);
        }
        match self.bytes.extend_from_slice(bytes) {
            Ok(()) => Ok(()),
            Err(AllocError) => {
                raise(&mut self.faults);
                raise(&mut self.starved);
                Err(SinkFault)
            }
        }
    }
}
