//! A disk in memory, which tells all that was done to it and fails where it is told to.
ghost use Rattle.std.specs.Prelude.{◌≡◌, ◌+◌, ◌%◌, ◌≤◌, ◌⊎◌, [], ◌∷◌, ◌++◌, IsTrue, true, length, take, drop, IfOk, OnOk, OnErr, MatchResult};
ghost use Rattle.std.proofs.Common.{ap, sym};
ghost use Rattle.tdb_disk.specs.Count.{HasCause, RoseBy, RoseUpTo};
ghost use Rattle.tdb_disk.specs.History.{wrote, wrote_word, grew, cut, synced, began, called, seen, Tried, TriedOver};
ghost use Rattle.tdb_disk.specs.Picked.{picked};
ghost use Rattle.tdb_disk.specs.Stop.{Leaves};
ghost use Rattle.tdb_disk.specs.Script.{FailsExactly, one_more, unmade};
ghost use Rattle.tdb_disk.specs.declared.script.Call.TheVariants.{Len, Read, Write, WriteWord, Grow, Cut, Sync};

use crate::disk::{Disk, DiskFault};
use crate::pick::Pick;
use crate::script::{Call, Script, raise};
use crate::tape::Tape;
use std::alloc::{AllocError, Global};

/// A disk in memory. A call of it fails exactly where its list names the call or it finds no memory. `len` and `read`
/// take none.
#[derive(Drop)]
pub struct MemDisk {
    alloc: Global,
    tape: Tape,
    script: Script,
    faults: u64,
    starved: u64,
    syncs: u64,
    bytes_read: u64,
}

impl MemDisk {
    ghost use Rattle.tdb_disk.specs.MemDisk.{memory_history, memory_size, memory_script, memory_faults, memory_starved, memory_syncs, memory_bytes_read, tape_history};

    /// A disk with these bytes, synced, no faults and no call that is to fail.
    pub fn new(alloc: Global, bytes: &[u8]) -> Result<MemDisk, AllocError>
        ensures history { IfOk result (λ d. memory_history d ≡ began bytes.now) }
        ensures size { IfOk result (λ d. memory_size d ≡ length bytes.now) }
        ensures failing { IfOk result (λ d. (memory_script d).failing.items ≡ []) }
        ensures made { IfOk result (λ d. (memory_script d).made ≡ unmade) }
        ensures faults { IfOk result (λ d. memory_faults d ≡ 0) }
        ensures starved { IfOk result (λ d. memory_starved d ≡ 0) }
        ensures syncs { IfOk result (λ d. memory_syncs d ≡ 0) }
        ensures bytes_read { IfOk result (λ d. memory_bytes_read d ≡ 0) }
    {
        let tape = Tape::new(alloc, bytes)?;
        Ok(MemDisk::over(alloc, tape, Vec::new(alloc)))
    }

    /// The call of this kind with this number, counted from 0 since the disk was made, is to fail.
    pub fn fail(&mut self, call: Call, nth: u64) -> Result<(), AllocError>
        ensures added { OnOk result ((memory_script self.new).failing.items ≡ (memory_script self.old).failing.items ++ (call, nth) ∷ []) }
        ensures kept { OnErr result ((memory_script self.new).failing.items ≡ (memory_script self.old).failing.items) }
        ensures rest { self.new ≡ record self.old { script = memory_script self.new } }
        ensures made { (memory_script self.new).made ≡ (memory_script self.old).made }
        ensures size { memory_size self.new ≡ memory_size self.old }
    {
        self.script.fail(call, nth)
    }

    /// The bytes as a read gives them.
    pub fn as_slice(&self) -> &[u8]
        ensures { result.now ≡ seen (memory_history self.now) }
    {
        &self.tape.bytes
    }

    /// How many syncs have answered Ok.
    pub fn syncs(&self) -> u64
        ensures { result ≡ memory_syncs self.now }
    {
        self.syncs
    }

    /// How many bytes were read.
    pub fn bytes_read(&self) -> u64
        ensures { result ≡ memory_bytes_read self.now }
    {
        self.bytes_read
    }

    /// How many calls found no memory.
    pub fn starved(&self) -> u64
        ensures { result ≡ memory_starved self.now }
    {
        self.starved
    }

    /// A new disk, without pending writes and without faults, whose bytes a stop now may leave.
    pub fn after_stop(&self, alloc: Global, pick: Pick) -> Result<MemDisk, AllocError>
        ensures left { Leaves (memory_history self.now) (picked pick (memory_history self.now)) }
        ensures history { IfOk result (λ d. memory_history d ≡ began (picked pick (memory_history self.now))) }
        ensures size { IfOk result (λ d. memory_size d ≡ length (picked pick (memory_history self.now))) }
        ensures failing { IfOk result (λ d. (memory_script d).failing.items ≡ []) }
        ensures made { IfOk result (λ d. (memory_script d).made ≡ unmade) }
        ensures faults { IfOk result (λ d. memory_faults d ≡ 0) }
        ensures starved { IfOk result (λ d. memory_starved d ≡ 0) }
        ensures syncs { IfOk result (λ d. memory_syncs d ≡ 0) }
        ensures bytes_read { IfOk result (λ d. memory_bytes_read d ≡ 0) }
    {
        match pick {
            Pick::Synced => MemDisk::new(alloc, &self.tape.synced),
            Pick::Read => MemDisk::new(alloc, &self.tape.bytes),
            Pick::Torn => MemDisk::new(alloc, &self.tape.torn),
        }
    }

    /// A disk over a tape, with these calls that are to fail, no faults and no calls yet.
    pub(crate) fn over(alloc: Global, tape: Tape, failing: Vec<(Call, u64)>) -> MemDisk
        ensures history { memory_history result ≡ tape_history tape }
        ensures size { memory_size result ≡ length tape.bytes.items }
        ensures failing { (memory_script result).failing.items ≡ failing.items }
        ensures made { (memory_script result).made ≡ unmade }
        ensures faults { memory_faults result ≡ 0 }
        ensures starved { memory_starved result ≡ 0 }
        ensures syncs { memory_syncs result ≡ 0 }
        ensures bytes_read { memory_bytes_read result ≡ 0 }
    {
        MemDisk {
            alloc,
            tape,
            script: Script::over(failing),
            faults: 0,
            starved: 0,
            syncs: 0,
            bytes_read: 0,
        }
    }

    /// The tape, with all that was done.
    pub(crate) fn into_tape(self) -> Tape
        ensures { tape_history result ≡ memory_history self }
    {
        self.tape
    }

    /// How many calls have failed.
    pub(crate) fn faults(&self) -> u64
        ensures { result ≡ memory_faults self.now }
    {
        self.faults
    }

    /// Counts a failed call.
    fn fault(&mut self) -> DiskFault
        ensures counted { self.new ≡ record self.old { faults = one_more self.old.faults } }
        ensures never_falls { self.old.faults ≤ self.new.faults }
    {
        raise(&mut self.faults);
        DiskFault
    }

    /// Counts a call that found no memory.
    fn starve(&mut self) -> DiskFault
        ensures counted { self.new ≡ record self.old { faults = one_more self.old.faults; starved = one_more self.old.starved } }
        ensures faults_never_fall { self.old.faults ≤ self.new.faults }
        ensures starved_never_falls { self.old.starved ≤ self.new.starved }
    {
        raise(&mut self.starved);
        self.fault()
    }
}

impl Disk for MemDisk {
    ghost use Rattle.tdb_disk.specs.MemDisk.{memory_history, memory_size, memory_script, memory_faults, memory_starved, memory_syncs, memory_bytes_read};

    ghost tells = { true };

    ghost history = { λ d. memory_history d };

    ghost size = { λ d. memory_size d };

    ghost faults = { λ d. memory_faults d };

    ghost syncs = { λ d. memory_syncs d };

    ghost bytes_read = { λ d. memory_bytes_read d };

    fn len(&mut self) -> Result<u64, DiskFault>
        ensures fails { FailsExactly Call.Len (memory_script self.old) (memory_script self.new) (memory_starved self.old) (memory_starved self.new) result }
        ensures starved { memory_starved self.new ≡ memory_starved self.old }
        ensures length { IfOk result (λ n. n ≡ memory_size self.old) }
        ensures size { memory_size self.new ≡ memory_size self.old }
        ensures history { memory_history self.new ≡ memory_history self.old }
        ensures cause { HasCause (memory_faults self.old) (memory_faults self.new) result }
        ensures syncs { memory_syncs self.new ≡ memory_syncs self.old }
        ensures bytes_read { memory_bytes_read self.new ≡ memory_bytes_read self.old }
    {
        if self.script.fails(Call::Len) {
            return Err(self.fault());
        }
        Ok(self.tape.bytes.len() as u64)
    }

    fn read(&mut self, off: u64, buf: &mut [u8]) -> Result<(), DiskFault>
        requires { off + length buf.old ≤ memory_size self.old }
        ensures fails { FailsExactly Call.Read (memory_script self.old) (memory_script self.new) (memory_starved self.old) (memory_starved self.new) result }
        ensures starved { memory_starved self.new ≡ memory_starved self.old }
        ensures bytes { OnOk result (buf.new ≡ take (length buf.old) (drop off (seen (memory_history self.old)))) }
        ensures size { memory_size self.new ≡ memory_size self.old }
        ensures history { memory_history self.new ≡ memory_history self.old }
        ensures cause { HasCause (memory_faults self.old) (memory_faults self.new) result }
        ensures syncs { memory_syncs self.new ≡ memory_syncs self.old }
        ensures bytes_read { RoseUpTo (length buf.old) (memory_bytes_read self.old) (memory_bytes_read self.new) }
        ensures all_read { OnOk result (RoseBy (length buf.old) (memory_bytes_read self.old) (memory_bytes_read self.new)) }
    {
        if self.script.fails(Call::Read) {
            return Err(self.fault());
        }
        let at = off as usize;
        buf.copy_from_slice(&self.tape.bytes[at..at + buf.len()]);
        self.bytes_read = self.bytes_read.saturating_add(buf.len() as u64);
        Ok(())
    }

    fn write(&mut self, off: u64, bytes: &[u8]) -> Result<(), DiskFault>
        requires { off + length bytes.now ≤ memory_size self.old }
        ensures fails { FailsExactly Call.Write (memory_script self.old) (memory_script self.new) (memory_starved self.old) (memory_starved self.new) result }
        ensures tried { TriedOver off (length bytes.now) (memory_history self.old) (memory_history self.new) }
        ensures done { OnOk result (memory_history self.new ≡ called (memory_history self.old) (wrote off bytes.now)) }
        ensures size { memory_size self.new ≡ memory_size self.old }
        ensures cause { HasCause (memory_faults self.old) (memory_faults self.new) result }
        ensures syncs { memory_syncs self.new ≡ memory_syncs self.old }
        ensures bytes_read { memory_bytes_read self.new ≡ memory_bytes_read self.old }
    {
        if self.script.fails(Call::Write) {
            return Err(self.fault());
        }
        match self.tape.write(self.alloc, off, bytes) {
            Ok(()) => Ok(()),
            Err(AllocError) => Err(self.starve()),
        }
    }

    fn write_word(&mut self, off: u64, w: [u8; 4]) -> Result<(), DiskFault>
        requires aligned { off % 4 ≡ 0 }
        requires within { off + 4 ≤ memory_size self.old }
        ensures fails { FailsExactly Call.WriteWord (memory_script self.old) (memory_script self.new) (memory_starved self.old) (memory_starved self.new) result }
        ensures tried { Tried (wrote_word off w) (memory_history self.old) (memory_history self.new) }
        ensures done { OnOk result (memory_history self.new ≡ called (memory_history self.old) (wrote_word off w)) }
        ensures size { memory_size self.new ≡ memory_size self.old }
        ensures cause { HasCause (memory_faults self.old) (memory_faults self.new) result }
        ensures syncs { memory_syncs self.new ≡ memory_syncs self.old }
        ensures bytes_read { memory_bytes_read self.new ≡ memory_bytes_read self.old }
    {
        if self.script.fails(Call::WriteWord) {
            return Err(self.fault());
        }
        match self.tape.write_word(off, w) {
            Ok(()) => Ok(()),
            Err(AllocError) => Err(self.starve()),
        }
    }

    fn grow(&mut self, to: u64) -> Result<(), DiskFault>
        requires { memory_size self.old ≤ to }
        ensures fails { FailsExactly Call.Grow (memory_script self.old) (memory_script self.new) (memory_starved self.old) (memory_starved self.new) result }
        ensures tried { Tried (grew to) (memory_history self.old) (memory_history self.new) }
        ensures done { OnOk result (memory_history self.new ≡ called (memory_history self.old) (grew to)) }
        ensures size { (memory_size self.new ≡ memory_size self.old) ⊎ (memory_size self.new ≡ to) }
        ensures grown { OnOk result (memory_size self.new ≡ to) }
        ensures cause { HasCause (memory_faults self.old) (memory_faults self.new) result }
        ensures syncs { memory_syncs self.new ≡ memory_syncs self.old }
        ensures bytes_read { memory_bytes_read self.new ≡ memory_bytes_read self.old }
    {
        if self.script.fails(Call::Grow) {
            return Err(self.fault());
        }
        match self.tape.grow(to) {
            Ok(()) => Ok(()),
            Err(AllocError) => Err(self.starve()),
        }
    }

    fn cut(&mut self, to: u64) -> Result<(), DiskFault>
        requires { to ≤ memory_size self.old }
        ensures fails { FailsExactly Call.Cut (memory_script self.old) (memory_script self.new) (memory_starved self.old) (memory_starved self.new) result }
        ensures tried { Tried (cut to) (memory_history self.old) (memory_history self.new) }
        ensures done { OnOk result (memory_history self.new ≡ called (memory_history self.old) (cut to)) }
        ensures size { (memory_size self.new ≡ memory_size self.old) ⊎ (memory_size self.new ≡ to) }
        ensures shortened { OnOk result (memory_size self.new ≡ to) }
        ensures cause { HasCause (memory_faults self.old) (memory_faults self.new) result }
        ensures syncs { memory_syncs self.new ≡ memory_syncs self.old }
        ensures bytes_read { memory_bytes_read self.new ≡ memory_bytes_read self.old }
    {
        if self.script.fails(Call::Cut) {
            return Err(self.fault());
        }
        match self.tape.cut(to) {
            Ok(()) => Ok(()),
            Err(AllocError) => Err(self.starve()),
        }
    }

    fn sync(&mut self) -> Result<(), DiskFault>
        ensures fails { FailsExactly Call.Sync (memory_script self.old) (memory_script self.new) (memory_starved self.old) (memory_starved self.new) result }
        ensures tried { Tried synced (memory_history self.old) (memory_history self.new) }
        ensures done { OnOk result (memory_history self.new ≡ called (memory_history self.old) synced) }
        ensures size { memory_size self.new ≡ memory_size self.old }
        ensures cause { HasCause (memory_faults self.old) (memory_faults self.new) result }
        ensures syncs { MatchResult result (λ _. RoseBy 1 (memory_syncs self.old) (memory_syncs self.new)) (λ _. memory_syncs self.new ≡ memory_syncs self.old) }
        ensures bytes_read { memory_bytes_read self.new ≡ memory_bytes_read self.old }
    {
        if self.script.fails(Call::Sync) {
            return Err(self.fault());
        }
        match self.tape.sync(self.alloc) {
            Ok(()) => {
                raise(&mut self.syncs);
                Ok(())
            }
            Err(AllocError) => Err(self.starve()),
        }
    }

    ghost told_size = { λ d told. ap length (sym d.tape.same) };
}
