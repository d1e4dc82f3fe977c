//! A set of files in memory, which fails where it is told to.
ghost use Rattle.std.specs.Prelude.{◌≡◌, ◌≢◌, ◌≤◌, ◌<◌, ◌↔◌, ◌⊎◌, [], ◌∷◌, ◌++◌, List, ℕ, Some, None, true, false, IsSome, unwrap_or, option_map, IfOk, OnOk, OnErr, IsErrOf, length, option_copied};
ghost use Rattle.std.specs.HashMap.{get_by_text};
ghost use Rattle.tdb_disk.specs.Count.{HasCause, HasCauseOf, Rose};
ghost use Rattle.tdb_disk.specs.History.{began, seen};
ghost use Rattle.tdb_disk.specs.Names.{SameAll, SameBut, moved};
ghost use Rattle.tdb_disk.specs.Script.{Fails, FailsExactly, unmade, counted, one_more};
ghost use Rattle.tdb_disk.specs.declared.script.Call.TheVariants as call;
ghost use Rattle.tdb_disk.specs.declared.files.TakeRefusal.TheVariants as refusal;
ghost use Rattle.tdb_disk.specs.declared.files.Take.TheVariants as mode;
ghost use Rattle.tdb_disk.specs.MemDisk.{memory_history, memory_size, memory_script, memory_faults, memory_starved, memory_syncs, memory_bytes_read, tape_history};
ghost use Rattle.tdb_disk.specs.MemFiles.{empty_place_holds_nothing, name_is_taken, held_at, disk_failing, files_script, files_faults, files_starved};

use crate::files::{Files, FilesFault, Take, TakeRefusal};
use crate::mem_disk::MemDisk;
use crate::script::{Call, Script, raise};
use crate::tape::Tape;
use std::alloc::{AllocError, Global};
use std::collections::HashMap;

/// Files in memory, by name. A call of it fails exactly where its list names the call or it finds no memory, but `take`
/// answers `Missing` and `There` whatever the list says, and `Memory` where it finds no memory.
#[derive(Drop)]
pub struct MemFiles {
    alloc: Global,
    /// What is held at each name. The place of a name that is taken is empty.
    places: HashMap<String, Option<Tape>>,
    /// The calls that are to fail, of the disk of each name.
    failing: HashMap<String, Vec<(Call, u64)>>,
    script: Script,
    faults: u64,
    starved: u64,
}

impl MemFiles {
    /// No files, no faults and no call that is to fail. It takes no memory.
    pub fn new(alloc: Global) -> MemFiles
        ensures taken { (name : List ℕ) → name_is_taken result name ≡ false }
        ensures held { (name : List ℕ) → held_at result name ≡ None }
        ensures disk_failing { (name : List ℕ) → disk_failing result name ≡ [] }
        ensures failing { (files_script result).failing.items ≡ [] }
        ensures made { (files_script result).made ≡ unmade }
        ensures faults { files_faults result ≡ 0 }
        ensures starved { files_starved result ≡ 0 }
    {
        MemFiles {
            alloc,
            places: HashMap::new(alloc),
            failing: HashMap::new(alloc),
            script: Script::new(alloc),
            faults: 0,
            starved: 0,
        }
    }

    /// Makes or replaces the file at a name, with these bytes.
    #[tactic(auto, using(std::proofs::lemmas::Map::Text::text_keys))]
    pub fn put(&mut self, name: &str, bytes: &[u8]) -> Result<(), AllocError>
        requires { name_is_taken self.old name.now ≡ false }
        ensures put { OnOk result (held_at self.new name.now ≡ Some (began bytes.now)) }
        ensures others { SameBut name.now (held_at self.old) (held_at self.new) }
        ensures kept { OnErr result (SameAll (held_at self.old) (held_at self.new)) }
        ensures taken { SameAll (name_is_taken self.old) (name_is_taken self.new) }
        ensures rest { self.new ≡ record self.old { places = self.new.places } }
    {
        let key = String::from_str(self.alloc, name)?;
        let tape = Tape::new(self.alloc, bytes)?;
        self.places.insert(key, Some(tape))?;
        Ok(())
    }

    /// The bytes of the file at a name, as a read gives them; None exactly where it isn't there or is taken.
    pub fn get(&self, name: &str) -> Option<&[u8]>
        ensures { option_copied result ≡ option_map seen (held_at self.now name.now) }
    {
        match self.places.get(name) {
            Some(Some(tape)) => Some(&tape.bytes),
            _ => None,
        }
    }

    /// The call of this kind with this number, counted from 0 since the set was made, is to fail.
    pub fn fail(&mut self, call: Call, nth: u64) -> Result<(), AllocError>
        ensures added { OnOk result ((files_script self.new).failing.items ≡ (files_script self.old).failing.items ++ (call, nth) ∷ []) }
        ensures kept { OnErr result ((files_script self.new).failing.items ≡ (files_script self.old).failing.items) }
        ensures made { (files_script self.new).made ≡ (files_script self.old).made }
        ensures rest { self.new ≡ record self.old { script = files_script self.new } }
    {
        self.script.fail(call, nth)
    }

    /// The call of this kind with this number, counted from 0 at each taking, is to fail on the disk of this name.
    #[tactic(auto, using(std::proofs::lemmas::Map::Text::text_keys))]
    pub fn fail_disk(&mut self, name: &str, call: Call, nth: u64) -> Result<(), AllocError>
        requires { name_is_taken self.old name.now ≡ false }
        ensures added { OnOk result (disk_failing self.new name.now ≡ disk_failing self.old name.now ++ (call, nth) ∷ []) }
        ensures others { SameBut name.now (disk_failing self.old) (disk_failing self.new) }
        ensures kept { OnErr result (SameAll (disk_failing self.old) (disk_failing self.new)) }
        ensures rest { self.new ≡ record self.old { failing = self.new.failing } }
    {
        let mut calls = self.calls_of(self.alloc, name)?;
        calls.push((call, nth))?;
        self.failing
            .insert(String::from_str(self.alloc, name)?, calls)?;
        Ok(())
    }

    /// How many calls found no memory.
    pub fn starved(&self) -> u64
        ensures { result ≡ files_starved self.now }
    {
        self.starved
    }

    /// The calls that are to fail of the disk of this name.
    fn calls_of(&self, alloc: Global, name: &str) -> Result<Vec<(Call, u64)>, AllocError>
        ensures { IfOk result (λ calls. calls.items ≡ disk_failing self.now name.now) }
    {
        match self.failing.get(name) {
            Some(calls) => calls.to_vec(alloc),
            None => Ok(Vec::new(alloc)),
        }
    }

    /// Counts a failed call.
    fn fault(&mut self) -> FilesFault
        ensures counted { self.new ≡ record self.old { faults = one_more self.old.faults } }
        ensures never_falls { self.old.faults ≤ self.new.faults }
    {
        raise(&mut self.faults);
        FilesFault
    }

    /// Counts a call that found no memory.
    fn starve(&mut self) -> FilesFault
        ensures counted { self.new ≡ record self.old { faults = one_more self.old.faults; starved = one_more self.old.starved } }
        ensures faults_never_fall { self.old.faults ≤ self.new.faults }
        ensures starved_never_falls { self.old.starved ≤ self.new.starved }
    {
        raise(&mut self.starved);
        self.fault()
    }

    /// Takes the tape at a name where one is held, and leaves the place empty.
    #[tactic(auto, using(std::proofs::lemmas::Map::Text::text_keys))]
    fn take_tape(&mut self, name: &str) -> Tape
        requires { IsSome (held_at self.old name.now) }
        ensures tape { held_at self.old name.now ≡ Some (tape_history result) }
        ensures taken { name_is_taken self.new name.now ≡ true }
        ensures taken_others { SameBut name.now (name_is_taken self.old) (name_is_taken self.new) }
        ensures held_others { SameBut name.now (held_at self.old) (held_at self.new) }
        ensures rest { self.new ≡ record self.old { places = self.new.places } }
    {
        match self.places.get_mut(name) {
            Some(place) => match place.take() {
                Some(tape) => tape,
                None => unreachable!(),
            },
            None => unreachable!(),
        }
    }

    /// Makes an empty place for a name, in which nothing is held any more.
    #[tactic(auto, using(std::proofs::lemmas::Map::Text::text_keys))]
    fn empty_place(&mut self, name: &str) -> Result<(), AllocError>
        ensures taken { OnOk result (name_is_taken self.new name.now ≡ true) }
        ensures held { OnOk result (held_at self.new name.now ≡ None) }
        ensures taken_others { SameBut name.now (name_is_taken self.old) (name_is_taken self.new) }
        ensures held_others { SameBut name.now (held_at self.old) (held_at self.new) }
        ensures kept_taken { OnErr result (SameAll (name_is_taken self.old) (name_is_taken self.new)) }
        ensures kept_held { OnErr result (SameAll (held_at self.old) (held_at self.new)) }
        ensures rest { self.new ≡ record self.old { places = self.new.places } }
    {
        self.places
            .insert(String::from_str(self.alloc, name)?, None)?;
        Ok(())
    }

    /// Puts a tape into the empty place of a name that is taken.
    #[tactic(auto, using(std::proofs::lemmas::Map::Text::text_keys))]
    fn fill_place(&mut self, name: &str, tape: Tape)
        requires { name_is_taken self.old name.now ≡ true }
        ensures free { name_is_taken self.new name.now ≡ false }
        ensures held { held_at self.new name.now ≡ Some (tape_history tape) }
        ensures taken_others { SameBut name.now (name_is_taken self.old) (name_is_taken self.new) }
        ensures held_others { SameBut name.now (held_at self.old) (held_at self.new) }
        ensures rest { self.new ≡ record self.old { places = self.new.places } }
    {
        match self.places.get_mut(name) {
            Some(place) => *place = Some(tape),
            None => unreachable!(),
        }
    }

    /// Removes the place of a name.
    #[tactic(auto, using(std::proofs::lemmas::Map::Text::text_keys))]
    fn drop_place(&mut self, name: &str)
        ensures free { name_is_taken self.new name.now ≡ false }
        ensures held { held_at self.new name.now ≡ None }
        ensures taken_others { SameBut name.now (name_is_taken self.old) (name_is_taken self.new) }
        ensures held_others { SameBut name.now (held_at self.old) (held_at self.new) }
        ensures rest { self.new ≡ record self.old { places = self.new.places } }
    {
        self.places.remove(name);
    }

    /// Makes an empty place for a name that isn't there, and an empty tape.
    fn make_tape(&mut self, alloc: Global, name: &str) -> Result<Tape, AllocError>
        requires { held_at self.old name.now ≡ None }
        ensures tape { IfOk result (λ tape. tape_history tape ≡ began []) }
        ensures taken { OnOk result (name_is_taken self.new name.now ≡ true) }
        ensures taken_others { SameBut name.now (name_is_taken self.old) (name_is_taken self.new) }
        ensures held_others { SameBut name.now (held_at self.old) (held_at self.new) }
        ensures kept_taken { OnErr result (SameAll (name_is_taken self.old) (name_is_taken self.new)) }
        ensures kept_held { OnErr result (SameAll (held_at self.old) (held_at self.new)) }
        ensures rest { self.new ≡ record self.old { places = self.new.places } }
    {
        let tape = Tape::new(alloc, &[])?;
        self.empty_place(name)?;
        Ok(tape)
    }

    /// The tape for the disk of a name: what is held there, or an empty one where no file is there. Its place is empty
    /// then.
    fn tape_for(&mut self, alloc: Global, name: &str, is_there: bool) -> Result<Tape, AllocError>
        requires there { is_there ≡ true → IsSome (held_at self.old name.now) }
        requires missing { is_there ≡ false → held_at self.old name.now ≡ None }
        ensures tape { IfOk result (λ tape. tape_history tape ≡ unwrap_or (held_at self.old name.now) (began [])) }
        ensures taken { OnOk result (name_is_taken self.new name.now ≡ true) }
        ensures taken_others { SameBut name.now (name_is_taken self.old) (name_is_taken self.new) }
        ensures held_others { SameBut name.now (held_at self.old) (held_at self.new) }
        ensures kept_taken { OnErr result (SameAll (name_is_taken self.old) (name_is_taken self.new)) }
        ensures kept_held { OnErr result (SameAll (held_at self.old) (held_at self.new)) }
        ensures rest { self.new ≡ record self.old { places = self.new.places } }
    {
        if is_there {
            Ok(self.take_tape(name))
        } else {
            self.make_tape(alloc, name)
        }
    }

    /// Moves what is held at one name to another, whose file is replaced where there is one.
    fn move_place(&mut self, from: &str, to: &str) -> Result<(), AllocError>
        requires differ { from.now ≢ to.now }
        requires from_there { IsSome (held_at self.old from.now) }
        requires from_free { name_is_taken self.old from.now ≡ false }
        requires to_free { name_is_taken self.old to.now ≡ false }
        ensures taken { SameAll (name_is_taken self.old) (name_is_taken self.new) }
        ensures to { OnOk result (held_at self.new to.now ≡ held_at self.old from.now) }
        ensures from { OnOk result (held_at self.new from.now ≡ None) }
        ensures others { (other : List ℕ) → other ≢ from.now → other ≢ to.now → held_at self.new other ≡ held_at self.old other }
        ensures kept { OnErr result (SameAll (held_at self.old) (held_at self.new)) }
        ensures rest { self.new ≡ record self.old { places = self.new.places } }
    {
        self.empty_place(to)?;
        let tape = self.take_tape(from);
        self.fill_place(to, tape);
        self.drop_place(from);
        Ok(())
    }
}

impl Files for MemFiles {
    type D = MemDisk;

    ghost is_taken = { λ files. name_is_taken files };

    ghost held = { λ files. held_at files };

    ghost faults = { λ files. files_faults files };

    ghost may_take = { λ name how. Unit {0} };

    fn take(&mut self, alloc: Global, name: &str, how: Take) -> Result<MemDisk, TakeRefusal>
        requires { name_is_taken self.old name.now ≡ false }
        ensures named { Fails (files_script self.old) call.Take → IsErrOf result refusal.Missing ⊎ IsErrOf result refusal.There ⊎ IsErrOf result refusal.Failed }
        ensures exact { IsErrOf result refusal.Failed → Fails (files_script self.old) call.Take }
        ensures counted { files_script self.new ≡ counted (files_script self.old) call.Take }
        ensures starved { files_starved self.new ≡ files_starved self.old }
        ensures lists { SameAll (disk_failing self.old) (disk_failing self.new) }
        ensures disk_failing { IfOk result (λ d. (memory_script d).failing.items ≡ disk_failing self.old name.now) }
        ensures disk_made { IfOk result (λ d. (memory_script d).made ≡ unmade) }
        ensures disk_starved { IfOk result (λ d. memory_starved d ≡ 0) }
        ensures missing { IsErrOf result refusal.Missing ↔ ((held_at self.old name.now ≡ None) × (how ≢ mode.New)) }
        ensures there { IsErrOf result refusal.There ↔ (IsSome (held_at self.old name.now) × (how ≡ mode.New)) }
        ensures missing_how { IsErrOf result refusal.Missing → how ≢ mode.New }
        ensures there_how { IsErrOf result refusal.There → how ≡ mode.New }
        ensures taken { OnOk result (name_is_taken self.new name.now ≡ true) }
        ensures taken_others { SameBut name.now (name_is_taken self.old) (name_is_taken self.new) }
        ensures held_others { SameBut name.now (held_at self.old) (held_at self.new) }
        ensures disk { IfOk result (λ d. memory_history d ≡ unwrap_or (held_at self.old name.now) (began [])) }
        ensures empty { IfOk result (λ d. how ≡ mode.New → memory_size d ≡ 0) }
        ensures disk_faults { IfOk result (λ d. memory_faults d ≡ 0) }
        ensures disk_syncs { IfOk result (λ d. memory_syncs d ≡ 0) }
        ensures disk_bytes_read { IfOk result (λ d. memory_bytes_read d ≡ 0) }
        ensures refused_taken { OnErr result (SameAll (name_is_taken self.old) (name_is_taken self.new)) }
        ensures refused_held { OnErr result (SameAll (held_at self.old) (held_at self.new)) }
        ensures cause { HasCauseOf refusal.Failed (files_faults self.old) (files_faults self.new) result }
    {
        let fails = self.script.fails(Call::Take);
        let is_there = self.places.contains_key(name);
        match how {
            Take::New if is_there => Err(TakeRefusal::There),
            Take::Existing | Take::ReadOnly if !is_there => Err(TakeRefusal::Missing),
            _ if fails => {
                raise(&mut self.faults);
                Err(TakeRefusal::Failed)
            }
            _ => {
                let calls = self.calls_of(alloc, name)?;
                let tape = self.tape_for(alloc, name, is_there)?;
                Ok(MemDisk::over(alloc, tape, calls))
            }
        }
    }

    fn give(&mut self, name: &str, d: MemDisk)
        requires { name_is_taken self.old name.now ≡ true }
        ensures script { files_script self.new ≡ files_script self.old }
        ensures lists { SameAll (disk_failing self.old) (disk_failing self.new) }
        ensures starved { files_starved self.new ≡ files_starved self.old }
        ensures free { name_is_taken self.new name.now ≡ false }
        ensures taken_others { SameBut name.now (name_is_taken self.old) (name_is_taken self.new) }
        ensures held { held_at self.new name.now ≡ Some (memory_history d) }
        ensures held_others { SameBut name.now (held_at self.old) (held_at self.new) }
        ensures sound { memory_faults d ≡ 0 → files_faults self.new ≡ files_faults self.old }
        ensures faulty { 0 < memory_faults d → Rose (files_faults self.old) (files_faults self.new) }
        ensures faults { files_faults self.old ≤ files_faults self.new }
    {
        if d.faults() > 0 {
            raise(&mut self.faults);
        }
        self.fill_place(name, d.into_tape());
    }

    fn rename(&mut self, from: &str, to: &str) -> Result<(), FilesFault>
        requires differ { from.now ≢ to.now }
        requires from_free { name_is_taken self.old from.now ≡ false }
        requires to_free { name_is_taken self.old to.now ≡ false }
        ensures fails { FailsExactly call.Rename (files_script self.old) (files_script self.new) (files_starved self.old) (files_starved self.new) result }
        ensures lists { SameAll (disk_failing self.old) (disk_failing self.new) }
        ensures taken { SameAll (name_is_taken self.old) (name_is_taken self.new) }
        ensures to { OnOk result (held_at self.new to.now ≡ moved (held_at self.old from.now) (held_at self.old to.now)) }
        ensures from { OnOk result (held_at self.new from.now ≡ None) }
        ensures others { (other : List ℕ) → other ≢ from.now → other ≢ to.now → held_at self.new other ≡ held_at self.old other }
        ensures kept { OnErr result (SameAll (held_at self.old) (held_at self.new)) }
        ensures cause { HasCause (files_faults self.old) (files_faults self.new) result }
    {
        if self.script.fails(Call::Rename) {
            return Err(self.fault());
        }
        if !self.places.contains_key(from) {
            return Ok(());
        }
        match self.move_place(from, to) {
            Ok(()) => Ok(()),
            Err(AllocError) => Err(self.starve()),
        }
    }

    fn remove(&mut self, name: &str) -> Result<(), FilesFault>
        requires { name_is_taken self.old name.now ≡ false }
        ensures fails { FailsExactly call.Remove (files_script self.old) (files_script self.new) (files_starved self.old) (files_starved self.new) result }
        ensures lists { SameAll (disk_failing self.old) (disk_failing self.new) }
        ensures starved { files_starved self.new ≡ files_starved self.old }
        ensures taken { SameAll (name_is_taken self.old) (name_is_taken self.new) }
        ensures gone { OnOk result (held_at self.new name.now ≡ None) }
        ensures others { SameBut name.now (held_at self.old) (held_at self.new) }
        ensures kept { OnErr result (SameAll (held_at self.old) (held_at self.new)) }
        ensures cause { HasCause (files_faults self.old) (files_faults self.new) result }
    {
        if self.script.fails(Call::Remove) {
            return Err(self.fault());
        }
        self.drop_place(name);
        Ok(())
    }

    ghost taken_holds_nothing = { λ files name. empty_place_holds_nothing (get_by_text files.places name) };
}
