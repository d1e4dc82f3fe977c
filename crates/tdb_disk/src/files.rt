//! A set of files by name. A file is taken out of it as a disk and given back.
ghost use Rattle.std.specs.Prelude.{◌≡◌, ◌≢◌, ◌<◌, ◌≤◌, ◌↔◌, ℕ, List, [], Bool, true, false, Option, Some, None, IsTrue, IsSome, unwrap_or, IfOk, OnOk, OnErr, IsErrOf};
ghost use Rattle.tdb_disk.specs.Count.{HasCause, HasCauseOf, Rose};
ghost use Rattle.tdb_disk.specs.History.{History, began};
ghost use Rattle.tdb_disk.specs.Names.{SameAll, SameBut, moved};
ghost use Rattle.tdb_disk.specs.declared.files.Take.{Take};
ghost use Rattle.tdb_disk.specs.declared.files.TakeRefusal.{TakeRefusal};

use crate::disk::Disk;
use std::alloc::{AllocError, Global};
use thiserror::Error;

/// How a file is taken.
#[derive(Clone, Copy, Debug, PartialEq, Eq)]
pub enum Take {
    /// A file that is there.
    Existing,
    /// A file that is there, and that isn't changed.
    ReadOnly,
    /// A file that isn't there yet, and is empty then.
    New,
}

/// Why a file wasn't taken.
#[derive(Clone, Copy, Debug, PartialEq, Eq, Error)]
pub enum TakeRefusal {
    #[error("missing")]
    Missing,
    #[error("already there")]
    There,
    #[error("files fault")]
    Failed,
    #[error("out of memory")]
    Memory,
}

impl From<AllocError> for TakeRefusal {
    ghost use Rattle.tdb_disk.specs.declared.files.TakeRefusal.TheVariants.{Memory};

    ghost from_gives = { λ _ refusal. refusal ≡ Memory };

    fn from(_error: AllocError) -> TakeRefusal {
        TakeRefusal::Memory
    }
}

/// A call of a set of files that failed.
#[derive(Clone, Copy, Debug, PartialEq, Eq, Error)]
#[error("files fault")]
pub struct FilesFault;

/// Files by name. Which names are taken is always known. What is held at the others is known where the disks tell.
pub trait Files {
    type D: Disk;

    /// Whether a name is taken.
    ghost is_taken: { Self → List ℕ → Bool };

    /// What is held at a name, as the history of its disk; None where no file is there or it is taken.
    /// It says something of the files only where their disks tell.
    ghost held: { Self → List ℕ → Option History };

    /// How many calls have failed, and how many disks with faults were given back.
    ghost faults: { Self → ℕ };

    /// Whether a name may be taken in a way. A set of files lets each be taken in any; a function that takes files asks
    /// in its `requires` for those ways alone in which it takes them, and so tells them.
    ghost may_take: { List ℕ → Take → Type 0 };

    /// Takes a file out of the set, as a disk that has no faults yet, and makes the room that giving it back needs.
    /// `Missing` is answered exactly where the file isn't there and `how` isn't `New`, `There` exactly where it is and
    /// `how` is `New`, `Failed` only where the count of faults rose, `Memory` where there was no memory. A refusal
    /// leaves the files as they were, and no answer but `Failed` raises the count.
    fn take(&mut self, alloc: Global, name: &str, how: Take) -> Result<Self::D, TakeRefusal>
        requires free { is_taken self.old name.now ≡ false }
        requires way { may_take name.now how }
        ensures missing { IsTrue Self.D.tells → IsErrOf result TakeRefusal.Missing ↔ ((held self.old name.now ≡ None) × (how ≢ Take.New)) }
        ensures there { IsTrue Self.D.tells → IsErrOf result TakeRefusal.There ↔ (IsSome (held self.old name.now) × (how ≡ Take.New)) }
        ensures missing_how { IsErrOf result TakeRefusal.Missing → how ≢ Take.New }
        ensures there_how { IsErrOf result TakeRefusal.There → how ≡ Take.New }
        ensures taken { OnOk result (is_taken self.new name.now ≡ true) }
        ensures taken_others { SameBut name.now (is_taken self.old) (is_taken self.new) }
        ensures held_others { SameBut name.now (held self.old) (held self.new) }
        ensures disk { IfOk result (λ d. IsTrue Self.D.tells → Self.D.history d ≡ unwrap_or (held self.old name.now) (began [])) }
        ensures empty { IfOk result (λ d. how ≡ Take.New → Self.D.size d ≡ 0) }
        ensures disk_faults { IfOk result (λ d. Self.D.faults d ≡ 0) }
        ensures disk_syncs { IfOk result (λ d. Self.D.syncs d ≡ 0) }
        ensures disk_bytes_read { IfOk result (λ d. Self.D.bytes_read d ≡ 0) }
        ensures refused_taken { OnErr result (SameAll (is_taken self.old) (is_taken self.new)) }
        ensures refused_held { OnErr result (SameAll (held self.old) (held self.new)) }
        ensures cause { HasCauseOf TakeRefusal.Failed (faults self.old) (faults self.new) result };

    /// Gives a disk back, which is then held at the name with all that was done to it. It can't fail and takes no
    /// memory. The count of faults rises exactly where the disk has faults.
    fn give(&mut self, name: &str, d: Self::D)
        requires { is_taken self.old name.now ≡ true }
        ensures free { is_taken self.new name.now ≡ false }
        ensures taken_others { SameBut name.now (is_taken self.old) (is_taken self.new) }
        ensures held { IsTrue Self.D.tells → held self.new name.now ≡ Some (Self.D.history d) }
        ensures held_others { SameBut name.now (held self.old) (held self.new) }
        ensures sound { Self.D.faults d ≡ 0 → faults self.new ≡ faults self.old }
        ensures faulty { 0 < Self.D.faults d → Rose (faults self.old) (faults self.new) }
        ensures faults { faults self.old ≤ faults self.new };

    /// Gives the file at `from` the name `to`, whose file is replaced where there is one. Where no file is at `from`,
    /// or after a fault, all names stay as they were.
    fn rename(&mut self, from: &str, to: &str) -> Result<(), FilesFault>
        requires differ { from.now ≢ to.now }
        requires from_free { is_taken self.old from.now ≡ false }
        requires to_free { is_taken self.old to.now ≡ false }
        ensures taken { SameAll (is_taken self.old) (is_taken self.new) }
        ensures to { OnOk result (IsTrue Self.D.tells → held self.new to.now ≡ moved (held self.old from.now) (held self.old to.now)) }
        ensures from { OnOk result (IsTrue Self.D.tells → held self.new from.now ≡ None) }
        ensures others { (other : List ℕ) → other ≢ from.now → other ≢ to.now → held self.new other ≡ held self.old other }
        ensures kept { OnErr result (SameAll (held self.old) (held self.new)) }
        ensures cause { HasCause (faults self.old) (faults self.new) result };

    /// Removes the file at a name. A name where there is none is Ok. After a fault all names stay as they were.
    fn remove(&mut self, name: &str) -> Result<(), FilesFault>
        requires { is_taken self.old name.now ≡ false }
        ensures taken { SameAll (is_taken self.old) (is_taken self.new) }
        ensures gone { OnOk result (IsTrue Self.D.tells → held self.new name.now ≡ None) }
        ensures others { SameBut name.now (held self.old) (held self.new) }
        ensures kept { OnErr result (SameAll (held self.old) (held self.new)) }
        ensures cause { HasCause (faults self.old) (faults self.new) result };

    /// A name that is taken isn't among those at which something is held.
    ghost taken_holds_nothing: { (files : Self) (name : List ℕ) → is_taken files name ≡ true → held files name ≡ None };
}
