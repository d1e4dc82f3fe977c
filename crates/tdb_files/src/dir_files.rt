//! The files of the operating system, by path.
ghost use Rattle.std.specs.Prelude.{◌≡◌, ◌≤◌, OnOk, OnErr, List, ℕ, None, Some, true, false, IsSome, IfSome, ◌↔◌, ◌<◌, refl};
ghost use Rattle.tdb_disk.specs.Count.{Rose, HasCause};
ghost use Rattle.tdb_disk.specs.Names.{SameAll, SameBut};

use crate::faults::Faults;
use crate::file_disk::FileDisk;
use crate::file_fault::FileFault;
use crate::finding::{Cause, Finding};
use crate::identity::Identity;
use crate::manner::Manner;
use crate::opening::{Making, Refusal, open};
use crate::part::{is_at, remove_unused};
use crate::progress::Progress;
use crate::reason::Reason;
use crate::replacing::{Access, check_replaced, replace};
use crate::silence::Silence;
use crate::stamp::Stamp;
use std::alloc::{AllocError, Global};
use std::collections::HashSet;
use std::{fs, mem};
use tdb_cache::{Cached, WriteBehind};
use tdb_disk::{Files, FilesFault, Take, TakeRefusal};

/// The files of the operating system. A name is a path, and a relative one begins at the working folder.
///
/// A file is handed out with a cache of its blocks, and a new one is written behind: while it has 1 MiB or less, what
/// is written to it reaches the file at the next sync.
#[derive(Drop)]
pub struct DirFiles {
    rt: HostRuntime,
    taken: HashSet<String>,
    identities: HashSet<Identity>,
    faults: Faults<FileFault>,
    manner: Manner,

    /// The file that is there and was taken last, until it is given back: a new file is a copy of it.
    source: Option<(Identity, Access)>,

    /// Why a file that was made didn't get its name, the last one.
    unnamed: Option<FileFault>,

    /// The last copy that got its name, and that name. It is open and locked until the next call but a `give`, so that
    /// another run which makes the same copy waits until it is renamed.
    named: Option<(String, FileDisk)>,

    /// The file that was there and was given back last, but for those of which a copy was made.
    left: Option<Left>,

    /// The name that was removed last.
    removed: Option<String>,

    /// What begins where a new file gets none.
    silence: Option<Silence>,

    /// For which fault a file was refused.
    finding: Option<Finding>,

    /// The names under which refused files stay that were replaced.
    kept: Vec<String>,

    /// Where a person is told what is read and written.
    progress: Option<Progress>,
}

/// A file that was given back.
#[derive(Drop)]
struct Left {
    name: String,

    /// How it was found, or as this run left it.
    stamp: Stamp,

    /// Why it was refused, if it was.
    cause: Cause,
}

/// Whose permissions a copy has that is made once this file is taken.
fn source_of(
    before: Option<(Identity, Access)>,
    disk: &FileDisk,
    how: Take,
) -> Option<(Identity, Access)> {
    if how == Take::New {
        return before;
    }
    Some((disk.identity(), disk.access()?))
}

impl DirFiles {
    ghost use Rattle.tdb_files.specs.DirFiles.{name_is_taken, dir_faults};

    /// No name is taken, and there are no faults yet.
    pub fn new(rt: HostRuntime) -> DirFiles
        ensures taken { (name : List ℕ) → name_is_taken result name ≡ false }
        ensures faults { dir_faults result ≡ 0 }
    {
        DirFiles {
            rt,
            taken: HashSet::new(rt.alloc()),
            identities: HashSet::new(rt.alloc()),
            faults: Faults::new(),
            manner: Manner::new(),
            source: None,
            unnamed: None,
            named: None,
            left: None,
            removed: None,
            silence: None,
            finding: None,
            kept: Vec::new(rt.alloc()),
            progress: None,
        }
    }

    /// The same files, dealt with in this manner.
    pub fn with_manner(self, manner: Manner) -> DirFiles
        ensures taken { (name : List ℕ) → name_is_taken result name ≡ name_is_taken self name }
        ensures faults { dir_faults result ≡ dir_faults self }
    {
        DirFiles { manner, ..self }
    }

    /// The same files, of which a person is told what is read and written, where there is a place for it.
    pub fn with_progress(self, progress: Option<Progress>) -> DirFiles
        ensures taken { (name : List ℕ) → name_is_taken result name ≡ name_is_taken self name }
        ensures faults { dir_faults result ≡ dir_faults self }
    {
        DirFiles { progress, ..self }
    }

    /// The same files, which begin this where a new file doesn't get its name.
    pub fn with_silence(self, silence: Silence) -> DirFiles
        ensures taken { (name : List ℕ) → name_is_taken result name ≡ name_is_taken self name }
        ensures faults { dir_faults result ≡ dir_faults self }
    {
        DirFiles {
            silence: Some(silence),
            ..self
        }
    }

    /// The same files, which are told by this for which fault a file was refused. Of one that is replaced, and was
    /// refused for none, it is said that its header was.
    pub fn with_finding(self, finding: Finding) -> DirFiles
        ensures taken { (name : List ℕ) → name_is_taken result name ≡ name_is_taken self name }
        ensures faults { dir_faults result ≡ dir_faults self }
    {
        DirFiles {
            finding: Some(finding),
            ..self
        }
    }

    /// What is known of the last fault, of a call or of a disk that was given back; None where there is none.
    pub fn last_fault(&self) -> Option<&FileFault>
        ensures { IsSome result ↔ (0 < dir_faults self.now) }
    {
        self.faults.last()
    }

    /// Why the last of the new files that didn't get their names when they were given back got none. The count of
    /// faults doesn't tell it; None where each got its name.
    pub fn last_unnamed(&self) -> Option<&FileFault> {
        self.unnamed.as_ref()
    }

    /// The name of the file that was refused last for a fault that was found (`Finding`), unless one of its name was
    /// replaced since.
    pub fn last_refused(&self) -> Option<&str> {
        match &self.left {
            Some(left) if matches!(left.cause, Cause::Fault(_, _)) => Some(left.name.as_str()),
            _ => None,
        }
    }

    /// What is known of a file of this name, if it is to be made.
    fn prepare(&mut self, name: &str) -> Making
        ensures rest { self.new ≡ record self.old { named = self.new.named; removed = self.new.removed } }
    {
        self.named = None;
        let is_anew = match self.removed.take() {
            Some(removed) => removed.as_str() == name,
            None => false,
        };
        Making {
            source: self.source.map(|(_, access)| access),
            is_anew,
        }
    }

    /// Forgets a file that is given back.
    fn forget(&mut self, identity: Identity)
        ensures taken { self.new.taken ≡ self.old.taken }
        ensures faults { self.new.faults ≡ self.old.faults }
    {
        self.identities.remove(&identity);
        if self.source.is_some_and(|(source, _)| source == identity) {
            self.source = None;
        }
    }

    /// A new file didn't get its name.
    fn miss_name(&mut self, name: Option<String>, reason: Reason)
        ensures { self.new ≡ record self.old { unnamed = self.new.unnamed } }
    {
        if let Some(silence) = &self.silence {
            silence.begin();
        }
        self.unnamed = Some(FileFault { name, reason });
    }

    /// Whether a new file didn't get this name. One whose name isn't known may have been meant for any.
    fn misses(&self, name: &str) -> bool {
        match &self.unnamed {
            Some(fault) => fault.name().is_none_or(|missed| missed == name),
            None => false,
        }
    }

    /// The file at a name may get another one: it isn't another program's, where this run made one of that name.
    fn check_moved(&self, name: &str) -> Result<(), Reason> {
        if self.misses(name) {
            return Err(Reason::Unnamed);
        }
        match &self.named {
            Some((made, disk)) if made.as_str() == name => {
                if is_at(&self.rt, name, disk.identity())? {
                    Ok(())
                } else {
                    Err(Reason::Changed)
                }
            }
            _ => Ok(()),
        }
    }

    /// The file at a name may be replaced: it is as this run found or left it, if it had it. Why it was refused.
    fn check_left(&self, name: &str) -> Result<Cause, Reason> {
        match &self.left {
            Some(left) if left.name.as_str() == name => {
                if Stamp::of(&fs::metadata(&self.rt, name)?) == left.stamp {
                    Ok(left.cause)
                } else {
                    Err(Reason::Changed)
                }
            }
            _ => Ok(Cause::Unknown),
        }
    }

    /// A file that was refused for a fault stays noted, also behind one that wasn't.
    fn keeps_fault(&self, next: Cause) -> bool {
        self.last_refused().is_some() && !matches!(next, Cause::Fault(_, _))
    }

    /// Notes how a file was found that is given back, or as this run left it, and why it was refused, unless a copy was
    /// made of it.
    fn note_left(&mut self, disk: &FileDisk, name: Option<String>)
        ensures { self.new ≡ record self.old { left = self.new.left } }
    {
        let cause = match &self.finding {
            Some(finding) => finding.take(),
            None => Cause::Unknown,
        };
        if self.named.is_none()
            && !self.keeps_fault(cause)
            && let Some(name) = name
            && let Some(stamp) = disk.stamp()
        {
            self.left = Some(Left { name, stamp, cause });
        }
    }

    /// Gives one file the name of another, where both may.
    fn replace(&self, from: &str, to: &str) -> Result<Option<String>, Reason> {
        self.check_moved(from)?;
        check_replaced(&self.rt, from, to, self.manner)?;
        let cause = self.check_left(to)?;
        replace(&self.rt, from, to, self.manner, cause)
    }

    /// Notes the name under which a refused file stays, where one was replaced and there is memory for it.
    fn note_kept(&mut self, answer: Result<Option<String>, Reason>) -> Result<(), Reason>
        ensures { self.new ≡ record self.old { kept = self.new.kept } }
    {
        if let Some(name) = answer? {
            let _ = self.kept.push(name);
        }
        Ok(())
    }

    /// The names under which refused files stay that were replaced, in the order in which they were. They are told
    /// once.
    pub fn take_kept(&mut self) -> Vec<String>
        ensures { self.new ≡ record self.old { kept = self.new.kept } }
    {
        mem::replace(&mut self.kept, Vec::new(self.rt.alloc()))
    }

    /// Gives a new file its name, where it is whole, and else removes it. Of another file it notes how it is.
    fn publish(&mut self, disk: FileDisk, name: &str, kept: Option<String>)
        ensures { self.new ≡ record self.old { unnamed = self.new.unnamed; named = self.new.named; left = self.new.left } }
    {
        let Some(part) = disk.part() else {
            self.note_left(&disk, kept);
            return;
        };
        if disk.last_fault().is_some() {
            part.discard(&self.rt);
            return;
        }
        let answer = part.publish(&self.rt, name);
        let is_copy = part.is_copy();
        match (answer, kept) {
            (Err(error), kept) => self.miss_name(kept, error.into()),
            (Ok(()), Some(kept)) if is_copy => self.named = Some((kept, disk)),
            _ => {}
        }
    }

    /// The name is taken from here on.
    fn mark(&mut self, alloc: Global, name: &str) -> Result<(), AllocError>
        ensures taken { OnOk result (name_is_taken self.new name.now ≡ true) }
        ensures others { SameBut name.now (name_is_taken self.old) (name_is_taken self.new) }
        ensures kept { OnErr result (SameAll (name_is_taken self.old) (name_is_taken self.new)) }
        ensures rest { self.new ≡ record self.old { taken = self.new.taken } }
    {
        self.taken.insert(String::from_str(alloc, name)?)?;
        Ok(())
    }

    /// The name isn't taken any more. It is given back as it was kept.
    fn unmark(&mut self, name: &str) -> Option<String>
        ensures free { name_is_taken self.new name.now ≡ false }
        ensures others { SameBut name.now (name_is_taken self.old) (name_is_taken self.new) }
        ensures rest { self.new ≡ record self.old { taken = self.new.taken } }
    {
        self.taken.take(name)
    }

    /// Counts a failed call, and keeps why it failed and at which file.
    fn fault(&mut self, name: Option<String>, reason: Reason)
        ensures rose { Rose (dir_faults self.old) (dir_faults self.new) }
        ensures never_falls { dir_faults self.old ≤ dir_faults self.new }
        ensures rest { self.new ≡ record self.old { faults = self.new.faults } }
    {
        self.faults.raise(FileFault { name, reason });
    }

    /// Counts a call that failed at a name, if it did. The name isn't kept where there is no memory for it.
    fn count(&mut self, name: &str, answer: Result<(), Reason>) -> Result<(), FilesFault>
        ensures cause { HasCause (dir_faults self.old) (dir_faults self.new) result }
        ensures rest { self.new ≡ record self.old { faults = self.new.faults } }
    {
        match answer {
            Ok(()) => Ok(()),
            Err(reason) => {
                let kept = String::from_str(self.rt.alloc(), name).ok();
                self.fault(kept, reason);
                Err(FilesFault)
            }
        }
    }
}

impl Files for DirFiles {
    ghost use Rattle.tdb_files.specs.DirFiles.{name_is_taken, dir_faults};

    type D = WriteBehind<Cached<FileDisk>>;

    ghost is_taken = { λ files. name_is_taken files };

    ghost held = { λ files name. None };

    ghost faults = { λ files. dir_faults files };

    ghost may_take = { λ name how. Unit {0} };

    fn take(
        &mut self,
        alloc: Global,
        name: &str,
        how: Take,
    ) -> Result<WriteBehind<Cached<FileDisk>>, TakeRefusal> {
        self.identities.reserve(1)?;
        self.mark(alloc, name)?;
        let making = self.prepare(name);
        match open(&self.rt, name, how, self.manner, making, &self.identities) {
            Ok(disk) => {
                self.identities.insert(disk.identity()).unwrap();
                self.source = source_of(self.source, &disk, how);
                let cached = Cached::new(alloc, disk.with_progress(self.progress));
                Ok(match how {
                    Take::New => WriteBehind::of_empty(alloc, cached),
                    Take::Existing | Take::ReadOnly => WriteBehind::through(cached),
                })
            }
            Err(refusal) => {
                let kept = self.unmark(name);
                match refusal {
                    Refusal::Missing => Err(TakeRefusal::Missing),
                    Refusal::There => Err(TakeRefusal::There),
                    Refusal::Memory => Err(TakeRefusal::Memory),
                    Refusal::Failed(reason) => {
                        self.fault(kept, reason);
                        Err(TakeRefusal::Failed)
                    }
                }
            }
        }
    }

    /// What was written to a new file since its last sync is written as well as it can be, and the file gets its name
    /// then. One of which a call failed is removed; a failure of that last write isn't told, as no command answers Ok
    /// over a new file that it didn't sync.
    fn give(&mut self, name: &str, d: WriteBehind<Cached<FileDisk>>) {
        let kept = self.unmark(name);
        let reason = d.inner().inner().last_fault();
        let disk = d.finish().into_inner();
        self.forget(disk.identity());
        match reason {
            None => self.publish(disk, name, kept),
            Some(reason) => {
                self.publish(disk, name, None);
                self.fault(kept, reason);
            }
        }
    }

    /// A file that has the name of a new one, which lost it or didn't get it, is another program's, and is left alone.
    fn rename(&mut self, from: &str, to: &str) -> Result<(), FilesFault> {
        let answer = self.replace(from, to);
        self.named = None;
        self.left = None;
        let answer = self.note_kept(answer);
        self.count(to, answer)
    }

    /// A file that has the name of a new one, which didn't get it, is another program's, and is left alone.
    fn remove(&mut self, name: &str) -> Result<(), FilesFault> {
        if self.misses(name) {
            return Ok(());
        }
        self.named = None;
        self.removed = String::from_str(self.rt.alloc(), name).ok();
        let answer = remove_unused(&self.rt, name, self.manner.seconds);
        self.count(name, answer)
    }

    ghost taken_holds_nothing = { λ files name taken. refl };
}
