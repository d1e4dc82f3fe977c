// The command that tells how many keys files have, and restores those that are refused from their copies.

ghost use Rattle.std.specs.Prelude.{◌≡◌, ◌≢◌, ◌⊎◌, ◌&&◌, ◌++◌, ◌∷◌, ℕ, List, [], true, false, codes, IsTrue, IfOk, IfErr, OnOk};
ghost use Rattle.tdb_cmdline.specs.CopyNames.{copy_name, temporary_name, IsNameOf, IsNameAmong, VerifyFits};
ghost use Rattle.tdb_disk.specs.Count.{HasCause, HasCauseOf};
ghost use Rattle.tdb_disk.specs.Names.{SameBut};
ghost use Rattle.tdb_answer.specs.declared.ending.Ending.TheVariants.{DeviceFault as DeviceIs, NoMemory as MemoryIs, Usage};
ghost use Rattle.tdb_answer.specs.declared.commands.verify.Unverified.TheVariants as Is;
ghost use Rattle.tdb_answer.specs.Commands.Backup.{copy_ending, HasKeys, BackedUpOne};
ghost use Rattle.tdb_answer.specs.Commands.Restore.{of_input};
ghost use Rattle.tdb_answer.specs.Commands.Verify as V;
ghost use Rattle.tdb_answer.specs.Ending.{CountedBy};
ghost use Rattle.tdb_answer.specs.Heard.{OpenHeard, CopiedHeard, CountHeard, VerifyHeard, count_ending};
ghost use Rattle.tdb_answer.specs.Looks.{ending_of, Began};
ghost use Rattle.tdb_disk.specs.declared.files.Take.TheVariants as Way;
ghost use Rattle.tdb_answer.specs.Takes.{MayTakeEach, verified_take};

use crate::commands::backup::back_up_as;
use crate::ending::{Ending, Reply, Unprinted};
use itoa::Buffer;
use std::alloc::{AllocError, Global};
use tdb_cmdline::Text;
use tdb_disk::{Files, Sink, SinkFault, Take};
use tdb_log::Logs;
use tdb_open::Opened;
use tdb_words::Bytes;

/// Why not all files were verified and told.
#[derive(Drop)]
pub(crate) enum Unverified {
    /// The run ends so.
    Ends(Ending),

    /// The output failed.
    Unprinted,
}

impl From<Ending> for Unverified {
    ghost from_gives = { λ ending e. e ≡ Is.Ends ending };

    fn from(ending: Ending) -> Self {
        Unverified::Ends(ending)
    }
}

impl From<AllocError> for Unverified {
    ghost from_gives = { λ _ e. e ≡ Is.Ends MemoryIs };

    fn from(_: AllocError) -> Self {
        Unverified::Ends(Ending::NoMemory)
    }
}

impl From<SinkFault> for Unverified {
    ghost from_gives = { λ _ e. e ≡ Is.Unprinted };

    fn from(_: SinkFault) -> Self {
        Unverified::Unprinted
    }
}

/// The line that tells that a file is restored.
fn restoring_line(alloc: Global, file: &str) -> Result<Bytes, AllocError>
    ensures { IfOk result (λ line. line ≡ V.restoring_line file.now) }
{
    let mut line = Bytes::copy(alloc, b"restoring ")?;
    line.push_all(file.as_bytes())?;
    line.push_all(b"\n")?;
    Ok(line)
}

/// The line that tells how many keys a file has.
fn count_line(alloc: Global, file: &str, keys: u64) -> Result<Bytes, AllocError>
    ensures { IfOk result (λ line. line ≡ V.count_line file.now keys) }
{
    let mut number = Buffer::new();
    let mut line = Bytes::copy(alloc, file.as_bytes())?;
    line.push_all(b" : ")?;
    line.push_all(number.format(keys).as_bytes())?;
    line.push_all(b" records")?;
    line.push_all(b"\n")?;
    Ok(line)
}

/// Tells that a file is restored.
fn tell_restoring<K: Sink>(alloc: Global, file: &str, output: &mut K) -> Result<(), Unverified>
    ensures told { OnOk result (V.Took K.tells (K.written output.old) (V.restoring_line file.now) (K.written output.new)) }
    ensures untold { IfErr result (λ u. V.LineUntold K.tells (V.restoring_line file.now) (K.written output.old) (K.written output.new) u) }
    ensures known { IfErr result (λ u. (u ≡ Is.Ends MemoryIs) ⊎ (u ≡ Is.Unprinted)) }
    ensures cause { HasCauseOf Is.Unprinted (K.faults output.old) (K.faults output.new) result }
{
    let line = restoring_line(alloc, file)?;
    output.write(line.as_slice())?;
    Ok(())
}

/// Tells how many keys a file has.
fn tell_count<K: Sink>(
    alloc: Global,
    file: &str,
    keys: u64,
    output: &mut K,
) -> Result<(), Unverified>
    ensures told { OnOk result (V.Took K.tells (K.written output.old) (V.count_line file.now keys) (K.written output.new)) }
    ensures untold { IfErr result (λ u. V.LineUntold K.tells (V.count_line file.now keys) (K.written output.old) (K.written output.new) u) }
    ensures known { IfErr result (λ u. (u ≡ Is.Ends MemoryIs) ⊎ (u ≡ Is.Unprinted)) }
    ensures cause { HasCauseOf Is.Unprinted (K.faults output.old) (K.faults output.new) result }
{
    let line = count_line(alloc, file, keys)?;
    output.write(line.as_slice())?;
    Ok(())
}

/// Opens the file of this name, and gives the number of its keys.
fn count_keys<F: Files, L: Logs>(
    alloc: Global,
    file: &str,
    files: &mut F,
    logs: &mut L,
) -> Result<u64, Ending>
    requires free { (other : List ℕ) → F.is_taken files.old other ≡ false }
    requires take { F.may_take file.now Way.Existing }
    ensures counted { IfOk result (λ n. IsTrue F.D.tells → V.OwnKeys (F.held files.old file.now) (F.held files.new file.now) n) }
    ensures unopened { IfErr result (λ e. IsTrue F.D.tells → V.NotOpened file.now (F.held files.old file.now) (F.held files.new file.now) e) }
    ensures known { IfErr result V.EndsUnverified }
    ensures cause { HasCauseOf DeviceIs (F.faults files.old) (F.faults files.new) result }
    ensures others { SameBut file.now (F.held files.old) (F.held files.new) }
    ensures given_back { (other : List ℕ) → F.is_taken files.new other ≡ false }
    ensures heard { IsTrue F.D.tells → OpenHeard (F.held files.old file.now) (copy_ending result) (L.logs logs.old) (L.logs logs.new) }
{
    let mut disk = match files.take(alloc, file, Take::Existing) {
        Ok(disk) => disk,
        Err(refusal) => return Err(Ending::untaken(alloc, file, refusal)),
    };
    let opened = Opened::open(alloc, &mut disk, logs);
    files.give(file, disk);
    match opened {
        Ok(opened) => Ok(opened.report.live),
        Err(halt) => Err(Ending::from(halt)),
    }
}

/// Puts a copy of its own copy in the place of the file of this name, and gives the number of its keys.
fn restore_file<F: Files, L: Logs>(
    alloc: Global,
    file: &str,
    suffix: &str,
    files: &mut F,
    logs: &mut L,
) -> Result<u64, Ending>
    requires some { suffix.now ≢ [] }
    requires other { suffix.now ≢ codes ".tmp" }
    requires free { (other : List ℕ) → F.is_taken files.old other ≡ false }
    requires take_copy { F.may_take (copy_name suffix.now file.now) Way.Existing }
    requires take_new { F.may_take (temporary_name file.now) Way.New }
    ensures done { IsTrue F.D.tells → BackedUpOne (copy_name suffix.now file.now) file.now (temporary_name file.now) (F.held files.old) (F.held files.new) (F.faults files.old) (F.faults files.new) (copy_ending result) }
    ensures keys { IfOk result (λ n. IsTrue F.D.tells → HasKeys (F.held files.old (copy_name suffix.now file.now)) n) }
    ensures known { IfErr result V.EndsUnverified }
    ensures counted { CountedBy (F.faults files.old) (F.faults files.new) (copy_ending result) }
    ensures others { (other : List ℕ) → (IsNameOf true suffix.now file.now other → ⊥) → F.held files.new other ≡ F.held files.old other }
    ensures given_back { (other : List ℕ) → F.is_taken files.new other ≡ false }
    ensures heard { IsTrue F.D.tells → CopiedHeard (F.held files.old (copy_name suffix.now file.now)) (copy_ending result) (L.logs logs.old) (L.logs logs.new) }
{
    let Ok(copy) = Text::joined(alloc, file, suffix) else {
        return Err(Ending::NoMemory);
    };
    let Ok(new) = Text::joined(alloc, file, ".tmp") else {
        return Err(Ending::NoMemory);
    };
    back_up_as(alloc, copy.as_str(), file, new.as_str(), files, logs)
}

/// The number of keys of the file of this name, which is restored from its copy where it has a fault.
fn find_keys<F: Files, K: Sink, L: Logs>(
    alloc: Global,
    file: &str,
    suffix: &str,
    files: &mut F,
    output: &mut K,
    logs: &mut L,
) -> Result<u64, Unverified>
    requires some { suffix.now ≢ [] }
    requires other { suffix.now ≢ codes ".tmp" }
    requires free { (other : List ℕ) → F.is_taken files.old other ≡ false }
    requires take { MayTakeEach F.may_take (verified_take suffix.now (file.now ∷ [])) }
    ensures found { IfOk result (λ n. IsTrue F.D.tells → V.KeysFound K.tells file.now (V.at_names suffix.now file.now (F.held files.old)) (V.at_names suffix.now file.now (F.held files.new)) (K.written output.old) (K.written output.new) n) }
    ensures unfound { IfErr result (λ u. IsTrue F.D.tells → V.FileUntold K.tells suffix.now file.now (V.at_names suffix.now file.now (F.held files.old)) (V.at_names suffix.now file.now (F.held files.new)) (K.written output.old) (K.written output.new) u) }
    ensures known { IfErr result V.IsKnown }
    ensures cause { HasCauseOf (Is.Ends DeviceIs) (F.faults files.old) (F.faults files.new) result }
    ensures output_cause { HasCauseOf Is.Unprinted (K.faults output.old) (K.faults output.new) result }
    ensures others { (other : List ℕ) → (IsNameOf true suffix.now file.now other → ⊥) → F.held files.new other ≡ F.held files.old other }
    ensures given_back { (other : List ℕ) → F.is_taken files.new other ≡ false }
    ensures heard { IsTrue F.D.tells → CountHeard (F.held files.old file.now) (F.held files.old (copy_name suffix.now file.now)) (count_ending result) (L.logs logs.old) (L.logs logs.new) }
{
    let ending = match count_keys(alloc, file, files, logs) {
        Ok(keys) => return Ok(keys),
        Err(ending) => ending,
    };
    if !ending.tells_fault() {
        return Err(Unverified::Ends(ending));
    }
    tell_restoring(alloc, file, output)?;
    let keys = restore_file(alloc, file, suffix, files, logs)?;
    Ok(keys)
}

/// Verifies the file of this name, and tells how many keys it has.
fn verify_file<F: Files, K: Sink, L: Logs>(
    alloc: Global,
    file: &str,
    suffix: &str,
    files: &mut F,
    output: &mut K,
    logs: &mut L,
) -> Result<(), Unverified>
    requires some { suffix.now ≢ [] }
    requires other { suffix.now ≢ codes ".tmp" }
    requires free { (other : List ℕ) → F.is_taken files.old other ≡ false }
    requires take { MayTakeEach F.may_take (verified_take suffix.now (file.now ∷ [])) }
    ensures told { OnOk result (IsTrue F.D.tells → V.FileTold K.tells file.now (V.at_names suffix.now file.now (F.held files.old)) (V.at_names suffix.now file.now (F.held files.new)) (K.written output.old) (K.written output.new)) }
    ensures untold { IfErr result (λ u. IsTrue F.D.tells → V.FileUntold K.tells suffix.now file.now (V.at_names suffix.now file.now (F.held files.old)) (V.at_names suffix.now file.now (F.held files.new)) (K.written output.old) (K.written output.new) u) }
    ensures known { IfErr result V.IsKnown }
    ensures cause { HasCauseOf (Is.Ends DeviceIs) (F.faults files.old) (F.faults files.new) result }
    ensures output_cause { HasCauseOf Is.Unprinted (K.faults output.old) (K.faults output.new) result }
    ensures others { (other : List ℕ) → (IsNameOf true suffix.now file.now other → ⊥) → F.held files.new other ≡ F.held files.old other }
    ensures given_back { (other : List ℕ) → F.is_taken files.new other ≡ false }
    ensures heard { IsTrue F.D.tells → CountHeard (F.held files.old file.now) (F.held files.old (copy_name suffix.now file.now)) (count_ending result) (L.logs logs.old) (L.logs logs.new) }
{
    let keys = find_keys(alloc, file, suffix, files, output, logs)?;
    tell_count(alloc, file, keys, output)
}

/// Verifies the file of this name and more ones. The first one that isn't verified ends it.
fn verify_files<F: Files, K: Sink, L: Logs>(
    alloc: Global,
    file: &str,
    more: &[Text],
    suffix: &str,
    files: &mut F,
    output: &mut K,
    logs: &mut L,
) -> Result<(), Unverified>
    requires fits { VerifyFits suffix.now (file.now ∷ more.now) }
    requires free { (other : List ℕ) → F.is_taken files.old other ≡ false }
    requires take { MayTakeEach F.may_take (verified_take suffix.now (file.now ∷ more.now)) }
    ensures told { OnOk result (IsTrue F.D.tells → V.AllTold K.tells suffix.now (file.now ∷ more.now) (F.held files.old) (F.held files.new) (K.written output.old) (K.written output.new)) }
    ensures untold { IfErr result (λ u. IsTrue F.D.tells → V.SomeUntold K.tells suffix.now (file.now ∷ more.now) (F.held files.old) (F.held files.new) (K.written output.old) (K.written output.new) u) }
    ensures known { IfErr result V.IsKnown }
    ensures cause { HasCauseOf (Is.Ends DeviceIs) (F.faults files.old) (F.faults files.new) result }
    ensures output_cause { HasCauseOf Is.Unprinted (K.faults output.old) (K.faults output.new) result }
    ensures others { (other : List ℕ) → (IsNameAmong true suffix.now (file.now ∷ more.now) other → ⊥) → F.held files.new other ≡ F.held files.old other }
    ensures given_back { (other : List ℕ) → F.is_taken files.new other ≡ false }
    ensures heard { IsTrue F.D.tells → VerifyHeard suffix.now (file.now ∷ more.now) (F.held files.old) (count_ending result) (L.logs logs.old) (L.logs logs.new) }
{
    verify_file(alloc, file, suffix, files, output, logs)?;
    for name in more {
        verify_file(alloc, name.as_str(), suffix, files, output, logs)?;
    }
    Ok(())
}

/// Verifies the file of this name and more ones: each is opened, and it is told how many keys it has. One that has a
/// fault is restored before from its copy, whose name has the suffix, and that is told too. The first one that isn't
/// verified ends it.
pub(crate) fn verify<F: Files, K: Sink, L: Logs>(
    alloc: Global,
    file: &str,
    more: &[Text],
    suffix: &str,
    files: &mut F,
    output: &mut K,
    logs: &mut L,
) -> Result<Ending, Unprinted>
    requires fits { VerifyFits suffix.now (file.now ∷ more.now) }
    requires free { (other : List ℕ) → F.is_taken files.old other ≡ false }
    requires take { MayTakeEach F.may_take (verified_take suffix.now (file.now ∷ more.now)) }
    ensures cause { IsTrue F.D.tells → V.VerifyCause suffix.now (file.now ∷ more.now) (F.held files.old) (F.faults files.old) (F.faults files.new) (ending_of result) }
    ensures left { IsTrue F.D.tells → V.VerifyLeaves suffix.now (file.now ∷ more.now) (F.held files.old) (ending_of result) (F.held files.new) }
    ensures began { IsTrue (K.tells && F.D.tells) → Began (V.VerifyText suffix.now (file.now ∷ more.now) (F.held files.old)) (K.written output.old) (K.written output.new) result }
    ensures counted { CountedBy (F.faults files.old) (F.faults files.new) (ending_of result) }
    ensures output_cause { HasCause (K.faults output.old) (K.faults output.new) result }
    ensures others { (other : List ℕ) → (IsNameAmong true suffix.now (file.now ∷ more.now) other → ⊥) → F.held files.new other ≡ F.held files.old other }
    ensures given_back { (other : List ℕ) → F.is_taken files.new other ≡ false }
    ensures asked { ending_of result ≡ Usage → ⊥ }
    ensures unread { of_input (ending_of result) ≡ false }
    ensures heard { IsTrue F.D.tells → VerifyHeard suffix.now (file.now ∷ more.now) (F.held files.old) (ending_of result) (L.logs logs.old) (L.logs logs.new) }
{
    match verify_files(alloc, file, more, suffix, files, output, logs) {
        Ok(()) => Ok(Ending::Replied(Reply::Verified)),
        Err(Unverified::Ends(ending)) => Ok(ending),
        Err(Unverified::Unprinted) => Err(Unprinted::Files),
    }
}
