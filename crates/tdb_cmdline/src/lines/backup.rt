// What a backup copies, or verifies: the names of its files and of their copies.

ghost use Rattle.std.specs.Prelude.{◌≡◌, ◌∷◌, ◌++◌, ℕ, List, not, IfOk, IfSome, OnOk};
ghost use Rattle.tdb_cmdline.specs.Ask.{TaskFits};
ghost use Rattle.tdb_cmdline.specs.CopyNames.{copy_name, made_name as made_at};
ghost use Rattle.tdb_cmdline.specs.Lines.Backup as L;

use crate::ask::Task;
use crate::names::{Names, Text};
use crate::options::Line;
use std::alloc::{AllocError, Global};
use std::collections::BTreeSet;
use tdb_words::Bytes;

/// The suffix of the copies.
fn suffix_in(alloc: Global, line: &Line) -> Result<Text, AllocError>
    ensures { IfOk result (λ suffix. suffix ≡ L.suffix_in line.now) }
{
    match line.value_of("-s") {
        Some(suffix) => Text::copy(alloc, suffix),
        None => Text::copy(alloc, ".bak"),
    }
}

/// What is asked for with these files and this suffix: the first file, and to copy or to verify it and the others.
fn asks_for(
    alloc: Global,
    verify: bool,
    suffix: Text,
    files: Names,
) -> Result<Option<(Text, Task)>, AllocError>
    ensures read { IfOk result (λ asked. asked ≡ L.asks_for verify suffix files) }
    ensures fits { IfOk result (λ asked. IfSome asked (λ a. TaskFits a.0 a.1)) }
{
    let Some((file, more)) = files.split_first() else {
        return Ok(None);
    };
    let names = all_names(
        alloc,
        file.as_str(),
        more.as_slice(),
        suffix.as_str(),
        verify,
    )?;
    if !all_differ(alloc, names.as_slice())? {
        return Ok(None);
    }
    if verify {
        return Ok(Some((file, Task::Verify { more, suffix })));
    }
    Ok(Some((file, Task::Backup { more, suffix })))
}

/// What the words behind the command's name ask for.
pub(crate) fn asks_of(alloc: Global, line: Line) -> Result<Option<(Text, Task)>, AllocError>
    ensures read { IfOk result (λ asked. asked ≡ L.asks_of line) }
    ensures fits { IfOk result (λ asked. IfSome asked (λ a. TaskFits a.0 a.1)) }
{
    let verify = line.has("-v");
    let suffix = suffix_in(alloc, &line)?;
    asks_for(alloc, verify, suffix, line.positions)
}

/// Adds a name to those that were seen, and says whether it is a new one.
fn see(alloc: Global, seen: &mut BTreeSet<Bytes>, name: &str) -> Result<bool, AllocError>
    ensures { IfOk result (λ new. (before : List (List ℕ)) → L.HasNames seen.old before → (new ≡ not (L.is_one_of name.now before)) × L.HasNames seen.new (name.now ∷ before)) }
{
    let key = Bytes::copy(alloc, name.as_bytes())?;
    let new = seen.insert(key)?;
    Ok(new)
}

/// Whether these names are all different.
fn all_differ(alloc: Global, names: &[Text]) -> Result<bool, AllocError>
    ensures { IfOk result (λ differ. differ ≡ L.all_differ names.now) }
{
    let mut seen = BTreeSet::new(alloc);
    for name in names {
        let is_new = see(alloc, &mut seen, name.as_str())?;
        if !is_new {
            return Ok(false);
        }
    }
    Ok(true)
}

/// The name at which a file is made: beside that of its copy, or where it is verified beside its own.
fn made_name(alloc: Global, file: &str, copy: &str, verify: bool) -> Result<Text, AllocError>
    ensures { IfOk result (λ name. (suffix : List ℕ) → copy.now ≡ copy_name suffix file.now → name ≡ made_at verify suffix file.now) }
{
    if verify {
        Text::joined(alloc, file, ".tmp")
    } else {
        Text::joined(alloc, copy, ".tmp")
    }
}

/// Adds the names that a file and its copy have, and the one at which a file is made.
fn push_names(
    alloc: Global,
    names: &mut Names,
    file: &str,
    suffix: &str,
    verify: bool,
) -> Result<(), AllocError>
    ensures { OnOk result (names.new ≡ names.old ++ L.names_of verify suffix.now file.now) }
{
    let own = Text::copy(alloc, file)?;
    let copy = Text::joined(alloc, file, suffix)?;
    let made = made_name(alloc, file, copy.as_str(), verify)?;
    names.push(own)?;
    names.push(copy)?;
    names.push(made)
}

/// The names that these files and their copies have, and those at which files are made.
fn all_names(
    alloc: Global,
    file: &str,
    more: &[Text],
    suffix: &str,
    verify: bool,
) -> Result<Names, AllocError>
    ensures { IfOk result (λ names. names ≡ L.all_names verify suffix.now (file.now ∷ more.now)) }
{
    let mut names = Names::new(alloc);
    push_names(alloc, &mut names, file, suffix, verify)?;
    for name in more {
        push_names(alloc, &mut names, name.as_str(), suffix, verify)?;
    }
    Ok(names)
}
