// Two files of one set.

use crate::edits::{removes, take_and_give};
use crate::files::folder::{lay, mode_of};
use crate::files::takes::{Answer, at_once, is_answer};
use tdb_disk::{Files, Take};
use tdb_files::DirFiles;

/// The file that is taken to be read.
const FIRST: &str = "tdb_files_test/first";

/// The same file by another name.
const SECOND: &str = "./tdb_files_test/first";

/// What a take by the second name answers while the file is taken.
static TWICE: Answer = Answer::Failed(
    "./tdb_files_test/first: the file is in use under another name",
);

const COPY: &str = "tdb_files_test/copy";

const ALONE: &str = "tdb_files_test/alone";

/// A file isn't taken by a second name while it is taken, and is taken again once it was given back.
pub(crate) fn refuses_second(rt: HostRuntime) -> Option<bool> {
    lay(rt, FIRST, b"one", 0o640).ok()?;
    let mut files = DirFiles::new(rt);
    let disk = files.take(rt.alloc(), FIRST, Take::ReadOnly).ok()?;
    let refusal = take_and_give(&mut files, rt.alloc(), SECOND, Take::ReadOnly);
    files.give(FIRST, disk);
    let is_answered = is_answer(rt, &files, refusal, &TWICE);
    let again = take_and_give(&mut files, rt.alloc(), FIRST, Take::ReadOnly);
    Some(is_answered && again.is_none())
}

/// A file that is made while another is taken gets the permissions of that one, and up to the next call no other run
/// removes it. One that is made alone is its owner's.
pub(crate) fn makes_copy(rt: HostRuntime) -> Option<bool> {
    lay(rt, FIRST, b"one", 0o640).ok()?;
    let mut files = DirFiles::new(rt);
    let mut other = DirFiles::new(rt).with_manner(at_once());
    let disk = files.take(rt.alloc(), FIRST, Take::ReadOnly).ok()?;
    let refusal = take_and_give(&mut files, rt.alloc(), COPY, Take::New);
    files.give(FIRST, disk);
    let is_copy = refusal.is_none() && mode_of(rt, COPY).ok()? == 0o640;
    let is_held = !removes(&mut other, COPY);
    let refusal = take_and_give(&mut files, rt.alloc(), ALONE, Take::New);
    let is_alone = refusal.is_none() && mode_of(rt, ALONE).ok()? == 0o600;
    Some(is_copy && is_held && is_alone && removes(&mut other, COPY))
}
