// What a conversion makes of its file: a new one, of other chains, another hash or another byte order; or what it
// stores into one that is there.

ghost use Rattle.std.specs.Prelude.{◌≡◌, ◌<◌, ◌≤◌, IfOk, IfSome};
ghost use Rattle.std.specs.Option.{option_map};
ghost use Rattle.tdb_cmdline.specs.Ask.{TaskFits};
ghost use Rattle.tdb_cmdline.specs.Lines.Convert as C;

use crate::ask::Task;
use crate::lines::create::NewFile;
use crate::names::Text;
use crate::options::Line;
use crate::words::value_of;
use std::alloc::{AllocError, Global};
use tdb_words::Bytes;

/// With what the keys begin of the pairs that are taken, where `--prefix` tells this word or isn't given.
fn prefix_of(alloc: Global, word: Option<&str>) -> Result<Option<Bytes>, AllocError>
    ensures { IfOk result (λ prefix. prefix ≡ C.prefix_of (option_map (λ w. w.now) word.entry)) }
{
    match word {
        Some(word) => value_of(alloc, word),
        None => Ok(Some(Bytes::new(alloc))),
    }
}

/// To make a new file of this name, where it isn't that of the file that is read.
fn task_for(file: &str, new: Text, made: NewFile, prefix: Bytes) -> Option<Task>
    requires some { 0 < made.form.size }
    requires limit { made.limit ≤ 4294963200 }
    ensures read { result ≡ C.task_for file.now new made prefix }
    ensures fits { IfSome result (λ task. TaskFits file.now task) }
{
    if new.as_str() == file {
        return None;
    }
    Some(Task::Convert { new, made, prefix })
}

/// To store the pairs into the file of this name, where it isn't that of the file that is read.
fn merge_for(file: &str, into: Text, prefix: Bytes, limit: u64) -> Option<Task>
    requires limit { limit ≤ 4294963200 }
    ensures read { result ≡ C.merge_for file.now into prefix limit }
    ensures fits { IfSome result (λ task. TaskFits file.now task) }
{
    if into.as_str() == file {
        return None;
    }
    Some(Task::Merge {
        into,
        prefix,
        limit,
    })
}

/// What the words ask for where the pairs are stored into a file that is there.
fn merge_asks(alloc: Global, line: &Line) -> Result<Option<(Text, Task)>, AllocError>
    ensures read { IfOk result (λ asked. asked ≡ C.merge_of line.now) }
    ensures fits { IfOk result (λ asked. IfSome asked (λ a. TaskFits a.0 a.1)) }
{
    let [file, into] = line.positions.as_slice() else {
        return Ok(None);
    };
    let Some(limit) = line.limit() else {
        return Ok(None);
    };
    let Some(prefix) = prefix_of(alloc, line.value_of("--prefix"))? else {
        return Ok(None);
    };
    let into = Text::copy(alloc, into.as_str())?;
    let Some(task) = merge_for(file.as_str(), into, prefix, limit) else {
        return Ok(None);
    };
    let file = Text::copy(alloc, file.as_str())?;
    Ok(Some((file, task)))
}

/// What the words ask for where a new file is made of the pairs.
fn new_asks(alloc: Global, line: &Line) -> Result<Option<(Text, Task)>, AllocError>
    ensures read { IfOk result (λ asked. asked ≡ C.new_of line.now) }
    ensures fits { IfOk result (λ asked. IfSome asked (λ a. TaskFits a.0 a.1)) }
{
    let [file, new, arguments @ ..] = line.positions.as_slice() else {
        return Ok(None);
    };
    let Some(limit) = line.limit() else {
        return Ok(None);
    };
    let Some(made) = NewFile::of(limit, arguments) else {
        return Ok(None);
    };
    let Some(prefix) = prefix_of(alloc, line.value_of("--prefix"))? else {
        return Ok(None);
    };
    let new = Text::copy(alloc, new.as_str())?;
    let Some(task) = task_for(file.as_str(), new, made, prefix) else {
        return Ok(None);
    };
    let file = Text::copy(alloc, file.as_str())?;
    Ok(Some((file, task)))
}

/// What the words behind the command's name ask for: the file, and what is done with it.
pub(crate) fn asks_of(alloc: Global, line: &Line) -> Result<Option<(Text, Task)>, AllocError>
    ensures read { IfOk result (λ asked. asked ≡ C.convert_of line.now) }
    ensures fits { IfOk result (λ asked. IfSome asked (λ a. TaskFits a.0 a.1)) }
{
    if line.has("--into") {
        return merge_asks(alloc, line);
    }
    new_asks(alloc, line)
}
