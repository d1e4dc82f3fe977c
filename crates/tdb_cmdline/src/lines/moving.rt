// What is moved: one key of a file with its value, into another file.

ghost use Rattle.std.specs.Prelude.{◌≡◌, ◌<◌, ◌≤◌, ◌^◌, length, IfOk, IfSome};
ghost use Rattle.tdb_cmdline.specs.Ask.{TaskFits};
ghost use Rattle.tdb_cmdline.specs.Lines.Moving as M;

use crate::ask::Task;
use crate::names::Text;
use crate::words::value_of;
use std::alloc::{AllocError, Global};
use tdb_words::Bytes;

/// To move the key into the file of this name, where it isn't that of the file that has it.
fn task_for(file: &str, limit: u64, key: Bytes, into: Text) -> Option<Task>
    requires limit { limit ≤ 4294963200 }
    requires short { length key < 2 ^ 32 }
    ensures read { result ≡ M.task_for file.now limit key into }
    ensures fits { IfSome result (λ task. TaskFits file.now task) }
{
    if into.as_str() == file {
        return None;
    }
    Some(Task::Move { key, into, limit })
}

/// Reads the arguments of `move` on this file, where each of the two files may have so many bytes.
pub(crate) fn task_of(
    alloc: Global,
    file: &str,
    limit: u64,
    arguments: &[Text],
) -> Result<Option<Task>, AllocError>
    requires limit { limit ≤ 4294963200 }
    ensures read { IfOk result (λ task. task ≡ M.move_of file.now limit arguments.now) }
    ensures fits { IfOk result (λ task. IfSome task (λ t. TaskFits file.now t)) }
{
    let [word, into] = arguments else {
        return Ok(None);
    };
    let Some(key) = value_of(alloc, word.as_str())? else {
        return Ok(None);
    };
    let into = Text::copy(alloc, into.as_str())?;
    Ok(task_for(file, limit, key, into))
}
