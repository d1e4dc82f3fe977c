// What a dump prints of its file: all pairs, the value of one key, or what can still be read of it.

ghost use Rattle.std.specs.Prelude.{◌≡◌, ℕ, List, IfOk, IfSome};
ghost use Rattle.std.specs.Option.{option_map};
ghost use Rattle.tdb_cmdline.specs.Ask.{LookFits, TaskFits};
ghost use Rattle.tdb_cmdline.specs.Lines.Dump as D;

use crate::ask::Task;
use crate::look::Look;
use crate::words::value_of;
use std::alloc::{AllocError, Global};

/// What is asked of the file, where `-k` tells this key or isn't given.
fn look_of(alloc: Global, key: Option<&str>) -> Result<Option<Look>, AllocError>
    ensures read { IfOk result (λ look. look ≡ D.look_of (option_map (λ word. word.now) key.entry)) }
    ensures fits { IfOk result (λ look. IfSome look LookFits) }
{
    let Some(word) = key else {
        return Ok(Some(Look::Dump));
    };
    match value_of(alloc, word)? {
        Some(key) => Ok(Some(Look::Value { key })),
        None => Ok(None),
    }
}

/// What is to be done with the file, where `-e` is given or not, and `-k` tells this key or isn't given.
pub(crate) fn task_of(
    alloc: Global,
    damaged: bool,
    key: Option<&str>,
) -> Result<Option<Task>, AllocError>
    ensures read { IfOk result (λ task. task ≡ D.task_of damaged (option_map (λ word. word.now) key.entry)) }
    ensures fits { IfOk result (λ task. IfSome task (λ t. (file : List ℕ) → TaskFits file t)) }
{
    if damaged {
        return match key {
            Some(_) => Ok(None),
            None => Ok(Some(Task::Rescue)),
        };
    }
    match look_of(alloc, key)? {
        Some(look) => Ok(Some(Task::Read(look))),
        None => Ok(None),
    }
}
