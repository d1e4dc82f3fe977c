// What is mended: a new file is made of what can be read of one.

ghost use Rattle.std.specs.Prelude.{◌≡◌, IfOk, IfSome};
ghost use Rattle.tdb_cmdline.specs.Ask.{TaskFits};
ghost use Rattle.tdb_cmdline.specs.Lines.Mend as M;

use crate::ask::Task;
use crate::names::Text;
use crate::options::Line;
use std::alloc::{AllocError, Global};

/// To make a new file of this name, where it isn't that of the file that is read.
fn task_for(file: &str, new: Text) -> Option<Task>
    ensures read { result ≡ M.task_for file.now new }
    ensures fits { IfSome result (λ task. TaskFits file.now task) }
{
    if new.as_str() == file {
        return None;
    }
    Some(Task::Mend { new })
}

/// What the words behind the command's name ask for: the file, and what is done with it.
pub(crate) fn asks_of(alloc: Global, line: &Line) -> Result<Option<(Text, Task)>, AllocError>
    ensures read { IfOk result (λ asked. asked ≡ M.mend_of line.now) }
    ensures fits { IfOk result (λ asked. IfSome asked (λ a. TaskFits a.0 a.1)) }
{
    let [file, new] = line.positions.as_slice() else {
        return Ok(None);
    };
    let new = Text::copy(alloc, new.as_str())?;
    let Some(task) = task_for(file.as_str(), new) else {
        return Ok(None);
    };
    let file = Text::copy(alloc, file.as_str())?;
    Ok(Some((file, task)))
}
