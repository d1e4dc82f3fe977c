// What a command line asks for is done over the files.

ghost use Rattle.std.specs.Prelude.{◌≡◌, ℕ, List, Ok, OnErr, false, string_bytes, IsTrue};
ghost use Rattle.tdb_disk.specs.Count.{HasCause, Rose};
ghost use Rattle.tdb_cmdline.specs.declared.ask.Task.TheVariants.{Turns as TurnsIs, Session as SessionIs};
ghost use Rattle.tdb_answer.specs.declared.ending.Ending.TheVariants.{Replied, Usage};
ghost use Rattle.tdb_answer.specs.declared.ending.Reply.TheVariants.{Played};
ghost use Rattle.tdb_commands.specs.declared.options.Options.{Options as WorldOptions};
ghost use Rattle.tdb_cmdline.specs.Ask.{TaskFits};
ghost use Rattle.tdb_answer.specs.Commands.Restore.{HeardBy, of_input};
ghost use Rattle.tdb_answer.specs.Commands.Session.{SessionHeld};
ghost use Rattle.tdb_answer.specs.Commands.Turns.{AllPlayed};
ghost use Rattle.tdb_answer.specs.Ending.{CountedFor};
ghost use Rattle.tdb_answer.specs.Heard.{TaskHeard};
ghost use Rattle.tdb_answer.specs.Input.{input_by};
ghost use Rattle.tdb_answer.specs.Output.{output_by};
ghost use Rattle.tdb_answer.specs.Reads.{AskEnds, reads_input};
ghost use Rattle.tdb_answer.specs.Left.{TaskLeaves, SameElse};
ghost use Rattle.tdb_answer.specs.Looks.{ending_of, Began};
ghost use Rattle.tdb_answer.specs.Printed.{TaskText, task_tells};
ghost use Rattle.tdb_answer.specs.Stops.{SaysAllLines, StopsScripted};
ghost use Rattle.tdb_answer.specs.Takes.{MayTake, takes};

use crate::act::act_on_file;
use crate::commands::backup::back_up;
use crate::commands::convert::convert;
use crate::commands::create::create_file;
use crate::commands::generate::generate_file;
use crate::commands::mend::mend;
use crate::commands::merge::merge_file;
use crate::commands::moving::move_file;
use crate::commands::print::print_on_file;
use crate::commands::repack::repack;
use crate::commands::rescue::rescue_on_file;
use crate::commands::restore::restore_file;
use crate::commands::session::session_on_file;
use crate::commands::turns::turns_on_file;
use crate::commands::verify::verify;
use crate::ending::{Ending, Unprinted};
use crate::look::look_on_file;
use std::alloc::Global;
use tdb_cmdline::{Ask, Task};
use tdb_disk::{Files, Sink, Source};
use tdb_log::Logs;

/// Does over the files what is asked for. What is printed before the line of the ending is written to the output;
/// where that fails, the rest isn't.
pub fn answer_ask<F: Files, S: Source, K: Sink, L: Logs>(
    alloc: Global,
    ask: &Ask,
    files: &mut F,
    input: &mut S,
    output: &mut K,
    logs: &mut L,
) -> Result<Ending, Unprinted>
    requires fits { TaskFits (string_bytes ask.now.file) ask.now.task }
    requires free { (name : List ℕ) → F.is_taken files.old name ≡ false }
    requires take { MayTake F.may_take (takes ask.now.task (string_bytes ask.now.file)) }
    ensures cause { IsTrue F.D.tells → AskEnds (input_by S.tells (S.left input.old) (S.faults input.old) (S.faults input.new)) ask.now.task (string_bytes ask.now.file) (F.held files.old) (F.faults files.old) (F.faults files.new) (ending_of result) }
    ensures left { IsTrue F.D.tells → TaskLeaves (input_by S.tells (S.left input.old) (S.faults input.old) (S.faults input.new)) ask.now.task (string_bytes ask.now.file) (F.held files.old) (ending_of result) (F.held files.new) }
    ensures others { SameElse ask.now.task (string_bytes ask.now.file) (F.held files.old) (F.held files.new) }
    ensures given_back { (name : List ℕ) → F.is_taken files.new name ≡ false }
    ensures counted { CountedFor F.D.tells ask.now.task (F.faults files.old) (F.faults files.new) (ending_of result) }
    ensures began { IsTrue (task_tells ask.now.task F.D.tells K.tells) → Began (TaskText ask.now.task (string_bytes ask.now.file) (F.held files.old)) (K.written output.old) (K.written output.new) result }
    ensures output_cause { HasCause (K.faults output.old) (K.faults output.new) result }
    ensures asked { ending_of result ≡ Usage → ⊥ }
    ensures played { (options : WorldOptions) → ask.now.task ≡ TurnsIs options → IsTrue F.D.tells → result ≡ Ok (Replied Played)
        → AllPlayed options (input_by S.tells (S.left input.old) (S.faults input.old) (S.faults input.new)) (output_by K.tells (K.written output.old) (K.written output.new) (K.faults output.old) (K.faults output.new)) (L.logs logs.old) (L.logs logs.new) (F.held files.old (string_bytes ask.now.file)) (F.held files.new (string_bytes ask.now.file)) }
    ensures stops { (options : WorldOptions) → ask.now.task ≡ TurnsIs options → IsTrue F.D.tells
        → StopsScripted (input_by S.tells (S.left input.old) (S.faults input.old) (S.faults input.new)) options (F.held files.old (string_bytes ask.now.file)) (F.held files.new (string_bytes ask.now.file)) K.tells (SaysAllLines result) (OnErr result ⊥) (Rose (F.faults files.old) (F.faults files.new) → ⊥) (K.written output.old) (K.written output.new) }
    ensures served { (limit : ℕ) → ask.now.task ≡ SessionIs limit → IsTrue F.D.tells
        → SessionHeld limit (input_by S.tells (S.left input.old) (S.faults input.old) (S.faults input.new)) (F.held files.old (string_bytes ask.now.file)) (F.held files.new (string_bytes ask.now.file)) K.tells (K.written output.old) (K.written output.new) (L.logs logs.old) (L.logs logs.new) result }
    ensures heard { HeardBy (S.faults input.old) (S.faults input.new) (ending_of result) }
    ensures unread { reads_input ask.now.task ≡ false → (input.new ≡ input.old) × (of_input (ending_of result) ≡ false) }
    ensures told { IsTrue F.D.tells → TaskHeard (input_by S.tells (S.left input.old) (S.faults input.old) (S.faults input.new)) ask.now.task (string_bytes ask.now.file) (F.held files.old) (F.held files.new) (ending_of result) (L.logs logs.old) (L.logs logs.new) }
{
    let name = ask.file.as_str();
    match &ask.task {
        Task::On(act) => Ok(act_on_file(alloc, name, act, files, logs)),
        Task::Read(look) => look_on_file(alloc, name, look, files, output, logs),
        Task::Rescue => rescue_on_file(alloc, name, files, output),
        Task::Print { printout, limit } => {
            print_on_file(alloc, name, *printout, *limit, files, output, logs)
        }
        Task::Repack { limit } => Ok(repack(alloc, name, *limit, files, logs)),
        Task::Create(file) => {
            let creation = create_file(alloc, name, *file, files);
            Ok(Ending::made(alloc, name, creation))
        }
        Task::Restore { limit } => Ok(restore_file(alloc, name, *limit, files, input, logs)),
        Task::Backup { more, suffix } => {
            Ok(back_up(alloc, name, more.as_slice(), suffix.as_str(), files, logs))
        }
        Task::Verify { more, suffix } => verify(
            alloc,
            name,
            more.as_slice(),
            suffix.as_str(),
            files,
            output,
            logs,
        ),
        Task::Convert { new, made, prefix } => convert(
            alloc,
            name,
            new.as_str(),
            *made,
            prefix.as_slice(),
            files,
            output,
            logs,
        ),
        Task::Mend { new } => mend(alloc, name, new.as_str(), files, output),
        Task::Merge {
            into,
            prefix,
            limit,
        } => Ok(merge_file(
            alloc,
            name,
            into.as_str(),
            prefix.as_slice(),
            *limit,
            files,
            logs,
        )),
        Task::Move { key, into, limit } => Ok(move_file(
            alloc,
            name,
            into.as_str(),
            key.as_slice(),
            *limit,
            files,
            logs,
        )),
        Task::Turns(options) => turns_on_file(alloc, name, options, files, input, output, logs),
        Task::Session { limit } => session_on_file(alloc, name, *limit, files, input, output, logs),
        Task::Generate { commands, seed } => {
            Ok(generate_file(alloc, name, *commands, *seed, files, logs))
        }
    }
}
