// Command lines: what the words after the program's name ask for.

ghost use Rattle.std.specs.Prelude.{◌≡◌, ◌≤◌, ℕ, List, map, string_bytes, IfOk, IfSome};
ghost use Rattle.std.specs.Option.{option_map};
ghost use Rattle.tdb_cmdline.specs.Acts.{print_of};
ghost use Rattle.tdb_cmdline.specs.Ask.{asked, asks, on_file, print_file, repack_of, tool_task, ask_of, words_ask, tool_asks, dump_asks, restore_asks, backup_asks, convert_asks, mend_asks, turns_asks, gen_asks, task_of as task_asked, VerbFits, TaskFits};

use crate::act::{Act, Verb};
use crate::lines::create::NewFile;
use crate::lines::turns::options_in;
use crate::lines::{backup, convert, dump, generate, mend, moving};
use crate::look::Look;
use crate::names::{Names, Text};
use crate::options::{Command, Line};
use crate::printout::Printout;
use std::alloc::{AllocError, Global};
use tdb_dump::Listing;
use tdb_openers::Options;
use tdb_words::Bytes;

/// What is to be done with a file. A limit, as `Ask::of` reads it, is from 696 to 4,294,963,200 bytes.
#[derive(Debug, Drop)]
pub enum Task {
    /// To make it.
    Create(NewFile),

    /// A command on a file that is there.
    On(Act),

    /// A command that reads a file alone.
    Read(Look),

    /// To print what can still be read of it, where it may be damaged.
    Rescue,

    /// To print this of it, where it is there and may have `limit` bytes.
    Print {
        printout: Printout,
        limit: u64,
    },

    /// To write it anew, where it is there. It may have `limit` bytes, before and after.
    Repack {
        limit: u64,
    },

    /// To make it, of the pairs on the input. It may be up to `limit` bytes long.
    Restore {
        limit: u64,
    },

    /// To copy it and more files, each to its name and a suffix.
    Backup {
        more: Names,
        suffix: Text,
    },

    /// To tell how many keys it and more files have, and to restore those that are refused, each from its copy.
    Verify {
        more: Names,
        suffix: Text,
    },

    /// To make a new file of the pairs of it whose key begins with `prefix`. The new one has another name.
    Convert {
        new: Text,
        made: NewFile,
        prefix: Bytes,
    },

    /// To make a new file of what can be read of it, where it is damaged too. The new one has another name.
    Mend {
        new: Text,
    },

    /// To store the pairs of it whose key begins with `prefix` into a file that is there, which has another name. Each
    /// of the two may have `limit` bytes, before and after.
    Merge {
        into: Text,
        prefix: Bytes,
        limit: u64,
    },

    /// To take a key out of it and store it with its value into a file that is there, which has another name. Each of
    /// the two may have `limit` bytes, before and after.
    Move {
        key: Bytes,
        into: Text,
        limit: u64,
    },

    /// To take the plays of the script on the input over it, which is opened so.
    Turns(Options),

    /// To take the commands on the lines of the input over it, which may become `limit` bytes long.
    Session {
        limit: u64,
    },

    /// To make it, and have so many commands done on it, from 0 to 1,000,000, that are made of the seed, which is any
    /// number of 32 bits.
    Generate {
        commands: u32,
        seed: u32,
    },
}

/// What a command line asks for.
#[derive(Debug, Drop)]
pub struct Ask {
    /// The name of the file, the first one where more are asked for.
    pub file: String,

    /// What is to be done with it.
    pub task: Task,
}

impl Task {
    /// A command on a file that is there and may have so many bytes, if it is one.
    fn on(limit: u64, verb: Option<Verb>) -> Option<Task>
        requires limit { limit ≤ 4294963200 }
        requires fits { IfSome verb VerbFits }
        ensures read { result ≡ option_map (on_file limit) verb }
        ensures fits { IfSome result (λ task. (file : List ℕ) → TaskFits file task) }
    {
        match verb {
            Some(verb) => Some(Task::On(Act { verb, limit })),
            None => None,
        }
    }

    /// To print this of a file that is there and may have so many bytes, where the command has no arguments.
    fn print(limit: u64, printout: Printout, arguments: &[Text]) -> Option<Task>
        requires limit { limit ≤ 4294963200 }
        ensures read { result ≡ option_map (print_file limit) (print_of printout arguments.now) }
        ensures fits { IfSome result (λ task. (file : List ℕ) → TaskFits file task) }
    {
        match arguments {
            [] => Some(Task::Print { printout, limit }),
            _ => None,
        }
    }

    /// To write a file anew that is there and may have so many bytes, where the command has no arguments.
    fn repack(limit: u64, arguments: &[Text]) -> Option<Task>
        requires limit { limit ≤ 4294963200 }
        ensures read { result ≡ repack_of limit arguments.now }
        ensures fits { IfSome result (λ task. (file : List ℕ) → TaskFits file task) }
    {
        match arguments {
            [] => Some(Task::Repack { limit }),
            _ => None,
        }
    }

    /// What the command of this name asks for on this file with these arguments, where the file may have so many bytes.
    fn named(
        alloc: Global,
        file: &str,
        limit: u64,
        command: &str,
        arguments: &[Text],
    ) -> Result<Option<Task>, AllocError>
        requires limit { limit ≤ 4294963200 }
        ensures read { IfOk result (λ task. task ≡ task_asked file.now limit command.now arguments.now) }
        ensures fits { IfOk result (λ task. IfSome task (λ t. TaskFits file.now t)) }
    {
        match command {
            "show" => Ok(Task::on(limit, Verb::of_show(alloc, arguments)?)),
            "insert" => Ok(Task::on(limit, Verb::of_insert(alloc, arguments)?)),
            "store" => Ok(Task::on(limit, Verb::of_store(alloc, arguments)?)),
            "storehex" => Ok(Task::on(limit, Verb::of_storehex(alloc, arguments)?)),
            "delete" => Ok(Task::on(limit, Verb::of_delete(alloc, arguments)?)),
            "erase" => Ok(Task::on(limit, Verb::without_arguments(Verb::Erase, arguments))),
            "check" => Ok(Task::on(limit, Verb::without_arguments(Verb::Check, arguments))),
            "first" => Ok(Task::on(limit, Verb::without_arguments(Verb::First, arguments))),
            "next" => Ok(Task::on(limit, Verb::without_arguments(Verb::Next, arguments))),
            "transaction_start" => {
                let verb = Verb::without_arguments(Verb::TransactionStart, arguments);
                Ok(Task::on(limit, verb))
            }
            "transaction_commit" => {
                let verb = Verb::without_arguments(Verb::TransactionCommit, arguments);
                Ok(Task::on(limit, verb))
            }
            "transaction_cancel" => {
                let verb = Verb::without_arguments(Verb::TransactionCancel, arguments);
                Ok(Task::on(limit, verb))
            }
            "quit" => Ok(Task::on(limit, Verb::without_arguments(Verb::Quit, arguments))),
            "dump" => Ok(Task::print(limit, Printout::Pairs(Listing::Pairs), arguments)),
            "keys" => Ok(Task::print(limit, Printout::Pairs(Listing::Keys), arguments)),
            "hexkeys" => Ok(Task::print(limit, Printout::Pairs(Listing::HexKeys), arguments)),
            "info" => Ok(Task::print(limit, Printout::Summary, arguments)),
            "list" => Ok(Task::print(limit, Printout::Chains, arguments)),
            "free" => Ok(Task::print(limit, Printout::FreeList, arguments)),
            "repack" => Ok(Task::repack(limit, arguments)),
            "move" => moving::task_of(alloc, file, limit, arguments),
            "create" => match NewFile::of(limit, arguments) {
                Some(new) => Ok(Some(Task::Create(new))),
                None => Ok(None),
            },
            _ => Ok(None),
        }
    }

    /// What the words behind the file of `tool` ask for, where the file may have so many bytes.
    fn of_tool(
        alloc: Global,
        file: &str,
        limit: u64,
        words: &[Text],
    ) -> Result<Option<Task>, AllocError>
        requires limit { limit ≤ 4294963200 }
        ensures read { IfOk result (λ task. task ≡ tool_task file.now limit words.now) }
        ensures fits { IfOk result (λ task. IfSome task (λ t. TaskFits file.now t)) }
    {
        match words {
            [] => Ok(Some(Task::Session { limit })),
            [command, arguments @ ..] => {
                Task::named(alloc, file, limit, command.as_str(), arguments)
            },
        }
    }
}

impl Ask {
    /// What a line of `tool` asks for: a command on a file, or a session.
    fn of_tool(alloc: Global, line: &Line) -> Result<Option<Ask>, AllocError>
        ensures read { IfOk result (λ ask. option_map asked ask ≡ tool_asks line.now) }
        ensures fits { IfOk result (λ ask. IfSome ask (λ a. TaskFits (string_bytes a.file) a.task)) }
    {
        let Some(limit) = line.limit() else {
            return Ok(None);
        };
        let [file, words @ ..] = line.positions.as_slice() else {
            return Ok(None);
        };
        let Some(task) = Task::of_tool(alloc, file.as_str(), limit, words)? else {
            return Ok(None);
        };
        let file = String::from_str(alloc, file.as_str())?;
        Ok(Some(Ask { file, task }))
    }

    /// What a line of `dump` asks for.
    fn of_dump(alloc: Global, line: &Line) -> Result<Option<Ask>, AllocError>
        ensures read { IfOk result (λ ask. option_map asked ask ≡ dump_asks line.now) }
        ensures fits { IfOk result (λ ask. IfSome ask (λ a. TaskFits (string_bytes a.file) a.task)) }
    {
        let [file] = line.positions.as_slice() else {
            return Ok(None);
        };
        let Some(task) = dump::task_of(alloc, line.has("-e"), line.value_of("-k"))? else {
            return Ok(None);
        };
        let file = String::from_str(alloc, file.as_str())?;
        Ok(Some(Ask { file, task }))
    }

    /// What a line of `restore` asks for.
    fn of_restore(alloc: Global, line: &Line) -> Result<Option<Ask>, AllocError>
        ensures read { IfOk result (λ ask. option_map asked ask ≡ restore_asks line.now) }
        ensures fits { IfOk result (λ ask. IfSome ask (λ a. TaskFits (string_bytes a.file) a.task)) }
    {
        let [file] = line.positions.as_slice() else {
            return Ok(None);
        };
        let Some(limit) = line.limit() else {
            return Ok(None);
        };
        let file = String::from_str(alloc, file.as_str())?;
        let task = Task::Restore { limit };
        Ok(Some(Ask { file, task }))
    }

    /// What a line of `backup` asks for.
    fn of_backup(alloc: Global, line: Line) -> Result<Option<Ask>, AllocError>
        ensures read { IfOk result (λ ask. option_map asked ask ≡ backup_asks line) }
        ensures fits { IfOk result (λ ask. IfSome ask (λ a. TaskFits (string_bytes a.file) a.task)) }
    {
        match backup::asks_of(alloc, line)? {
            Some((file, task)) => {
                let file = file.into_string();
                Ok(Some(Ask { file, task }))
            }
            None => Ok(None),
        }
    }

    /// What a line of `convert` asks for.
    fn of_convert(alloc: Global, line: &Line) -> Result<Option<Ask>, AllocError>
        ensures read { IfOk result (λ ask. option_map asked ask ≡ convert_asks line.now) }
        ensures fits { IfOk result (λ ask. IfSome ask (λ a. TaskFits (string_bytes a.file) a.task)) }
    {
        match convert::asks_of(alloc, line)? {
            Some((file, task)) => {
                let file = file.into_string();
                Ok(Some(Ask { file, task }))
            }
            None => Ok(None),
        }
    }

    /// What a line of `mend` asks for.
    fn of_mend(alloc: Global, line: &Line) -> Result<Option<Ask>, AllocError>
        ensures read { IfOk result (λ ask. option_map asked ask ≡ mend_asks line.now) }
        ensures fits { IfOk result (λ ask. IfSome ask (λ a. TaskFits (string_bytes a.file) a.task)) }
    {
        match mend::asks_of(alloc, line)? {
            Some((file, task)) => {
                let file = file.into_string();
                Ok(Some(Ask { file, task }))
            }
            None => Ok(None),
        }
    }

    /// What a line of `turns` asks for.
    fn of_turns(alloc: Global, line: &Line) -> Result<Option<Ask>, AllocError>
        ensures read { IfOk result (λ ask. option_map asked ask ≡ turns_asks line.now) }
        ensures fits { IfOk result (λ ask. IfSome ask (λ a. TaskFits (string_bytes a.file) a.task)) }
    {
        let [file] = line.positions.as_slice() else {
            return Ok(None);
        };
        let Some(options) = options_in(line) else {
            return Ok(None);
        };
        let file = String::from_str(alloc, file.as_str())?;
        let task = Task::Turns(options);
        Ok(Some(Ask { file, task }))
    }

    /// What a line of `gen` asks for.
    fn of_gen(alloc: Global, line: &Line) -> Result<Option<Ask>, AllocError>
        ensures read { IfOk result (λ ask. option_map asked ask ≡ gen_asks line.now) }
        ensures fits { IfOk result (λ ask. IfSome ask (λ a. TaskFits (string_bytes a.file) a.task)) }
    {
        let [commands, seed, file] = line.positions.as_slice() else {
            return Ok(None);
        };
        let Some(task) = generate::task_of(commands.as_str(), seed.as_str()) else {
            return Ok(None);
        };
        let file = String::from_str(alloc, file.as_str())?;
        Ok(Some(Ask { file, task }))
    }

    /// What the words behind the name of a command ask for.
    fn of_words(
        alloc: Global,
        command: Command,
        words: &[String],
    ) -> Result<Option<Ask>, AllocError>
        ensures read { IfOk result (λ ask. option_map asked ask ≡ words_ask command (map string_bytes words.now)) }
        ensures fits { IfOk result (λ ask. IfSome ask (λ a. TaskFits (string_bytes a.file) a.task)) }
    {
        let Some(line) = Line::of(alloc, command, words)? else {
            return Ok(None);
        };
        match command {
            Command::Tool => Ask::of_tool(alloc, &line),
            Command::Dump => Ask::of_dump(alloc, &line),
            Command::Restore => Ask::of_restore(alloc, &line),
            Command::Backup => Ask::of_backup(alloc, line),
            Command::Convert => Ask::of_convert(alloc, &line),
            Command::Mend => Ask::of_mend(alloc, &line),
            Command::Turns => Ask::of_turns(alloc, &line),
            Command::Generate => Ask::of_gen(alloc, &line),
        }
    }

    /// What the words of a command line ask for, if anything. `Err` where memory is wanting. The memory that it takes
    /// is that of their bytes.
    pub fn of(alloc: Global, words: &[String]) -> Result<Option<Ask>, AllocError>
        ensures read { IfOk result (λ ask. option_map asked ask ≡ ask_of (map string_bytes words.now)) }
        ensures fits { IfOk result (λ ask. IfSome ask (λ a. TaskFits (string_bytes a.file) a.task)) }
    {
        let [program, rest @ ..] = words else {
            return Ok(None);
        };
        match Command::named(program.as_str()) {
            Some(command) => Ask::of_words(alloc, command, rest),
            None => Ok(None),
        }
    }
}
