//! What a person is told on standard error beside the usage line: what the program does, or which word is no command.

use std::alloc::Global;
use tdb_files::OutSink;
use tdb_terminal::{Answer, answer_to, write_page};
use tdb_top::Status;

/// The version of the program, and the toolchain with which it is proved.
const VERSION: &str = "tdb 0.1, proved with rattle-kit-13f";

/// The status of words that ask for nothing.
const USAGE: Status = Status(2);

/// The commands.
const PAGE: &str = "tdb: look into, change, check and copy files of Samba's trivial database

  tdb tool FILE COMMAND ..   one command on a file: create, show, store, insert, delete, erase, check ..
  tdb tool FILE              a session of many, a line each; `tdb tool --help` lists the commands
  tdb dump FILE              print all pairs; -k KEY prints the value of one key
  tdb dump -e FILE           print what can still be read of a damaged file
  tdb restore FILE           make a file of the text that a dump printed, from standard input
  tdb backup FILE ..         copy files; -s SUFFIX names the copies, in the place of .bak
  tdb backup -v FILE ..      verify files, and put copies in the place of damaged ones
  tdb convert FILE NEW       make a file of the pairs of another, as with other chains; man tdb-convert
  tdb convert --into ..      store the pairs of a file into one that is there
  tdb mend FILE [NEW]        make a file of what can be read of a damaged one; man tdb-mend
  tdb turns FILE             let several openers of a file take turns, by a script on standard input
  tdb gen N SEED FILE        make a file by N commands that follow from SEED
  tdb help, tdb --version    print this page, or the version

Before you change a file, stop the service that uses it and make a copy.
The manual: man tdb";

/// What stands in front of the commands of a session.
const TOOL: &str = "tdb tool FILE COMMAND [WORDS]   one command on a file
tdb tool FILE                   a session: the lines of standard input are commands
tdb tool FILE create [SIZE [default|jenkins [little|big]]]   a new file
tdb tool FILE info|list|free    what the file holds in numbers, its records, its free records
tdb tool FILE repack            the file is written anew, without the space that it doesn't need
tdb tool FILE move KEY FILE2    the key goes into another file, with its value
";

/// The words behind `tool FILE` that are no lines of a session.
const ALONE: [&str; 6] = ["create", "info", "list", "free", "repack", "move"];

/// The names of the commands.
const COMMANDS: [&str; 9] = [
    "tool", "dump", "restore", "backup", "convert", "mend", "turns", "gen", "help",
];

/// What a person asks for.
#[derive(Clone, Copy, Debug, PartialEq, Eq)]
enum Asked {
    /// The commands.
    Page,

    /// The commands of `tool`.
    Tool,

    Version,
}

/// Whether a word asks for help.
fn is_help(word: &str) -> bool {
    matches!(word, "--help" | "-h")
}

/// What a person asks for by these words.
fn asked_by(words: &[String]) -> Option<Asked> {
    let Some(first) = words.first() else {
        return Some(Asked::Page);
    };
    match (first.as_str(), words.get(1)) {
        ("help", _) => Some(Asked::Page),
        ("--version", None) => Some(Asked::Version),
        (word, None) if is_help(word) => Some(Asked::Page),
        (word, Some(second)) if words.len() == 2 && is_help(second.as_str()) => {
            Some(if word == "tool" {
                Asked::Tool
            } else {
                Asked::Page
            })
        }
        _ => None,
    }
}

/// Whether a word behind `tool FILE` begins as no command does. An option isn't looked into.
fn is_no_tool(alloc: Global, word: &str) -> bool {
    !word.starts_with('-')
        && !ALONE.contains(&word)
        && matches!(answer_to(alloc, word.as_bytes()), Ok(Answer::Unknown(_)))
}

/// The word that is no command and stands where one should, as far as that can be told without the options.
fn unknown_of(alloc: Global, words: &[String]) -> Option<&str> {
    let first = words.first()?.as_str();
    if !COMMANDS.contains(&first) {
        return Some(first);
    }
    let file = words.get(1)?.as_str();
    let third = words.get(2)?.as_str();
    (first == "tool" && !file.starts_with('-') && is_no_tool(alloc, third)).then_some(third)
}

/// Says to a person that words ask for nothing, which of them is no command, and which page tells the commands.
fn tell_unasked(rt: &HostRuntime, words: &[String]) {
    let is_tool = words.first().is_some_and(|word| word.as_str() == "tool");
    let page = if is_tool {
        "tdb tool --help"
    } else {
        "tdb --help"
    };
    let _ = match unknown_of(rt.alloc(), words) {
        Some(word) => eprintln!(rt; "tdb: {word} is no command: see {page}"),
        None => eprintln!(rt; "tdb: the words ask for nothing: see {page}"),
    };
}

/// Tells a person what they asked for, or that they asked for nothing, where a run of the words ended so. What can't be
/// written is left out.
pub(crate) fn tell_asked(rt: &HostRuntime, status: Status, words: &[String]) {
    if status != USAGE {
        return;
    }
    let _ = match asked_by(words) {
        Some(Asked::Page) => eprintln!(rt; "{PAGE}"),
        Some(Asked::Version) => eprintln!(rt; "{VERSION}"),
        Some(Asked::Tool) => {
            let _ = eprintln!(rt; "{TOOL}");
            write_page(rt.alloc(), &mut OutSink::new(rt.stderr()));
            Ok(())
        }
        None => {
            tell_unasked(rt, words);
            Ok(())
        }
    };
}
