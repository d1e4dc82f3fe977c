// The words behind a command's name, read by `clap`: its options, each with its value or without one, and its
// positions.

ghost use Rattle.std.specs.Prelude.{◌≡◌, ◌≤◌, ◌++◌, ◌∷◌, [], true, false};
ghost use Rattle.std.specs.Prelude.{map, string_bytes, IfOk, IfSome, OnOk};
ghost use Rattle.std.specs.Map.{lookup};
ghost use Rattle.std.specs.Option.{option_map};
ghost use Rattle.tdb_space.specs.Pairs.{same_key};
ghost use Rattle.clap.specs.Words.{app_of, found_of, rows_of};
ghost use Rattle.tdb_cmdline.specs.Options as O;
ghost use Rattle.tdb_cmdline.specs.Clap as C;

use crate::names::{Names, Text};
use crate::words::{is_option, is_short, limit_of};
use clap::error::ErrorKind;
use clap::parser::ValueSource;
use clap::{Arg, ArgAction, ArgMatches};
use std::alloc::{AllocError, Global};
use std::marker::Model;
use tdb_open::LONGEST_FILE;

/// A command of the program.
#[derive(Clone, Copy, Debug, PartialEq, Eq)]
pub(crate) enum Command {
    Tool,
    Dump,
    Restore,
    Backup,
    Convert,
    Mend,
    Turns,
    Generate,
}

/// What comes with an option.
#[derive(Clone, Copy, Debug, PartialEq, Eq)]
pub(crate) enum Kind {
    /// A value.
    Valued,

    /// Nothing.
    Flag,
}

/// An option that was given.
#[derive(Debug, Drop)]
pub(crate) struct GivenOption {
    /// With its hyphens.
    name: Text,
    value: Option<Text>,
}

/// The options that were given, in their order. A contract sees them as a list.
#[derive(Debug, Drop)]
pub(crate) struct GivenOptions {
    items: Vec<GivenOption>,
}

impl Model for GivenOptions {
    ghost use Rattle.std.specs.Prelude.{List};
    ghost use Rattle.tdb_cmdline.specs.declared.options.GivenOption.{GivenOption as GivenOptionIs};

    ghost Value = { List GivenOptionIs };

    ghost view = { λ g. g.items.items };
}

/// The options and positions that the words of a command are.
#[derive(Debug, Drop)]
pub(crate) struct Line {
    options: GivenOptions,
    pub(crate) positions: Names,
}

impl Command {
    /// The command of this name.
    pub(crate) fn named(word: &str) -> Option<Command>
        ensures { result ≡ lookup (same_key word.now) O.commands }
    {
        match word {
            "tool" => Some(Command::Tool),
            "dump" => Some(Command::Dump),
            "restore" => Some(Command::Restore),
            "backup" => Some(Command::Backup),
            "convert" => Some(Command::Convert),
            "mend" => Some(Command::Mend),
            "turns" => Some(Command::Turns),
            "gen" => Some(Command::Generate),
            _ => None,
        }
    }

    /// What comes with the option of this name, where the command has it.
    fn kind_of(self, name: &str) -> Option<Kind>
        ensures { result ≡ O.kind_of self name.now }
    {
        match self {
            Command::Tool | Command::Restore => match name {
                "--limit" => Some(Kind::Valued),
                _ => None,
            },
            Command::Dump => match name {
                "-k" => Some(Kind::Valued),
                "-e" => Some(Kind::Flag),
                _ => None,
            },
            Command::Backup => match name {
                "-s" => Some(Kind::Valued),
                "-v" => Some(Kind::Flag),
                _ => None,
            },
            Command::Convert => match name {
                "--limit" | "--prefix" => Some(Kind::Valued),
                "--into" => Some(Kind::Flag),
                _ => None,
            },
            Command::Turns => match name {
                "--limit" => Some(Kind::Valued),
                "--no-nesting" | "--read-only" | "--seqnum" => Some(Kind::Flag),
                _ => None,
            },
            Command::Mend | Command::Generate => None,
        }
    }
}

impl GivenOptions {
    /// No options. It takes no memory.
    fn new(alloc: Global) -> GivenOptions
        ensures { result ≡ [] }
    {
        GivenOptions {
            items: Vec::new(alloc),
        }
    }

    /// Puts an option at the end.
    fn push(&mut self, option: GivenOption) -> Result<(), AllocError>
        ensures { OnOk result (self.new ≡ self.old ++ option ∷ []) }
    {
        self.items.push(option)?;
        Ok(())
    }

    fn as_slice(&self) -> &[GivenOption]
        ensures { result.now ≡ self.now }
    {
        self.items.as_slice()
    }
}

impl Command {
    /// What `clap` is told of this command: its options, each under its name, and any number of positions.
    fn described<'a>(self, alloc: Global) -> Result<clap::Command<'a>, AllocError>
        ensures { IfOk result (λ command. app_of command ≡ C.app_for self) }
    {
        let bare = clap::Command::new(alloc, "")
            .no_binary_name(true)
            .disable_help_flag(true);
        let command = self.with_options(alloc, bare)?;
        command.arg(Arg::new(alloc, "positions").action(ArgAction::Append))
    }

    /// Adds the options of this command.
    fn with_options<'a>(
        self,
        alloc: Global,
        bare: clap::Command<'a>,
    ) -> Result<clap::Command<'a>, AllocError>
        ensures { IfOk result (λ command. app_of command ≡ C.with_told (app_of bare.entry) (O.options_of self)) }
    {
        match self {
            Command::Tool | Command::Restore => {
                bare.arg(Arg::new(alloc, "--limit").long("limit"))
            }
            Command::Dump => bare
                .arg(Arg::new(alloc, "-k").short('k'))?
                .arg(flag(alloc, "-e").short('e')),
            Command::Backup => bare
                .arg(Arg::new(alloc, "-s").short('s'))?
                .arg(flag(alloc, "-v").short('v')),
            Command::Convert => bare
                .arg(Arg::new(alloc, "--limit").long("limit"))?
                .arg(Arg::new(alloc, "--prefix").long("prefix"))?
                .arg(flag(alloc, "--into").long("into")),
            Command::Turns => bare
                .arg(Arg::new(alloc, "--limit").long("limit"))?
                .arg(flag(alloc, "--no-nesting").long("no-nesting"))?
                .arg(flag(alloc, "--read-only").long("read-only"))?
                .arg(flag(alloc, "--seqnum").long("seqnum")),
            Command::Mend => Ok(bare),
            Command::Generate => Ok(bare),
        }
    }
}

/// An option without a value.
fn flag<'a>(alloc: Global, name: &'a str) -> Arg<'a>
    ensures { C.IsFlagOf name.entry.now result }
{
    Arg::new(alloc, name).action(ArgAction::SetTrue)
}

/// Whether an option of this name is among these.
fn is_given(options: &[GivenOption], name: &str) -> bool
    ensures { result ≡ O.is_given name.now options.now }
{
    let [first, rest @ ..] = options else {
        return false;
    };
    first.name.as_str() == name || is_given(rest, name)
}

/// The value of the option of this name among these.
fn told<'a>(options: &'a [GivenOption], name: &str) -> Option<&'a str>
    ensures { option_map (λ value. value.now) result ≡ O.told name.now options.now }
{
    let [first, rest @ ..] = options else {
        return None;
    };
    if first.name.as_str() != name {
        return told(rest, name);
    }
    match &first.value {
        Some(value) => Some(value.as_str()),
        None => None,
    }
}

/// Whether `clap` reads a word as we do where options may stand: behind one hyphen no letters together, none that isn't
/// ASCII, and no value right behind a letter; and no value that is empty behind `=`.
fn is_plain(word: &str) -> bool
    ensures { result ≡ C.is_plain word.now }
{
    if !is_option(word) {
        return true;
    }
    let bytes = word.as_bytes();
    if bytes[1] == b'-' {
        return match parted(word) {
            Some((_, value)) => !value.is_empty(),
            None => true,
        };
    }
    bytes[1] < 128 && (bytes.len() == 2 || (bytes.len() > 3 && bytes[2] == b'='))
}

/// A word NAME=VALUE, parted at its first `=`.
fn parted(word: &str) -> Option<(&str, &str)>
    ensures { option_map (λ found. (found.0.now, found.1.now)) result ≡ O.parted word.now }
{
    word.split_once('=')
}

/// Whether no word is too long, and `clap` reads those before `--` as we do.
fn all_plain(words: &[String]) -> bool
    ensures { result ≡ C.all_plain false (map string_bytes words.now) }
{
    let mut ended = false;
    for word in words {
        let word = word.as_str();
        if !is_short(word) {
            return false;
        }
        if !ended {
            if word == "--" {
                ended = true;
            } else if !is_plain(word) {
                return false;
            }
        }
    }
    true
}

/// A copy of a text, where there is one.
fn copied(alloc: Global, text: Option<&str>) -> Result<Option<Text>, AllocError>
    ensures { IfOk result (λ copy. copy ≡ option_map (λ t. t.now) text.entry) }
{
    match text {
        Some(text) => Ok(Some(Text::copy(alloc, text)?)),
        None => Ok(None),
    }
}

/// The value of the option of this id, where one comes with it.
fn value_in<'a>(command: Command, matches: &ArgMatches<'a>, id: &str) -> Option<&'a str>
    ensures { option_map (λ value. value.now) result ≡ C.value_of command id.now (rows_of (found_of matches.now)) }
{
    match command.kind_of(id) {
        Some(Kind::Valued) => matches.get_str(id),
        _ => None,
    }
}

/// The option of this id, where the words gave it.
fn option_in(
    alloc: Global,
    command: Command,
    matches: &ArgMatches<'_>,
    id: &str,
) -> Result<Option<GivenOption>, AllocError>
    ensures { IfOk result (λ option. option ≡ C.option_of command id.now (rows_of (found_of matches.now))) }
{
    if id == "positions" {
        return Ok(None);
    }
    let Some(ValueSource::CommandLine) = matches.value_source(id) else {
        return Ok(None);
    };
    let name = Text::copy(alloc, id)?;
    let value = copied(alloc, value_in(command, matches, id))?;
    Ok(Some(GivenOption { name, value }))
}

/// The options that the words gave, in their order.
fn options_in(
    alloc: Global,
    command: Command,
    matches: &ArgMatches<'_>,
) -> Result<GivenOptions, AllocError>
    requires { C.distinct (rows_of (found_of matches.now)) ≡ true }
    ensures { IfOk result (λ options. options ≡ C.options_in command (rows_of (found_of matches.now))) }
{
    let mut options = GivenOptions::new(alloc);
    for id in matches.ids() {
        if let Some(option) = option_in(alloc, command, matches, id)? {
            options.push(option)?;
        }
    }
    Ok(options)
}

/// Copies of these words.
fn copies(alloc: Global, words: &[&str]) -> Result<Names, AllocError>
    ensures { IfOk result (λ names. names ≡ map (λ word. word.now) words.now) }
{
    let mut names = Names::new(alloc);
    for word in words {
        names.push(Text::copy(alloc, word)?)?;
    }
    Ok(names)
}

/// The positions, in their order.
fn positions_in(alloc: Global, matches: &ArgMatches<'_>) -> Result<Names, AllocError>
    ensures { IfOk result (λ names. names ≡ C.positions_in (rows_of (found_of matches.now))) }
{
    match matches.get_raw("positions") {
        Some(words) => copies(alloc, words),
        None => Ok(Names::new(alloc)),
    }
}

impl Line {
    /// Reads the words behind the name of this command. The memory that it takes is that of the words that are kept.
    pub(crate) fn of(
        alloc: Global,
        command: Command,
        words: &[String],
    ) -> Result<Option<Line>, AllocError>
        ensures { IfOk result (λ line. line ≡ O.line_of command (map string_bytes words.now)) }
    {
        if !all_plain(words) {
            return Ok(None);
        }
        let matches = match command.described(alloc)?.try_get_matches_from(words) {
            Ok(matches) => matches,
            Err(error) => match error.kind() {
                ErrorKind::OutOfMemory => return Err(AllocError),
                _ => return Ok(None),
            },
        };
        Ok(Some(Line {
            options: options_in(alloc, command, &matches)?,
            positions: positions_in(alloc, &matches)?,
        }))
    }

    /// Whether the option of this name was given.
    pub(crate) fn has(&self, name: &str) -> bool
        ensures { result ≡ O.is_given name.now self.now.options }
    {
        is_given(self.options.as_slice(), name)
    }

    /// The value that was given with the option of this name.
    pub(crate) fn value_of(&self, name: &str) -> Option<&str>
        ensures { option_map (λ value. value.now) result ≡ O.told name.now self.now.options }
    {
        told(self.options.as_slice(), name)
    }

    /// How long the file may be: what `--limit` tells, or that of the longest file.
    pub(crate) fn limit(&self) -> Option<u64>
        ensures read { result ≡ O.limit_in self.now }
        ensures fits { IfSome result (λ limit. limit ≤ 4294963200) }
    {
        let Some(word) = self.value_of("--limit") else {
            return Some(LONGEST_FILE);
        };
        let limit = limit_of(word)?;
        Some(u64::from(limit))
    }
}
