// Runs of command lines over files in memory: the status, and what is printed.

ghost use Rattle.std.specs.Prelude.{◌≡◌, ℕ, List, false};
ghost use Rattle.tdb_disk.specs.MemFiles.{name_is_taken};

use std::alloc::{AllocError, Global};
use tdb_disk::{Call, MemFiles, MemSink, MemSource, Sink, Source};
use tdb_log::Log;
use tdb_top::{Status, run};

pub(crate) const USAGE: &str = "usage: tdb COMMAND [OPTIONS] FILE [WORDS]\n";

/// The dump of a file of one record, whose key is `a` and whose value is `1`.
pub(crate) const DUMP: &str = "{\nkey(1) = \"a\"\ndata(1) = \"1\"\n}\n";

/// What fails in a run: nothing, the nth call of the files or of the disk of a name, the nth read of the input, or the
/// nth write of the output.
#[derive(Clone, Copy)]
pub(crate) enum Failing {
    Nothing,
    Files(Call, u64),
    Disk(&'static str, Call, u64),
    Input(u64),
    Output(u64),
}

/// Each kind of call of a disk.
pub(crate) static CALLS: [(&'static str, Call); 7] = [
    ("lengths", Call::Len),
    ("reads", Call::Read),
    ("writes", Call::Write),
    ("words", Call::WriteWord),
    ("growths", Call::Grow),
    ("cuts", Call::Cut),
    ("syncs", Call::Sync),
];

/// A command line: its words with blanks between them, its input, what fails in its run, its status, and what it
/// prints.
pub(crate) type Line<'a> = (&'a str, &'a str, Failing, u8, &'a str);

/// Runs words with blanks between them.
pub(crate) fn run_over<S: Source, K: Sink>(
    alloc: Global,
    words: &str,
    files: &mut MemFiles,
    input: &mut S,
    output: &mut K,
    logs: &mut Vec<Box<dyn Log>>,
) -> Result<u8, AllocError>
    requires { (name : List ℕ) → name_is_taken files.old name ≡ false }
    ensures { (name : List ℕ) → name_is_taken files.new name ≡ false }
{
    let mut list = Vec::new(alloc);
    for word in words.split(' ') {
        list.push(String::from_str(alloc, word)?)?;
    }
    let Status(status) = run(alloc, &list, files, input, output, logs);
    Ok(status)
}

/// The status of a run over these files and this input, with these logs, in which something fails, and what it prints.
pub(crate) fn answer(
    alloc: Global,
    files: &mut MemFiles,
    words: &str,
    text: &[u8],
    failing: &Failing,
    logs: &mut Vec<Box<dyn Log>>,
) -> Result<(u8, Vec<u8>), AllocError>
    requires { (name : List ℕ) → name_is_taken files.old name ≡ false }
    ensures { (name : List ℕ) → name_is_taken files.new name ≡ false }
{
    let mut input = MemSource::new(alloc, text)?;
    let mut output = MemSink::new(alloc);
    match failing {
        Failing::Nothing => {}
        Failing::Files(call, nth) => files.fail(*call, *nth)?,
        Failing::Disk(name, call, nth) => files.fail_disk(name, *call, *nth)?,
        Failing::Input(nth) => input.fail(Call::Read, *nth)?,
        Failing::Output(nth) => output.fail(Call::Write, *nth)?,
    }
    let status = run_over(alloc, words, files, &mut input, &mut output, logs)?;
    Ok((status, output.as_slice().to_vec(alloc)?))
}
