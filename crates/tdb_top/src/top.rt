// The top call: it reads the words, answers them over the files and prints the text and the line of that.

ghost use Rattle.std.specs.Prelude.{◌≡◌, ℕ, List, false, map, string_bytes};
ghost use Rattle.tdb_cmdline.specs.Ask.{ask_of};
ghost use Rattle.tdb_answer.specs.declared.ending.Ending.{Ending as EndingIs};
ghost use Rattle.tdb_answer.specs.Ending.{PrintedFor};
ghost use Rattle.tdb_answer.specs.Looks.{ending_of};
ghost use Rattle.tdb_answer.specs.Output.{output_by};
ghost use Rattle.tdb_answer.specs.Printed.{Finishes};
ghost use Rattle.tdb_answer.specs.Reads.{ask_reads};
ghost use Rattle.tdb_answer.specs.Takes.{MayTake, ask_takes};
ghost use Rattle.tdb_top.specs.AnsweredWords.{AnsweredWords};
ghost use Rattle.tdb_top.specs.Outside.{outside};
ghost use Rattle.tdb_top.specs.Promise.{RanAsPromised};

use std::alloc::Global;
use tdb_answer::{Ending, Status, Unprinted, answer_ask, print};
use tdb_cmdline::Ask;
use tdb_disk::{Files, Sink, Source};
use tdb_log::Logs;

/// Answers the words over the files. What is printed before the line of the ending is written to the output; where that
/// fails, the rest isn't.
fn answer<F: Files, S: Source, K: Sink, L: Logs>(
    alloc: Global,
    words: &[String],
    files: &mut F,
    input: &mut S,
    output: &mut K,
    logs: &mut L,
) -> Result<Ending, Unprinted>
    requires free { (name : List ℕ) → F.is_taken files.old name ≡ false }
    requires take { MayTake F.may_take (ask_takes (ask_of (map string_bytes words.now))) }
    ensures answered { AnsweredWords F.D.tells S.tells K.tells (ask_of (map string_bytes words.now))
        (outside F.Files S.Source K.Sink L.Logs files.old input.old output.old logs.old)
        (outside F.Files S.Source K.Sink L.Logs files.new input.new output.new logs.new) result }
    ensures given_back { (name : List ℕ) → F.is_taken files.new name ≡ false }
    ensures input_untouched { ask_reads (ask_of (map string_bytes words.now)) ≡ false → input.new ≡ input.old }
{
    match Ask::of(alloc, words) {
        Ok(Some(ask)) => answer_ask(alloc, &ask, files, input, output, logs),
        Ok(None) => Ok(Ending::Usage),
        Err(_) => Ok(Ending::NoMemory),
    }
}

/// Prints the line of an ending where the output took all that stands before it, and says the run's status.
fn finish<K: Sink>(alloc: Global, answered: &Result<Ending, Unprinted>, output: &mut K) -> Status
    ensures { (e : EndingIs) × PrintedFor e (ending_of answered.now)
        × Finishes answered.now (output_by K.tells (K.written output.old) (K.written output.new) (K.faults output.old) (K.faults output.new)) e result.0 }
{
    match answered {
        Ok(ending) => print(alloc, ending, output),
        Err(_) => Status::OUTPUT_FAULT,
    }
}

/// Runs the command that `words` ask for, those after the program's name, and prints to `output`: the text of a dump,
/// of a report or of replies, and the line of the ending behind it, if that has one.
///
/// | Status | Meaning | Printed |
/// |---|---|---|
/// | 0 | the value of the key is shown | `data(N) = "TEXT"` |
/// | 0 | the key is added, stored or deleted, all keys are taken out, or the file is made, or written anew | `ok` |
/// | 0 | a new file is made of the pairs of another one, or they are stored into one | `ok` |
/// | 0 | a key is moved into another file | `ok` |
/// | 0 | a new file is made of what can be read of one, of which `N` bytes were changed for that | `mended N` |
/// | 0 | the file is accepted, and has `N` keys | `number N` |
/// | 0 | all pairs are printed, or all keys | their dump text, a line for each key |
/// | 0 | it is told what the file holds | its numbers, its chains and their records, or its free records |
/// | 0 | the value of the one key is printed | `TEXT` |
/// | 0 | the first pair is shown | `key(N) = "TEXT" data(N) = "TEXT"` |
/// | 0 | there is no pair, or none behind the one shown last | `end` |
/// | 0 | a transaction is started, which is cancelled at the end | `ok` |
/// | 0 | the file is made of the pairs on the input, or all files are copied | |
/// | 0 | all files are verified; of each that was opened | `FILE : N records` |
/// | 0 | of each that had a fault, and was restored from its copy | `restoring FILE`, and `FILE : N records` |
/// | 0 | the plays of the script on the input were taken | their report, line by line |
/// | 0 | the commands on the lines of the input were taken | their replies, each on a line or more |
/// | 0 | the file is made, and all generated commands were done on it | their summary, a line for each number |
/// | 1 | the key isn't there, or is there already | `noexist`, `exists` |
/// | 1 | there is no transaction to commit or to cancel | `notransaction` |
/// | 2 | the words ask for nothing | the usage |
/// | 3 | the file is refused for a fault of its header, or for another fault | `header KIND`, `corrupt WHAT AT` |
/// | 3 | a dump, a conversion, or turns that only read, would have to undo a change first | `needs recovery` |
/// | 4 | a call of the files or of a disk failed | `device fault` |
/// | 5 | memory was wanting | `memory` |
/// | 6 | the file of `LEN` bytes has no room for `NEED` more, or is too long itself | `full LEN NEED`, `toolong LEN` |
/// | 7 | the input is no dump text, script or commands, or is too long, from its byte `N` on | `input malformed at N` |
/// | 8 | a read of the input failed | `input fault` |
/// | 8 | the output failed | a part of what was due, from its first byte on |
/// | 9 | there is no file of this name, or there is one that was to be made | `missing NAME`, `there NAME` |
/// | 10 | a log failed | `log fault` |
///
/// The commands `tool FILE show KEY`, `tool FILE insert KEY DATA` and `tool FILE check` open the file first: its
/// length is tested and its header, what its undo area keeps is undone where the gate of that is open, and then the
/// whole of it is checked. A show then follows the chain of the key, and reads the value. An insert follows the chain
/// too; where the key isn't there it stores the pair in a record of the free list, or grows the file by one, and syncs.
/// The command `tool FILE create [SIZE [HASH [ORDER]]]` grows an empty file, writes its header and syncs.
///
/// The command `dump [-k KEY] FILE` opens the file in the same way, but to read it alone: nothing is undone. Then it
/// reads each record once more, in the order of the chains, and writes the pairs in pieces of at least 64 KiB; it holds
/// one pair. With `-k` it looks up one value, and prints that.
///
/// The command `dump -e FILE` tests the length and the header alone, and follows no list. It prints in the same way the
/// pair of each used record that stands whole, in order of place; `rescue` of `tdb_rescue` tells its time. The file
/// isn't changed, and no log is told.
///
/// The commands `tool FILE dump`, `tool FILE keys` and `tool FILE hexkeys` open the file as a show does, and print all
/// pairs in the same way, or a line for each key. The command `tool FILE first` reads the first pair alone.
///
/// The commands `tool FILE info`, `tool FILE list` and `tool FILE free` open the file as a show does. They read the
/// header of each record, or of each free one, and print what the check counted with the bytes of all keys and values,
/// the chains with their records, or the free records. A list holds one chain at a time.
///
/// The command `tool FILE repack` opens the file as a show does, makes a new file of its form at FILE and `.tmp`, adds
/// each pair without looking its key up, writes the sequence number, syncs, and renames the new file to FILE: time is
/// linear in the file. It holds one pair, and 4 bytes for each record.
///
/// The command `convert FILE NEW` opens FILE as a dump does, unless it has more bytes than NEW may have, makes NEW as
/// `create` does, and adds the pairs as a repack does: time and memory are those of one. Where the output doesn't take
/// the line that tells it, NEW is removed.
///
/// The command `mend FILE NEW` reads FILE in memory as the stock library would read it (`mend` of `tdb_mend`, whose doc
/// tells what that costs), makes NEW as `create` does, in the form that is so read, and adds the pairs as a repack
/// does. FILE keeps its bytes, and is synced before it is read. Where there is no memory for the line that tells it, or
/// the output doesn't take it, NEW is removed. No log is told.
///
/// The command `convert --into FILE NEW` opens FILE so too and NEW as a session does, and stores the pairs into NEW in
/// one transaction. It holds one pair, and the pages of NEW that the transaction changes, up to its commit.
///
/// The command `tool FILE move KEY FILE2` opens FILE and then FILE2 as a session does, stores the value of KEY into
/// FILE2 and takes it out of FILE, each in a transaction of its own, and commits FILE2 first. It holds the pages of
/// both that these change, up to the commits.
///
/// The command `restore FILE` makes a file as `create` does, reads the input in pieces of 64 KiB, adds each pair
/// without looking its key up, and syncs: time is linear in the text and in the file. It holds all keys, so as to
/// refuse a second one. Where not all pairs come into the file, it is removed again.
///
/// The words `tool [--limit N] FILE` alone open the file as a show does, and read the input in pieces of at most 64 KiB
/// while its commands are taken, one line each. The replies of those before a bad line, or before a read that fails,
/// stand before the line of the ending, and the file keeps what they did.
///
/// The command `backup [-s SUFFIX] FILE..` opens each file in turn as a show does, makes a new file at FILE, SUFFIX and
/// `.tmp`, adds each pair without looking its key up, syncs, and renames the new file to FILE and SUFFIX: time is
/// linear in the file. The first file that isn't copied ends it. The names of all files and of their copies are kept in
/// memory before, to tell whether they differ: that takes time by the logarithm of their number for each.
///
/// With `-v` each file in turn is opened and given back, and the number of its keys is printed, which the check that
/// opened it counted. One that is refused for a fault is made anew at FILE and `.tmp`, as a copy of the file at FILE
/// and SUFFIX, and that is renamed to FILE. The first file that isn't opened or restored ends it.
///
/// The command `gen N SEED FILE` makes a file as `create` does, has N generated commands of three openers done on it,
/// checks the whole file, and syncs. Its time is that of the commands and of the check. Where not all are done the file
/// is removed again.
///
/// The last of the logs is told what becomes of each file that is opened: the undo, what the check counted or the fault
/// for which the file is refused, the growth by an act, and what turns and sessions do; and each growth of the file
/// that a `restore`, a `gen`, a `backup` or a restored copy makes. A notice that it refuses ends the run. What an act
/// did stands then: where the log doesn't take its growth, the status is 10, also where the log wants memory.
pub fn run<F: Files, S: Source, K: Sink, L: Logs>(
    alloc: Global,
    words: &[String],
    files: &mut F,
    input: &mut S,
    output: &mut K,
    logs: &mut L,
) -> Status
    requires free { (name : List ℕ) → F.is_taken files.old name ≡ false }
    requires take { MayTake F.may_take (ask_takes (ask_of (map string_bytes words.now))) }
    ensures ran { RanAsPromised F.D.tells S.tells K.tells words.now result.0
        (outside F.Files S.Source K.Sink L.Logs files.old input.old output.old logs.old)
        (outside F.Files S.Source K.Sink L.Logs files.new input.new output.new logs.new) }

    // Every disk that was taken is given back, and the input isn't read but by a restore, by turns and by a session.
    ensures given_back { (name : List ℕ) → F.is_taken files.new name ≡ false }
    ensures input_untouched { ask_reads (ask_of (map string_bytes words.now)) ≡ false → input.new ≡ input.old }
{
    let answered = answer(alloc, words, files, input, output, logs);
    finish(alloc, &answered, output)
}
