//! The program `tdb`: it runs the words of its command line over the files of the system, and exits with the status.
//! Where a call of the system failed, it says on standard error why.
#![tactic(auto)]

ghost use Rattle.std.specs.Prelude.{◌≡◌, ℕ, List, false};
ghost use Rattle.tdb_files.specs.DirFiles.{name_is_taken};

use crate::finding_logs::FindingLogs;
use crate::help::tell_asked;
use crate::in_place::{InPlace, keeping};
use crate::manner::manner_of;
use crate::way_out::{tell_kept, tell_way_out};
use std::alloc::AllocError;
use std::env::VarError;
use std::io::IsTerminal;
use std::process::ExitCode;
use std::{env, io};
use tdb_disk::Sink;
use tdb_files::{DirFiles, FileSink, Finding, InSource, Manner, OutSink, Progress, Silence};
use tdb_log::{CountLog, Log, Logs, SinkLog};
use tdb_terminal::TerminalSource;
use tdb_top::{Status, run};

mod finding_logs;
mod help;
mod in_place;
mod manner;
mod way_out;

/// The variable of the environment that names the file of the log, if there is to be one. An empty one names none.
const LOG_VARIABLE: &str = "TDB_LOG";

/// The words after the program's name.
fn words_of(rt: &HostRuntime) -> io::Result<Vec<String>> {
    Ok(env::args(rt)?.skip(1).collect(rt.alloc())?)
}

/// The status of what was done.
const DONE: Status = Status(0);

/// The status of a name that a file has already.
const THERE: Status = Status(9);

/// Prints this line, and gives the status that goes with it, or that of an output that failed.
fn end_with<K: Sink>(output: &mut K, line: &str, status: Status) -> Status {
    match output.write(line.as_bytes()) {
        Ok(()) => status,
        Err(_) => Status::OUTPUT_FAULT,
    }
}

/// Says that there was no memory for the words, or for the logs.
fn tell_memory(rt: &HostRuntime) -> Status {
    let mut output = OutSink::new(io::writer(rt));
    end_with(&mut output, "memory\n", Status::NO_MEMORY)
}

/// Says that a file has this name already, which is to be free.
fn tell_there(rt: &HostRuntime, name: &str) -> Result<Status, AllocError> {
    let line = format!(in rt.alloc(); "there {name}\n")?;
    let mut output = OutSink::new(io::writer(rt));
    Ok(end_with(&mut output, line.as_str(), THERE))
}

/// Says that there can't be a log.
fn tell_log_fault(rt: &HostRuntime) -> Status {
    let mut output = OutSink::new(io::writer(rt));
    end_with(&mut output, "log fault\n", Status::LOG_FAULT)
}

/// Says on standard error why a call of the system failed, where one did: of the files, the output or the input. What
/// can't be said there is left out.
fn tell_reason<R: io::Read, W: io::Write>(
    rt: &HostRuntime,
    status: Status,
    files: &DirFiles,
    input: &InSource<R>,
    output: &OutSink<W>,
) {
    if status == Status::DEVICE_FAULT
        && let Some(fault) = files.last_fault()
    {
        let _ = eprintln!(rt; "tdb: {fault}");
    } else if status == Status::OUTPUT_FAULT
        && let Some(reason) = output.last_fault()
    {
        let _ = eprintln!(rt; "tdb: standard output: {reason}");
    } else if status == Status::INPUT_FAULT
        && let Some(reason) = input.last_fault()
    {
        let _ = eprintln!(rt; "tdb: standard input: {reason}");
    }
}

/// What of a command a person is told: the bytes of its files, of its input or of its output.
#[derive(Clone, Copy, PartialEq, Eq)]
enum Shown {
    Files,
    Input,
    Output,
}

/// What a person is told of the command of these words while it runs, where it may be a long one. Of a dump to a
/// terminal nothing is, whose lines it would stand among.
fn shown_of(rt: &HostRuntime, words: &[String]) -> Option<Shown> {
    match words.first()?.as_str() {
        "backup" | "convert" | "mend" => Some(Shown::Files),
        "tool" if words.last()?.as_str() == "repack" => Some(Shown::Files),
        "restore" => Some(Shown::Input),
        "dump" if !rt.stdout().is_terminal() => Some(Shown::Output),
        _ => None,
    }
}

/// Whether the input of these words is the lines of a session that a person types.
fn is_typed(rt: &HostRuntime, words: &[String]) -> bool {
    words.first().is_some_and(|word| word.as_str() == "tool") && rt.stdin().is_terminal()
}

/// The status, or where a new file didn't get its name, of which nothing was printed then, that of a failed device,
/// which is printed, and on standard error why.
fn check_named(rt: &HostRuntime, status: Status, files: &DirFiles) -> Status {
    let Some(fault) = files.last_unnamed() else {
        return status;
    };
    let _ = eprintln!(rt; "tdb: {fault}");
    let mut output = OutSink::new(io::writer(rt));
    end_with(&mut output, "device fault\n", Status::DEVICE_FAULT)
}

/// Puts the file that was made of one that is to be mended in the place of that, where it was made and has a name: the
/// status then, or where that can't be done that of a failed device, which is printed, and on standard error why.
fn put_mended(rt: &HostRuntime, status: Status, mended: &InPlace, files: &mut DirFiles) -> Status
    requires { (name : List ℕ) → name_is_taken files.old name ≡ false }
    ensures free { (name : List ℕ) → name_is_taken files.new name ≡ false }
{
    if status != DONE || mended.put(files) {
        return status;
    }
    if let Some(fault) = files.last_fault() {
        let _ = eprintln!(rt; "tdb: {fault}");
    }
    let mut output = OutSink::new(io::writer(rt));
    end_with(&mut output, "device fault\n", Status::DEVICE_FAULT)
}

/// How files are dealt with that are looked at behind a run: none is waited for, and nobody is warned of another
/// program again.
fn quiet(manner: Manner) -> Manner {
    Manner {
        seconds: 0,
        warns: false,
        ..manner
    }
}

/// Ends a run over these files that ended so: a new file takes the place of the one that is to be mended, and a person
/// is told what can be done with one that was refused.
fn finish(
    rt: &HostRuntime,
    status: Status,
    manner: Manner,
    mended: Option<&InPlace>,
    files: DirFiles,
) -> Status
    requires { (name : List ℕ) → name_is_taken files name ≡ false }
{
    let named = check_named(rt, status, &files);
    let mut files = files.with_manner(keeping(manner));
    let ended = match mended {
        Some(mended) => put_mended(rt, named, mended, &mut files),
        None => named,
    };
    let mut files = files.with_manner(quiet(manner));
    let kept = files.take_kept();
    tell_kept(rt, kept.as_slice(), &mut files);
    tell_way_out(rt, ended, &mut files);
    ended
}

/// Runs the words over the files of the system, and tells these logs, and the files for which fault one was refused.
fn run_logged<L: Logs + Drop>(
    rt: HostRuntime,
    words: &[String],
    mended: Option<&InPlace>,
    logs: L,
) -> Result<Status, AllocError> {
    let alloc = rt.alloc();
    let silence = Silence::new(alloc)?;
    let finding = Finding::new(alloc)?;
    let shown = shown_of(&rt, words);
    let progress = shown.and_then(|_| Progress::on_terminal(rt));
    let when = |what| progress.filter(|_| shown == Some(what));
    let manner = manner_of(&rt, words);
    let mut files = DirFiles::new(rt)
        .with_manner(manner)
        .with_silence(silence.share()?)
        .with_finding(finding.share()?)
        .with_progress(when(Shown::Files));
    let mut logs = FindingLogs::over(logs, finding);
    let source = InSource::new(rt.reader()).with_progress(when(Shown::Input));
    let told = OutSink::new(rt.stderr());
    let mut input = if is_typed(&rt, words) {
        TerminalSource::asking(alloc, source, told)
    } else {
        TerminalSource::passing(alloc, source, told)
    };
    let mut output = OutSink::new(io::writer(&rt))
        .with_silence(silence)
        .with_progress(when(Shown::Output));
    let status = run(alloc, words, &mut files, &mut input, &mut output, &mut logs);
    if let Some(progress) = progress {
        progress.clear();
    }
    if files.last_unnamed().is_none() {
        tell_reason(&rt, status, &files, input.source(), &output);
        tell_asked(&rt, status, words);
    }
    let files = files.with_progress(None);
    Ok(finish(&rt, status, manner, mended, files))
}

/// Runs the words, those of a mending in its place as those of one to another name, and tells the logs of the run: one
/// that counts, and over it, where the environment names a file, one that writes to that.
fn run_words(
    rt: HostRuntime,
    words: &[String],
    mended: Option<&InPlace>,
) -> Result<Status, AllocError> {
    let mut logs: Vec<Box<dyn Log>> = Vec::new(rt.alloc());
    logs.push(Box::new(rt.alloc(), CountLog::new())?)?;
    match env::var(&rt, LOG_VARIABLE) {
        Ok(path) if path.is_empty() => {}
        Ok(path) => match FileSink::create(&rt, &path) {
            Ok(sink) => logs.push(Box::new(rt.alloc(), SinkLog::new(sink))?)?,
            Err(reason) => {
                let _ = eprintln!(rt; "tdb: {LOG_VARIABLE}: {path}: {reason}");
                return Ok(tell_log_fault(&rt));
            }
        },
        Err(VarError::NotPresent) => {}
        Err(VarError::OutOfMemory) => return Err(AllocError),
        Err(error) => {
            let _ = eprintln!(rt; "tdb: {LOG_VARIABLE}: {error}");
            return Ok(tell_log_fault(&rt));
        }
    }
    run_logged(rt, words, mended, logs)
}

/// Runs these words. A file that is to be mended in its place is mended to another name first, unless the one is taken
/// under which it is to stay.
fn run_asked(rt: HostRuntime, words: &[String]) -> Result<Status, AllocError> {
    let Some(mended) = InPlace::of(rt.alloc(), words)? else {
        return run_words(rt, words, None);
    };
    match mended.taken_name(&rt) {
        Some(name) => tell_there(&rt, name),
        None => {
            mended.clear(rt);
            run_words(rt, mended.words(), Some(&mended))
        }
    }
}

/// Runs the words of the command line over the files of the system.
fn run_line(rt: HostRuntime) -> Result<Status, AllocError> {
    match words_of(&rt) {
        Err(error) if error.kind() == io::ErrorKind::OutOfMemory => Err(AllocError),
        // A word that is no text makes no command line, and neither do no words.
        answer => run_asked(rt, answer.unwrap_or(Vec::new(rt.alloc())).as_slice()),
    }
}

fn main(rt: HostRuntime) -> ExitCode {
    let Status(status) = match run_line(rt) {
        Ok(status) => status,
        Err(AllocError) => tell_memory(&rt),
    };
    ExitCode::from(status)
}
