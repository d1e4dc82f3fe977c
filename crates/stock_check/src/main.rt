//! Checks files that the stock library made, with the top call of the program, and prints each one's name and what is
//! said of it.
#![tactic(auto)]

use std::alloc::{AllocError, Global};
use std::io;
use tdb_disk::Sink;
use tdb_files::{DirFiles, InSource, OutSink};
use tdb_log::Log;
use tdb_top::{Status, run};

/// The files, which lie where the program runs.
const NAMES: [&str; 11] = [
    "empty_h131.tdb",
    "emptykv.tdb",
    "binary.tdb",
    "binary_jenkins.tdb",
    "small_h7.tdb",
    "small_be_jenkins.tdb",
    "sizes.tdb",
    "dead_traverse.tdb",
    "seqnum.tdb",
    "samba_lock.tdb",
    "gate_open.tdb",
];

/// The words of a command line that checks a file.
fn check_words(alloc: Global, name: &str) -> Result<Vec<String>, AllocError> {
    let mut words = Vec::new(alloc);
    for word in ["tool", name, "check"] {
        words.push(String::from_str(alloc, word)?)?;
    }
    Ok(words)
}

fn main(rt: HostRuntime) -> anyhow::Result<()> {
    let alloc = rt.alloc();
    let mut output = OutSink::new(io::writer(&rt));
    let mut logs: Vec<Box<dyn Log>> = Vec::new(alloc);
    for name in NAMES {
        let words = check_words(alloc, name)?;
        output.write(name.as_bytes())?;
        output.write(b" ")?;
        let mut files = DirFiles::new(rt);
        let mut input = InSource::new(rt.reader());
        let Status(_) = run(
            alloc,
            &words,
            &mut files,
            &mut input,
            &mut output,
            &mut logs,
        );
    }
    Ok(())
}
