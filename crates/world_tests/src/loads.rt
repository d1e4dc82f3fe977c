//! Tests of generated commands, over the public calls of `tdb_gen`: small loads and their summaries.

use crate::files::{NEW, OPTIONS, disk_of};
use std::alloc::{AllocError, Global};
use tdb_disk::Disk;
use tdb_gen::{Summary, generate};
use tdb_log::Log;
use tdb_world::World;

/// What an empty file gives for no commands.
const NOTHING: &[u8] =
    b"commands 0\nok 0\ndata 0\nnoexist 0\nyes 0\nno 0\nfull 0\nmemory 0\nblocked 0\nlive 0\nlength 696\n";

/// And for one command from the seed 1, which stores 150 bytes.
const ONE_STORE: &[u8] =
    b"commands 1\nok 1\ndata 0\nnoexist 0\nyes 0\nno 0\nfull 0\nmemory 0\nblocked 0\nlive 1\nlength 4096\n";

/// Generates commands on a file, where that is whole, and gives the disk back.
fn load<D: Disk>(alloc: Global, disk: D, commands: u32, seed: u32) -> (D, Option<Summary>) {
    let mut logs: Vec<Box<dyn Log>> = Vec::new(alloc);
    match World::load(alloc, disk, &OPTIONS, &mut logs) {
        Ok((world, opened)) => {
            let (disk, made) = generate(alloc, world, &opened.header, commands, seed, &mut logs);
            (disk, made.ok())
        }
        Err((disk, _)) => (disk, None),
    }
}

/// How many commands from a seed, and their summary on a new file.
static LOADS: [(&'static str, u32, u32, &'static [u8]); 2] = [
    ("no command", 0, 7, NOTHING),
    ("one command", 1, 1, ONE_STORE),
];

/// Whether commands from a seed have this summary on a new file.
fn load_holds(alloc: Global, commands: u32, seed: u32, text: &[u8]) -> Result<bool, AllocError> {
    Ok(match load(alloc, disk_of(alloc, &NEW)?, commands, seed) {
        (_, Some(summary)) => summary.text(alloc)?.as_slice() == text,
        (_, None) => false,
    })
}

/// The first load that has another summary.
fn failing_load(alloc: Global) -> Result<Option<&'static str>, AllocError> {
    for (name, commands, seed, text) in &LOADS {
        if !load_holds(alloc, *commands, *seed, text)? {
            return Ok(Some(*name));
        }
    }
    Ok(None)
}

#[test]
fn loads_are_generated(rt: HostRuntime) {
    assert_eq!(rt; failing_load(rt.alloc()), Ok(None));
}
