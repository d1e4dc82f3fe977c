//! Generated commands of three openers of one file, in memory and on a real one.

ghost use Rattle.std.specs.Prelude.{◌≡◌, List, ℕ, false};
ghost use Rattle.tdb_disk.specs.declared.files.Take.{Take as WayIs};

use anyhow::Context;
use std::alloc::Global;
use std::time::Instant;
use tdb_commands::Options;
use tdb_disk::{Disk, Files, MemFiles, Take};
use tdb_files::DirFiles;
use tdb_gen::{GenFault, Summary, generate};
use tdb_log::Log;
use tdb_open::NewForm;
use tdb_words::{Bytes, HashKind, Order};
use tdb_world::World;

/// The file.
const NAME: &str = "bench.tdb";

/// What it is made with.
const FORM: NewForm = NewForm {
    size: 131,
    hash: HashKind::Old,
    order: Order::Little,
};

const OPTIONS: Options = Options {
    limit: 4_294_963_200,
    nesting: true,
    read_only: false,
    seqnum: false,
};

/// The text of the summary of generated commands.
fn generated(alloc: Global, made: Result<Summary, GenFault>) -> anyhow::Result<Bytes> {
    Ok(made?.text(alloc)?)
}

/// Lets openers take generated commands in a new file on an empty disk, and tells what came of them. The disk comes
/// back.
fn run<D: Disk>(alloc: Global, disk: D, count: u32) -> (D, anyhow::Result<Bytes>)
    requires { D.size disk ≡ 0 }
{
    let world = match World::create(alloc, disk, FORM, &OPTIONS) {
        Ok(world) => world,
        Err((disk, refusal)) => return (disk, Err(anyhow::Error::from(refusal))),
    };
    let mut logs: Vec<Box<dyn Log>> = Vec::new(alloc);
    let (disk, made) = generate(alloc, world, &FORM.header(), count, 1, &mut logs);
    (disk, generated(alloc, made))
}

/// Does so many generated commands over a new file, which is removed again, and prints what came of them: 300 unless a
/// count is asked for. Where it is, it also prints how long they took.
fn measure_over<F: Files>(rt: HostRuntime, files: &mut F, asked: Option<u32>) -> anyhow::Result<()>
    requires free { (name : List ℕ) → F.is_taken files.old name ≡ false }
    requires way { (name : List ℕ) (how : WayIs) → F.may_take name how }
{
    let start = Instant::now(&rt)?;
    let disk = files
        .take(rt.alloc(), NAME, Take::New)
        .ok()
        .context("no file")?;
    let (disk, told) = run(rt.alloc(), disk, asked.unwrap_or(300));
    files.give(NAME, disk);
    let taken = start.elapsed(&rt)?;
    files.remove(NAME).ok().context("the file isn't removed")?;
    let told = told?;
    print!(rt; "{}", str::from_utf8(told.as_slice())?)?;
    if asked.is_some() {
        println!(rt; "milliseconds {}", taken.as_millis())?;
    }
    Ok(())
}

/// Does generated commands in memory and on a real file.
pub(crate) fn measure(rt: HostRuntime, asked: Option<u32>) -> anyhow::Result<()> {
    measure_over(rt, &mut MemFiles::new(rt.alloc()), asked)?;
    measure_over(rt, &mut DirFiles::new(rt), asked)
}
