//! What can be done with a file that was refused.

ghost use Rattle.std.specs.Prelude.{◌≡◌, ℕ, List, false};
ghost use Rattle.tdb_files.specs.DirFiles.{name_is_taken};

use std::alloc::Global;
use tdb_check::{FrontRefusal, read_front};
use tdb_disk::{Files, Take};
use tdb_files::DirFiles;
use tdb_top::{Status, can_be_mended};

/// The status of a file that is refused.
const REFUSED: Status = Status(3);

/// How many bytes a header has.
const HEADER_LEN: u64 = 168;

/// The file has a whole header, so what can still be read of it can be printed.
fn has_header(alloc: Global, name: &str, files: &mut DirFiles) -> bool
    requires { (name : List ℕ) → name_is_taken files.old name ≡ false }
    ensures free { (name : List ℕ) → name_is_taken files.new name ≡ false }
{
    let Ok(mut disk) = files.take(alloc, name, Take::ReadOnly) else {
        return false;
    };
    let front = read_front(&mut disk);
    files.give(name, disk);
    match front {
        Ok(_) => true,
        Err(FrontRefusal::Short { len }) => len >= HEADER_LEN,
        Err(_) => false,
    }
}

/// Says on standard error what can be done with the file that was refused for a fault, where one was: whether it can be
/// mended is looked at, and where that can't be known nothing is said. What can't be said there is left out.
pub(crate) fn tell_way_out(rt: &HostRuntime, status: Status, files: &mut DirFiles)
    requires { (name : List ℕ) → name_is_taken files.old name ≡ false }
{
    if status != REFUSED {
        return;
    }
    let name = match files.last_refused() {
        Some(refused) => String::from_str(rt.alloc(), refused),
        None => return,
    };
    let Ok(name) = name else {
        return;
    };
    match can_be_mended(rt.alloc(), name.as_str(), files) {
        Some(true) => {
            let _ = eprintln!(rt; "tdb: {name}: 'tdb mend {name} NEW' can read it");
        }
        Some(false) if has_header(rt.alloc(), name.as_str(), files) => {
            let _ = eprintln!(rt;
                "tdb: {name}: 'tdb dump -e {name}' prints what can still be read"
            );
        }
        _ => {}
    }
}

/// Says on standard error of each refused file that was replaced, and stays under one of these names, that it can be
/// mended, where it can. What can't be said there is left out.
pub(crate) fn tell_kept(rt: &HostRuntime, kept: &[String], files: &mut DirFiles)
    requires { (name : List ℕ) → name_is_taken files.old name ≡ false }
    ensures free { (name : List ℕ) → name_is_taken files.new name ≡ false }
{
    for name in kept {
        if can_be_mended(rt.alloc(), name.as_str(), files) == Some(true) {
            let _ = eprintln!(rt; "tdb: {name}: 'tdb mend {name} NEW' can read it");
        }
    }
}
