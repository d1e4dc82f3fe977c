// A new file whose name another program takes before the file is given back.

use crate::edits::{Edit, is_done, removes, renames};
use crate::files::folder::{Left, has_all, is_told, lay};
use crate::rows::Row;
use std::fs::File;
use tdb_disk::{Files, Sink, Take};
use tdb_files::{DirFiles, OutSink, Silence};

/// The name of the file, and what it is called until it is whole.
const FILE: &str = "tdb_files_test/lost";

const PART: &str = "tdb_files_test/lost.tdb-new";

/// The name that it is to get then.
const LATER: &str = "tdb_files_test/later";

/// What the output goes to.
const SAID: &str = "tdb_files_test/said";

/// What the other program has in its file.
const OTHERS: &[u8] = b"others";

static LEFT: [Left; 4] = [
    (SAID, Some(b"one")),
    (FILE, Some(OTHERS)),
    (LATER, None),
    (PART, None),
];

/// What a user is told of a name that was lost.
pub(crate) struct Lost(&'static str);

pub(crate) static LOST: [(&'static str, Lost); 1] = [(
    "a name that another file has",
    Lost("tdb_files_test/lost: File exists"),
)];

impl Row for Lost {
    // No answer is printed behind the fault, and neither file gets another name.
    fn holds(&self, rt: HostRuntime) -> Option<bool> {
        let alloc = rt.alloc();
        let silence = Silence::new(alloc).ok()?;
        let mut files = DirFiles::new(rt).with_silence(silence.share().ok()?);
        let mut output = OutSink::new(File::create(&rt, SAID).ok()?).with_silence(silence);
        let mut disk = files.take(alloc, FILE, Take::New).ok()?;
        let is_laid = output.write(b"one").is_ok()
            && is_done(&mut disk, &Edit::Grow(4)) == Some(true)
            && is_done(&mut disk, &Edit::Sync) == Some(true)
            && lay(rt, FILE, OTHERS, 0o600).is_ok();
        files.give(FILE, disk);
        let is_told = is_told(rt, files.last_unnamed(), self.0) && files.last_fault().is_none();
        let is_silent = output.write(b"two").is_err();
        let is_kept = !renames(&mut files, FILE, LATER) && removes(&mut files, FILE);
        Some(is_laid && is_told && is_silent && is_kept && has_all(rt, &LEFT))
    }
}
