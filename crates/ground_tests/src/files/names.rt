// Renames and removals of files.

use crate::edits::{removes, renames};
use crate::files::folder::{self, FOLDER, Left, has_all, lay, mode_of, set_mode};
use crate::rows::Row;
use std::{fs, io};
use tdb_files::{DirFiles, Kept, Manner};

const FROM: &str = "tdb_files_test/from";

const TO: &str = "tdb_files_test/to";

/// The first name of a file that is kept.
const KEPT: &str = "tdb_files_test/to.refused";

/// The content of a file, and its permissions.
type File = (&'static [u8], u32);

/// The file that is laid at the old name to be renamed, and whether a run that was killed has kept the one at the new
/// name already.
type Laid = (Option<File>, bool);

/// The permissions of the folder, the files that are laid in turn to be renamed, the file at the new name before the
/// first of them, and whether files that are replaced are kept. The file at the new name then, and the names of what is
/// kept.
pub(crate) struct Rename {
    folder: u32,
    from: &'static [Laid],
    to: Option<File>,
    replaced: Kept,
    left: File,
    kept: &'static [Left],
}

/// A file gets a name that is free.
const FREE: Rename = Rename {
    folder: 0o700,
    from: &[(Some((b"one", 0o600)), false)],
    to: None,
    replaced: Kept::Nowhere,
    left: (b"one", 0o600),
    kept: &[],
};

pub(crate) static RENAMES: [(&'static str, Rename); 6] = [
    ("to a name that is free", FREE),
    // As in memory.
    (
        "of a name that is free",
        Rename {
            from: &[(None, false)],
            to: Some((b"one", 0o600)),
            ..FREE
        },
    ),
    (
        "to a file, which passes its permissions on",
        Rename {
            from: &[(Some((b"two", 0o600)), false)],
            to: Some((b"one", 0o640)),
            left: (b"two", 0o640),
            ..FREE
        },
    ),
    // It can't be opened to be synced.
    (
        "in a folder that may not be read",
        Rename {
            folder: 0o300,
            ..FREE
        },
    ),
    (
        "to files that are kept, each under the next of its names",
        Rename {
            from: &[
                (Some((b"one", 0o600)), false),
                (Some((b"two", 0o600)), true),
                (Some((b"three", 0o600)), false),
            ],
            replaced: Kept::AsRefused,
            left: (b"three", 0o600),
            kept: &[
                (KEPT, Some(b"one")),
                ("tdb_files_test/to.refused.1", Some(b"two")),
            ],
            ..FREE
        },
    ),
    (
        "to a file that stays as it was before",
        Rename {
            from: &[(Some((b"two", 0o600)), false)],
            to: Some((b"one", 0o640)),
            replaced: Kept::AsBefore,
            left: (b"two", 0o640),
            kept: &[("tdb_files_test/to.before", Some(b"one"))],
            ..FREE
        },
    ),
];

/// Lays a file, where there is to be one.
fn lay_some(rt: HostRuntime, name: &str, file: Option<File>) -> io::Result<()> {
    match file {
        Some((content, mode)) => lay(rt, name, content, mode),
        None => Ok(()),
    }
}

impl Row for Rename {
    // It leaves nothing at the old name.
    fn holds(&self, rt: HostRuntime) -> Option<bool> {
        folder::make(rt).ok()?;
        lay_some(rt, TO, self.to).ok()?;
        set_mode(rt, FOLDER, self.folder).ok()?;
        let mut is_so = true;
        for (file, is_kept) in self.from {
            lay_some(rt, FROM, *file).ok()?;
            if *is_kept {
                fs::hard_link(&rt, TO, KEPT).ok()?;
            }
            let mut files = DirFiles::new(rt).with_manner(Manner {
                replaced: self.replaced,
                ..Manner::new()
            });
            is_so = is_so && renames(&mut files, FROM, TO);
        }
        set_mode(rt, FOLDER, 0o700).ok()?;
        let (content, mode) = self.left;
        let is_left = has_all(rt, &[(FROM, None), (TO, Some(content))]);
        Some(is_so && is_left && mode_of(rt, TO).ok()? == mode && has_all(rt, self.kept))
    }
}

const REMOVED: &str = "tdb_files_test/removed";

/// Names of a file that are removed in turn, whether that is done, and whether the file is there then.
pub(crate) struct Removals(&'static [(&'static str, bool, bool)]);

pub(crate) static REMOVALS: [(&'static str, Removals); 1] = [(
    "a name below the file, a folder, the file, and its name, which is free then",
    Removals(&[
        ("tdb_files_test/removed/below", true, true),
        (FOLDER, false, true),
        (REMOVED, true, false),
        (REMOVED, true, false),
    ]),
)];

impl Row for Removals {
    fn holds(&self, rt: HostRuntime) -> Option<bool> {
        lay(rt, REMOVED, b"one", 0o600).ok()?;
        for (name, done, left) in self.0 {
            let is_done = removes(&mut DirFiles::new(rt), name);
            if is_done != *done || fs::exists(&rt, REMOVED).ok()? != *left {
                return Some(false);
            }
        }
        Some(true)
    }
}
