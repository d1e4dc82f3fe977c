//! A file that is mended in its place: the new one is made under another name first, and takes its place then.

ghost use Rattle.std.specs.Prelude.{◌≡◌, ℕ, List, false};
ghost use Rattle.tdb_files.specs.DirFiles.{name_is_taken};

use std::alloc::{AllocError, Global};
use std::fs;
use tdb_disk::Files;
use tdb_files::{DirFiles, Kept, Manner, before_name};

/// What is asked for where one file is to be mended, and no other named.
#[derive(Drop)]
pub(crate) struct InPlace {
    /// The words of a mending to the name that the new file has at first.
    words: Vec<String>,
    file: String,
    new: String,
    before: String,
}

/// The file of `mend FILE` and `mend -- FILE`; None of all other words.
fn named_file(words: &[String]) -> Option<&str> {
    let (first, rest) = words.split_first()?;
    let (file, options) = rest.split_last()?;
    let is_file = match options {
        [] => !file.as_str().starts_with('-'),
        [end] => end.as_str() == "--",
        _ => false,
    };
    (first.as_str() == "mend" && is_file).then_some(file.as_str())
}

impl InPlace {
    /// What these words ask for, where they name one file that is to be mended.
    pub(crate) fn of(alloc: Global, words: &[String]) -> Result<Option<InPlace>, AllocError> {
        let Some(file) = named_file(words) else {
            return Ok(None);
        };
        let file = String::from_str(alloc, file)?;
        let new = format!(in alloc; "{file}.tmp")?;
        let before = before_name(alloc, &file)?;
        let mut words = Vec::new(alloc);
        for word in ["mend", "--", file.as_str(), new.as_str()] {
            words.push(String::from_str(alloc, word)?)?;
        }
        Ok(Some(InPlace {
            words,
            file,
            new,
            before,
        }))
    }

    pub(crate) fn words(&self) -> &[String] {
        self.words.as_slice()
    }

    /// The name under which the file is to stay, where something has it already.
    pub(crate) fn taken_name(&self, rt: &HostRuntime) -> Option<&str> {
        let is_free = fs::symlink_metadata(rt, self.before.as_str()).is_err();
        (!is_free).then_some(self.before.as_str())
    }

    /// Removes what a run that was killed left at the name that the new file has at first. Where that can't be done,
    /// the mending finds that the name is taken.
    pub(crate) fn clear(&self, rt: HostRuntime) {
        let _ = DirFiles::new(rt).remove(self.new.as_str());
    }

    /// The new file takes the place of the old one, which stays under its name and `.before`; or, where that can't be
    /// done, it is removed. Whether it was done.
    pub(crate) fn put(&self, files: &mut DirFiles) -> bool
        requires { (name : List ℕ) → name_is_taken files.old name ≡ false }
        ensures free { (name : List ℕ) → name_is_taken files.new name ≡ false }
    {
        if self.new == self.file {
            return true;
        }
        let is_put = files.rename(self.new.as_str(), self.file.as_str()).is_ok();
        if !is_put {
            let _ = files.remove(self.new.as_str());
        }
        is_put
    }
}

/// Files of which one that is replaced stays, under its name and `.before`.
pub(crate) fn keeping(manner: Manner) -> Manner {
    Manner {
        replaced: Kept::AsBefore,
        ..manner
    }
}
