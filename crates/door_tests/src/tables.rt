// Tables of command lines: the files that they run over, and what they leave.

ghost use Rattle.std.specs.Prelude.{◌≡◌, ℕ, List, false, IfOk};
ghost use Rattle.tdb_disk.specs.MemFiles.{name_is_taken};

use crate::images::{Image, bytes_of, has_words};
use crate::runs::{Failing, Line, answer};
use small_file::Word;
use std::alloc::{AllocError, Global};
use tdb_disk::MemFiles;
use tdb_log::Log;

/// A file by its name.
pub(crate) type File = (&'static str, Image);

/// What has to be left at a name: no file; a file of these bytes, of other ones, of this length, or with these
/// little-endian words; or one of which a check by the program prints this.
pub(crate) enum Left {
    Missing,
    Bytes(Image),
    Other(Image),
    Length(usize),
    Words(&'static [Word]),
    Checks(&'static str),
}

/// Lines of which so many at a time run in turn, over files that are made anew for them, and what each such part
/// leaves.
pub(crate) struct Table {
    pub(crate) files: &'static [File],
    pub(crate) in_turn: usize,
    pub(crate) lines: &'static [Line<'static>],
    pub(crate) left: &'static [(&'static str, Left)],
}

/// These files in memory.
pub(crate) fn files_of(alloc: Global, list: &[File]) -> Result<MemFiles, AllocError>
    ensures { IfOk result (λ files. (name : List ℕ) → name_is_taken files name ≡ false) }
{
    let mut files = MemFiles::new(alloc);
    for (name, image) in list {
        files.put(name, &bytes_of(alloc, image, &[])?)?;
    }
    Ok(files)
}

/// Whether a check of a file of these bytes has this status, and prints this.
pub(crate) fn checks(
    alloc: Global,
    bytes: &[u8],
    status: u8,
    printed: &str,
) -> Result<bool, AllocError> {
    let mut files = MemFiles::new(alloc);
    files.put("f.tdb", bytes)?;
    let logs = &mut Vec::new(alloc);
    let line = "tool f.tdb check";
    let (found, text) = answer(alloc, &mut files, line, b"", &Failing::Nothing, logs)?;
    Ok(found == status && text.as_slice() == printed.as_bytes())
}

/// Whether what is found at a name is what has to be left there.
fn stands(alloc: Global, found: Option<&[u8]>, left: &Left) -> Result<bool, AllocError> {
    let Some(bytes) = found else {
        return Ok(matches!(left, Left::Missing));
    };
    Ok(match left {
        Left::Missing => false,
        Left::Bytes(image) => bytes == bytes_of(alloc, image, &[])?.as_slice(),
        Left::Other(image) => bytes != bytes_of(alloc, image, &[])?.as_slice(),
        Left::Length(len) => bytes.len() == *len,
        Left::Words(words) => has_words(alloc, bytes, words)?,
        Left::Checks(printed) => checks(alloc, bytes, 0, printed)?,
    })
}

/// The name of the first file that isn't what has to be left.
fn unlike<'a>(
    alloc: Global,
    files: &MemFiles,
    left: &[(&'a str, Left)],
) -> Result<Option<&'a str>, AllocError> {
    for (name, left) in left {
        if !stands(alloc, files.get(name), left)? {
            return Ok(Some(*name));
        }
    }
    Ok(None)
}

/// The first of these lines that has another status or prints something else, in turn over these files, with these
/// logs; or the last one with the first name at which they leave something else.
pub(crate) fn failing_part<'a>(
    alloc: Global,
    files: &[File],
    lines: &[Line<'a>],
    left: &[(&'a str, Left)],
    logs: &mut Vec<Box<dyn Log>>,
) -> Result<Option<(&'a str, &'a str)>, AllocError> {
    let mut files = files_of(alloc, files)?;
    for (words, text, failing, status, printed) in lines {
        let (found, bytes) = answer(alloc, &mut files, words, text.as_bytes(), failing, logs)?;
        if found != *status || bytes.as_slice() != printed.as_bytes() {
            return Ok(Some((*words, "")));
        }
    }
    let last = match lines.last() {
        Some(line) => line.0,
        None => "",
    };
    Ok(match unlike(alloc, &files, left)? {
        Some(name) => Some((last, name)),
        None => None,
    })
}

/// Where tables fail first: a line, and the name of a file where that isn't what the line had to leave.
pub(crate) fn first_failure(
    alloc: Global,
    tables: &[Table],
) -> Result<Option<(&'static str, &'static str)>, AllocError> {
    for table in tables {
        for lines in table.lines.chunks(table.in_turn.max(1)) {
            let logs = &mut Vec::new(alloc);
            let failure = failing_part(alloc, table.files, lines, table.left, logs)?;
            if failure.is_some() {
                return Ok(failure);
            }
        }
    }
    Ok(None)
}
