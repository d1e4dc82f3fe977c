// Rows of plays, and whether each gives what it says.

use crate::files::{Image, disk_of};
use crate::world::files::has_words;
use crate::world::rows::ROWS;
use crate::world::worlds::{print, take_script};
use small_file::Word;
use std::alloc::{AllocError, Global};
use tdb_commands::{Options, TurnReport};
use tdb_disk::{Call, MemSink};
use tdb_log::{Log, LogRefusal, MemLog, Notice};
use tdb_world::RunFault;

/// What fails in a row: nothing, the nth call of a kind of the disk, or the first notice of each log.
pub(crate) enum Failing {
    Nothing,
    Disk(Call, u64),
    Logs,
}

/// A script that is played over a file, and what comes of it.
pub(crate) struct Row {
    /// What the row shows.
    pub(crate) what: &'static str,
    pub(crate) image: Image,
    pub(crate) options: Options,
    /// How many logs there are.
    pub(crate) logs: usize,
    pub(crate) failing: Failing,
    pub(crate) script: &'static str,
    /// The text of the report.
    pub(crate) told: &'static str,
    /// How the plays end.
    pub(crate) ends: Result<Result<(), LogRefusal>, RunFault>,
    /// Words of the file behind the plays.
    pub(crate) words: &'static [Word],
    /// How many logs are left, and all that the first of them was told.
    pub(crate) left: usize,
    pub(crate) heard: &'static [Notice],
}

/// So many logs in memory, which may fail at their first notice.
fn logs_of(alloc: Global, count: usize, fail: bool) -> Result<Vec<Box<dyn Log>>, AllocError> {
    let mut logs: Vec<Box<dyn Log>> = Vec::new(alloc);
    for _ in 0..count {
        let mut log = MemLog::new(alloc);
        if fail {
            log.fail(0)?;
        }
        logs.push(Box::new(alloc, log)?)?;
    }
    Ok(logs)
}

/// Whether the first log was told these notices alone, where there is a log.
fn was_told(logs: &[Box<dyn Log>], heard: &[Notice]) -> bool {
    let Some(log) = logs.first() else {
        return heard.is_empty();
    };
    for (i, notice) in heard.iter().enumerate() {
        if log.told(i as u64) != Some(*notice) {
            return false;
        }
    }
    log.told(heard.len() as u64).is_none()
}

/// What the first row shows that doesn't give what it says.
pub(crate) fn failing_row(alloc: Global) -> Result<Option<&'static str>, AllocError> {
    for row in &ROWS {
        let mut disk = disk_of(alloc, &row.image)?;
        let mut logs = logs_of(alloc, row.logs, matches!(row.failing, Failing::Logs))?;
        if let Failing::Disk(call, nth) = &row.failing {
            disk.fail(*call, *nth)?;
        }
        let mut report = TurnReport::new(alloc);
        let script = row.script.as_bytes();
        let (disk, ends) = take_script(alloc, disk, &row.options, script, &mut report, &mut logs);
        let mut text = MemSink::new(alloc);
        if print(alloc, &mut text, &report) != Ok(())
            || text.as_slice() != row.told.as_bytes()
            || ends != row.ends
            || !has_words(&disk, row.words)
            || logs.len() != row.left
            || !was_told(&logs, row.heard)
        {
            return Ok(Some(row.what));
        }
    }
    Ok(None)
}
