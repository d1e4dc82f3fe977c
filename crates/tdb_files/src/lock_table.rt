//! The system's table of locks, as text.
ghost use Rattle.std.specs.Prelude.{◌≡◌, ◌≢◌, IfSome, Some};

use crate::identity::Identity;

/// What a lock is on.
#[derive(Clone, Copy, Debug, PartialEq, Eq)]
pub enum LockFamily {
    /// A whole open file (`flock`). Runs of this program hold such locks.
    Whole,
    /// All else: a range of bytes, as the stock library locks, or a lease.
    Other,
}

/// A lock of the table, held or waited for.
#[derive(Clone, Copy, Debug, PartialEq, Eq)]
pub struct LockEntry {
    /// What the lock is on.
    pub family: LockFamily,
    /// The process; None where it can't be told, as for a lock of an open file, or for a process of another container.
    pub process: Option<u32>,
    /// The file.
    pub file: Identity,
}

/// The file of a lock: the numbers of its device in hexadecimal, and its own in decimal, as `08:02:393225`.
fn parse_file(word: &str) -> Option<Identity> {
    let (major, rest) = word.split_once(':')?;
    let (minor, inode) = rest.split_once(':')?;
    let major = u32::from_str_radix(major, 16).ok()?;
    let minor = u32::from_str_radix(minor, 16).ok()?;
    let inode = inode.parse::<u64>().ok()?;
    Some(Identity::on_device(major, minor, inode))
}

/// The process of a lock. A number that isn't above 0 is that of no process that is seen here.
fn parse_process(word: &str) -> Option<u32> {
    match word.parse::<u32>() {
        Ok(process) if process > 0 => Some(process),
        _ => None,
    }
}

impl LockEntry {
    /// A line of the table, as `1: POSIX  ADVISORY  WRITE 1234 08:02:393225 0 EOF`; behind the first word stands `->`
    /// where the lock is waited for. None where the line is no such one.
    pub fn of_line(line: &str) -> Option<LockEntry> {
        let mut words = line.split_ascii_whitespace();
        words.next()?;
        let mut family = words.next()?;
        if family == "->" {
            family = words.next()?;
        }
        words.next()?;
        words.next()?;
        let process = parse_process(words.next()?);
        let file = parse_file(words.next()?)?;
        let family = if family == "FLOCK" {
            LockFamily::Whole
        } else {
            LockFamily::Other
        };
        Some(LockEntry {
            family,
            process,
            file,
        })
    }
}

/// The first lock of the table that is of this family, on this file and not of the process `own`. A line that can't be
/// read is left out. It costs a look at each line up to that one.
pub fn find_lock(table: &str, file: Identity, family: LockFamily, own: u32) -> Option<LockEntry>
    ensures file { IfSome result (λ entry. entry.file ≡ file) }
    ensures family { IfSome result (λ entry. entry.family ≡ family) }
    ensures other { IfSome result (λ entry. entry.process ≢ Some own) }
{
    for line in table.lines() {
        if let Some(entry) = LockEntry::of_line(line)
            && entry.file == file
            && entry.family == family
            && entry.process != Some(own)
        {
            return Some(entry);
        }
    }
    None
}

/// Whether a process has a lock of this family on this file.
pub fn has_lock(table: &str, file: Identity, family: LockFamily, process: u32) -> bool {
    let wanted = LockEntry {
        family,
        process: Some(process),
        file,
    };
    for line in table.lines() {
        if LockEntry::of_line(line) == Some(wanted) {
            return true;
        }
    }
    false
}
