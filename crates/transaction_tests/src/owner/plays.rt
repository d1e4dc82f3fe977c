// Commands of an opener that has a transaction over the small file, turn by turn.
ghost use Rattle.std.specs.Prelude.{◌≡◌, ℕ, false, IfSome};
ghost use Rattle.tdb_commands.specs.Short.{IsShortCommand};
ghost use Rattle.tdb_disk.specs.MemDisk.{memory_size};
ghost use Rattle.tdb_txn_owner.specs.Holders.{is_idle};
ghost use Rattle.tdb_txn_owner.specs.Stages.{IsFit};

use crate::told::{Told, is_told};
use std::alloc::Global;
use tdb_commands::Command;
use tdb_disk::MemDisk;
use tdb_locks::Turn;
use tdb_space::Io;
use tdb_steps::Flag;
use tdb_txn_owner::{Moved, Options, TxnOwner, Wants};
use tdb_words::{Bytes, HashKind, Header, Order};

/// The header of the file.
const HEADER: Header = Header {
    order: Order::Little,
    hash: HashKind::Old,
    hash_size: 131,
    recovery_start: 0,
    sequence: 0,
};

/// The greatest length of the file.
const LIMIT: u64 = 1_048_576;

/// A command by its word. The key is `a`, and a value is one byte.
pub(crate) enum Word {
    Fetch,
    Store(u8),
    Start,
    Commit,
    Prepare,
    Cancel,
    First,
    Next,
    Close,
}

/// The command of a word.
pub(crate) fn command(alloc: Global, word: &Word) -> Option<Command>
    ensures { IfSome result IsShortCommand }
{
    Some(match word {
        Word::Fetch => Command::Fetch {
            key: Bytes::copy(alloc, b"a").ok()?,
        },
        Word::Store(value) => Command::Store {
            key: Bytes::copy(alloc, b"a").ok()?,
            value: Bytes::copy(alloc, &[*value]).ok()?,
            flag: Flag::Replace,
        },
        Word::Start => Command::Start,
        Word::Commit => Command::Commit,
        Word::Prepare => Command::Prepare,
        Word::Cancel => Command::Cancel,
        Word::First => Command::First,
        Word::Next => Command::Next,
        Word::Close => Command::Close,
    })
}

/// How the file is: how many syncs were made, its length, the value of its record, and the first byte of the gate word
/// where it has an undo area, or else 0.
pub(crate) struct FileState {
    pub(crate) syncs: u64,
    pub(crate) len: usize,
    pub(crate) value: u8,
    pub(crate) gate: u8,
}

/// A turn: what the opener wanted of the lock bytes before it, what it led to, and the file after it.
pub(crate) struct Moment {
    pub(crate) wants: Wants,
    pub(crate) told: Told,
    pub(crate) file: FileState,
}

/// Commands after a Start of opener 1, where changes raise the sequence number or not. How many turns of the last one
/// are taken at most. The turns from one on, which must be all that there are, where any are looked at.
#[derive(Drop)]
pub(crate) struct Commands {
    pub(crate) numbered: bool,
    pub(crate) words: &'static [Word],
    pub(crate) most: u32,
    pub(crate) from: usize,
    pub(crate) moments: &'static [Moment],
}

/// The turns that were taken: how many they are, what the last one told, and whether they went so.
#[derive(Drop)]
pub(crate) struct Course {
    pub(crate) count: usize,
    pub(crate) last: Result<Turn, Io>,
    pub(crate) is_so: bool,
}

/// The byte of the file at a place, and 0 where it is shorter.
pub(crate) fn byte_at(disk: &MemDisk, at: usize) -> u8 {
    match disk.as_slice().get(at) {
        Some(byte) => *byte,
        None => 0,
    }
}

/// Whether a turn went so.
fn is_moment(want: &Moment, wants: Wants, told: &Result<Turn, Io>, disk: &MemDisk) -> bool {
    want.wants == wants
        && is_told(&want.told, told)
        && disk.syncs() == want.file.syncs
        && disk.as_slice().len() == want.file.len
        && byte_at(disk, 4089) == want.file.value
        && byte_at(disk, 4116) == want.file.gate
}

/// Takes a turn of the opener's command: the opener after it.
fn take_turn(
    alloc: Global,
    holder: TxnOwner,
    disk: &mut MemDisk,
    commands: &Commands,
    course: &mut Course,
) -> Option<TxnOwner>
    requires fits { IsFit holder.stage HEADER LIMIT (memory_size disk.old) }
    requires busy { is_idle holder.stage ≡ false }
    ensures { IfSome result (λ next. IsFit next.stage HEADER LIMIT (memory_size disk.new)) }
{
    let options = Options {
        limit: LIMIT,
        nesting: true,
        read_only: false,
        seqnum: commands.numbered,
    };
    let wants = holder.wants();
    let (told, next) = match holder.turn(alloc, disk, &HEADER, &options) {
        Ok(Moved { turn, holder }) => (Ok(turn), holder),
        Err(Io) => (Err(Io), None),
    };
    if course.count >= commands.from {
        course.is_so = match commands.moments.get(course.count - commands.from) {
            Some(want) => course.is_so && is_moment(want, wants, &told, disk),
            None => false,
        };
    }
    course.count = course.count.saturating_add(1);
    course.last = told;
    next
}

/// Gives an idle opener a command. It is given up where memory is wanting, or where it may not get one.
fn assigned(alloc: Global, holder: TxnOwner, word: &Word) -> Option<TxnOwner>
    ensures busy { IfSome result (λ next. is_idle next.stage ≡ false) }
    ensures fits { IfSome result (λ next. (size : ℕ) → IsFit holder.stage HEADER LIMIT size → IsFit next.stage HEADER LIMIT size) }
{
    let mut holder = holder;
    let Some(command) = command(alloc, word) else {
        holder.end();
        return None;
    };
    if !holder.is_idle() || !holder.may_be_given(&command) {
        holder.end();
        return None;
    }
    holder.assign(command);
    Some(holder)
}

/// Takes the turns of the commands: what they told, and the opener that is left. None where memory is wanting, or where
/// the opener may not get one of them.
pub(crate) fn play(
    alloc: Global,
    disk: &mut MemDisk,
    commands: &Commands,
) -> Option<(Course, Option<TxnOwner>)>
    requires { memory_size disk.old ≡ 4096 }
{
    let mut course = Course {
        count: 0,
        last: Ok(Turn::Step),
        is_so: true,
    };
    let (mut given, mut turns) = (0, 0u32);
    let mut left = TxnOwner::start(alloc, 1);
    for _ in 0..64 {
        if left.is_idle() {
            match commands.words.get(given) {
                Some(word) => left = assigned(alloc, left, word)?,
                None => break,
            }
            given += 1;
        }
        if given == commands.words.len() {
            if turns >= commands.most {
                break;
            }
            turns += 1;
        }
        match take_turn(alloc, left, disk, commands, &mut course) {
            Some(next) => left = next,
            None => return Some((course, None)),
        }
    }
    Some((course, Some(left)))
}
