// Two openers of one file in memory, with one lock table and one list of the records on which their cursors stand.

ghost use Rattle.std.specs.Prelude.{◌≡◌, ◌≤◌, ◌<◌, ◌+◌, ◌^◌, ℕ, length, IsTrue, IfSome, None};
ghost use Rattle.tdb_space.specs.Spare.{Spare};
ghost use Rattle.tdb_locks.specs.HeldLocks.{HeldLocks, nothing_held};
ghost use Rattle.tdb_locks.specs.LockTable.{held};
ghost use Rattle.tdb_steps.specs.LockRows.{start_of, rows_of, AllStandAlone};
ghost use Rattle.tdb_steps.specs.Machines.{IsShort, Fits};
ghost use Rattle.tdb_walk.specs.ByteLocks.{HoldsWords};
ghost use Rattle.transaction_tests.specs.Words.{IsWordOf};

use crate::told::letters;
use std::alloc::Global;
use tdb_disk::MemDisk;
use tdb_locks::{Held, Locks, Piece, Spots, Turn};
use tdb_space::{Direct, Io};
use tdb_steps::{Flag, Machine, Plain, Region};
use tdb_walk::{Goal, Walk, close_turn};
use tdb_words::{Bytes, HashKind, Header, Order};

/// How long a file may be where nothing else is said.
pub(crate) const MOST: u64 = 4_294_963_200;

/// A command without its key and its value.
#[derive(Clone, Copy)]
pub(crate) enum Word {
    Fetch,
    Has,
    Store(Flag),
    Append,
    Delete,
    Wipe,
}

/// What an opener does: turns of its cursor, its end, or a plain command with a key and a value.
#[derive(Clone, Copy)]
pub(crate) enum Act {
    Walk(Goal),
    Close,
    Plain(Word, &'static [u8], &'static [u8]),
}

/// What an opener holds of these bytes: those of chain 7, of the free list, of the record at 4064, and of a record far
/// away.
pub(crate) type Kinds = [u8; 4];

pub(crate) const BYTES: [u64; 4] = [196, 164, 4064, 1_000_000];

/// The turns of what an opener did: the last one, how many they are, what opener 1 held after each, and whether the
/// opener is live.
#[derive(Drop)]
pub(crate) struct Turns {
    pub(crate) end: Result<Turn, Io>,
    pub(crate) count: usize,
    pub(crate) kinds: [Kinds; 8],
    pub(crate) live: bool,
}

impl Turns {
    /// Whether opener 1 held what is wanted after these turns, up to one of them.
    pub(crate) fn hold(&self, kinds: &[Kinds], upto: usize) -> bool {
        self.kinds.get(..upto) == kinds.get(..upto)
    }
}

/// The command of a word, with at most 9999 bytes of the key and of the value.
pub(crate) fn command(alloc: Global, word: Word, key: &[u8], value: &[u8]) -> Option<Plain>
    ensures { IfSome result IsShort }
{
    let key = Bytes::copy(alloc, &key[..key.len().min(9999)]).ok()?;
    let value = Bytes::copy(alloc, &value[..value.len().min(9999)]).ok()?;
    Some(match word {
        Word::Fetch => Plain::Fetch { key },
        Word::Has => Plain::Has { key },
        Word::Store(flag) => Plain::Store { key, value, flag },
        Word::Append => Plain::Append { key, value },
        Word::Delete => Plain::Delete { key },
        Word::Wipe => Plain::Wipe,
    })
}

/// Whether a piece is another opener's, or one byte that isn't 3 past a multiple of 4.
fn is_word_of(piece: &Piece, owner: u32) -> bool
    ensures { IsTrue result → IsWordOf owner piece.now }
{
    piece.owner != owner
        || (piece.start % 4 != 3 && piece.start < piece.end && piece.end - piece.start == 1)
}

/// Whether so is each piece of a table: a cursor of the opener can take a turn then.
fn holds_words(locks: &Locks, owner: u32) -> bool
    ensures { IsTrue result → HoldsWords nothing_held owner locks.now }
{
    for i in 0..locks.piece_count() {
        if let Some(piece) = locks.piece(i) {
            if !is_word_of(&piece, owner) {
                return false;
            }
        }
    }
    true
}

/// Whether an opener holds nothing at the byte before a region.
fn is_bare(locks: &Locks, owner: u32, region: Region) -> bool
    ensures { IsTrue result → (b : ℕ) → b + 1 ≡ start_of region → held locks.now owner b ≡ None }
{
    let before = match region {
        Region::Chain(chain) => 167 + 4 * u64::from(chain),
        Region::FreeList => 163,
        Region::AllRecords => 167,
    };
    locks.kind_of(owner, before).is_none()
}

/// Whether it holds nothing at the bytes before the regions of a command's locks.
fn stands_alone(locks: &Locks, owner: u32, machine: &Machine) -> bool
    ensures { IsTrue result → (explicit : HeldLocks) → AllStandAlone explicit owner locks.now (rows_of machine.now.command machine.now.chain) }
{
    let rows = machine.rows();
    if !is_bare(locks, owner, rows.first.region) {
        return false;
    }
    match rows.second {
        Some(row) => is_bare(locks, owner, row.region),
        None => true,
    }
}

/// The openers 1 and 2 of a file. Whether changes raise its sequence number, how long it may be, and whether it was
/// opened for reading alone.
#[derive(Drop)]
pub(crate) struct Openers {
    alloc: Global,
    header: Header,
    pub(crate) counts: bool,
    pub(crate) limit: u64,
    pub(crate) read_only: bool,
    pub(crate) locks: Locks,
    pub(crate) spots: Spots,
    ghost chains: { 0 < header.hash_size },
    ghost entries: { length spots ≡ 2 },
}

impl Openers {
    /// Openers of a file of so many chains, which does not count its changes.
    pub(crate) fn new(alloc: Global, order: Order, chains: u32) -> Option<Openers> {
        let mut spots = Spots::new(alloc);
        spots.push(0).ok()?;
        spots.push(0).ok()?;
        let header = Header {
            order,
            hash: HashKind::Old,
            hash_size: chains.max(1),
            recovery_start: 0,
            sequence: 0,
        };
        Some(Openers {
            alloc,
            header,
            counts: false,
            limit: MOST,
            read_only: false,
            locks: Locks::new(alloc),
            spots,
        })
    }

    /// Lets changes count, or not, and the file be so long.
    pub(crate) fn allow(&mut self, counts: bool, limit: u64) {
        self.counts = counts;
        self.limit = limit;
    }

    /// Takes turns of an opener's cursor, or of its end where there is no goal, up to one that isn't a step, but at
    /// most so many.
    fn walk(
        &mut self,
        disk: &mut MemDisk,
        who: u32,
        walk: &mut Walk,
        goal: Option<Goal>,
        most: usize,
    ) -> Option<Turns>
        requires named { 0 < who }
        requires there { who ≤ 2 }
    {
        let mut live = true;
        let mut kinds = [[0; 4]; 8];
        let mut s = Direct::new(disk, &self.header);
        for i in 0..most.min(8) {
            let mut held = Held::new(self.alloc);
            if !holds_words(&self.locks, who) {
                return None;
            }
            let told = match goal {
                Some(goal) => walk.turn(
                    self.alloc,
                    &mut s,
                    &mut self.locks,
                    who,
                    &held,
                    &mut self.spots,
                    goal,
                    self.read_only,
                ),
                None => close_turn(
                    self.alloc,
                    &mut s,
                    &mut self.locks,
                    who,
                    &mut live,
                    &mut held,
                    walk,
                    &mut self.spots,
                    self.read_only,
                ),
            };
            kinds[i] = letters(&self.locks, 1, BYTES);
            if told != Ok(Turn::Step) {
                return Some(Turns {
                    end: told,
                    count: i + 1,
                    kinds,
                    live,
                });
            }
        }
        Some(Turns {
            end: Ok(Turn::Step),
            count: most,
            kinds,
            live,
        })
    }

    /// Takes turns of a plain command so.
    fn run(
        &mut self,
        disk: &mut MemDisk,
        who: u32,
        machine: &mut Machine,
        most: usize,
    ) -> Option<Turns>
        requires fits { (size : ℕ) (spare : Spare) → Fits machine.old size spare }
    {
        let held = Held::new(self.alloc);
        let mut kinds = [[0; 4]; 8];
        let mut s = Direct::new(disk, &self.header);
        for i in 0..most.min(8) {
            if !stands_alone(&self.locks, who, machine) {
                return None;
            }
            let told = machine.step(
                self.alloc,
                &mut s,
                &mut self.locks,
                who,
                &held,
                &self.spots,
                self.limit.min(MOST),
            );
            kinds[i] = letters(&self.locks, 1, BYTES);
            if told != Ok(Turn::Step) {
                return Some(Turns {
                    end: told,
                    count: i + 1,
                    kinds,
                    live: true,
                });
            }
        }
        Some(Turns {
            end: Ok(Turn::Step),
            count: most,
            kinds,
            live: true,
        })
    }

    /// Takes turns of what an opener does, up to one that isn't a step, but at most so many. None where memory is
    /// wanting, or where its locks don't let it take one.
    pub(crate) fn take_turns(
        &mut self,
        disk: &mut MemDisk,
        who: u32,
        walk: &mut Walk,
        act: Act,
        most: usize,
    ) -> Option<Turns>
        requires named { 0 < who }
        requires there { who ≤ 2 }
    {
        match act {
            Act::Walk(goal) => self.walk(disk, who, walk, Some(goal), most),
            Act::Close => self.walk(disk, who, walk, None, most),
            Act::Plain(word, key, value) => {
                let command = command(self.alloc, word, key, value)?;
                let mut machine = Machine::new(command, &self.header, self.counts);
                let turns = self.run(disk, who, &mut machine, most);
                machine.end();
                turns
            }
        }
    }
}
