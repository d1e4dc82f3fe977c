// Commands inside a transaction of opener 1 over the small file, step by step, and what they leave.
ghost use Rattle.std.specs.Prelude.{IfSome};
ghost use Rattle.tdb_disk.specs.MemDisk.{memory_size};
ghost use Rattle.transaction_tests.specs.Ready.{IsReady};

use crate::files::{LIMIT, is_stored, stored};
use crate::openers::{Word, command};
use crate::rows::Row;
use crate::told::{Told, is_reply};
use crate::turns::start_locks;
use small_file::HEADER;
use std::alloc::Global;
use tdb_disk::{Call, MemDisk};
use tdb_locks::{Held, Reply, Spots};
use tdb_space::{Io, read_word};
use tdb_steps::Flag;
use tdb_txn::{OverlayOn, Txn};
use tdb_txn_turns::OwnTxn;
use tdb_walk::{Goal, Walk};

const LONG: [u8; 5000] = [b'x'; 5000];

/// A step of an opener.
enum Step {
    Run(Word, &'static [u8], &'static [u8]),
    Walk(Goal),
    Check,
    Sequence,
    /// The start, the commit and the cancel of an inner transaction.
    Start,
    Commit,
    Cancel,
    /// A look at the head of chain 7 in the transaction's image, and at the length of the free record at 696.
    Look(u32, u32),
}

/// The steps of a transaction on a file that may grow up to a limit, and what each is told, in which changes raise the
/// sequence number if it is numbered. Whether anything was changed, and whether it is doomed, once they are taken. It
/// ends by a Close, or by a Cancel.
pub(crate) struct Case {
    steps: &'static [(Step, Told)],
    numbered: bool,
    limit: u64,
    changed: bool,
    doomed: bool,
    closes: bool,
}

const FIRST: (Step, Told) = (Step::Walk(Goal::First), Told::Pair(b"a", b"1"));

const AT_END: (Step, Told) = (Step::Walk(Goal::Next), Told::End);

/// A First alone.
const LOOKING: Case = Case {
    steps: &[FIRST],
    numbered: false,
    limit: LIMIT,
    changed: false,
    doomed: false,
    closes: false,
};

/// Each command sees what those before it left.
const COMMANDS: Case = Case {
    steps: &[
        (
            Step::Run(Word::Store(Flag::Replace), b"a", b"9"),
            Told::Done,
        ),
        (Step::Run(Word::Fetch, b"a", b""), Told::Value(b"9")),
        (Step::Run(Word::Append, b"a", b"8"), Told::Done),
        (Step::Run(Word::Fetch, b"a", b""), Told::Value(b"98")),
        (
            Step::Run(Word::Store(Flag::Insert), b"a", b"1"),
            Told::There,
        ),
        (
            Step::Run(Word::Store(Flag::Modify), b"z", b"1"),
            Told::Missing,
        ),
        (Step::Run(Word::Store(Flag::Insert), b"b", b"5"), Told::Done),
        (Step::Run(Word::Has, b"b", b""), Told::Yes),
        (Step::Run(Word::Delete, b"a", b""), Told::Done),
        (Step::Run(Word::Fetch, b"a", b""), Told::Missing),
        (Step::Run(Word::Wipe, b"", b""), Told::Done),
        (Step::Run(Word::Has, b"b", b""), Told::No),
    ],
    changed: true,
    ..LOOKING
};

pub(crate) static CASES: [(&'static str, Case); 10] = [
    ("commands", COMMANDS),
    // A check counts the keys of the image, whose sequence number stays.
    (
        "numbers",
        Case {
            steps: &[
                (Step::Check, Told::Number(1)),
                (Step::Sequence, Told::Number(0)),
                (
                    Step::Run(Word::Store(Flag::Replace), b"b", b"2"),
                    Told::Done,
                ),
                (
                    Step::Run(Word::Store(Flag::Replace), b"a", b"2"),
                    Told::Done,
                ),
                (Step::Check, Told::Number(2)),
                (Step::Sequence, Told::Number(0)),
            ],
            ..COMMANDS
        },
    ),
    (
        "numbers where changes count",
        Case {
            steps: &[
                (Step::Check, Told::Number(1)),
                (Step::Sequence, Told::Number(0)),
                (
                    Step::Run(Word::Store(Flag::Replace), b"b", b"2"),
                    Told::Done,
                ),
                (
                    Step::Run(Word::Store(Flag::Replace), b"a", b"2"),
                    Told::Done,
                ),
                (Step::Check, Told::Number(2)),
                (Step::Sequence, Told::Number(2)),
            ],
            numbered: true,
            ..COMMANDS
        },
    ),
    // No free record is long enough, and the file may not grow.
    (
        "a full file",
        Case {
            steps: &[(
                Step::Run(Word::Store(Flag::Replace), b"b", &LONG),
                Told::Full(4096, 6280),
            )],
            limit: 4096,
            ..LOOKING
        },
    ),
    // The outer transaction is doomed, and what was written stays in it.
    (
        "an inner cancel",
        Case {
            steps: &[
                (
                    Step::Run(Word::Store(Flag::Replace), b"a", b"2"),
                    Told::Done,
                ),
                (Step::Start, Told::Done),
                (
                    Step::Run(Word::Store(Flag::Replace), b"b", b"3"),
                    Told::Done,
                ),
                (Step::Cancel, Told::Done),
                (Step::Run(Word::Fetch, b"a", b""), Told::Value(b"2")),
                (Step::Run(Word::Fetch, b"b", b""), Told::Value(b"3")),
            ],
            doomed: true,
            ..COMMANDS
        },
    ),
    (
        "an inner commit before an inner cancel and after it",
        Case {
            steps: &[
                (Step::Start, Told::Done),
                (Step::Commit, Told::Done),
                (Step::Start, Told::Done),
                (Step::Start, Told::Done),
                (Step::Cancel, Told::Done),
                (Step::Commit, Told::Doomed),
            ],
            doomed: true,
            ..LOOKING
        },
    ),
    // The order is that of the chains: `a` is in chain 7, `b` in chain 70.
    (
        "a walk through what was stored",
        Case {
            steps: &[
                (
                    Step::Run(Word::Store(Flag::Replace), b"a", b"9"),
                    Told::Done,
                ),
                (
                    Step::Run(Word::Store(Flag::Replace), b"b", b"5"),
                    Told::Done,
                ),
                (Step::Walk(Goal::First), Told::Pair(b"a", b"9")),
                (Step::Walk(Goal::Next), Told::Pair(b"b", b"5")),
                AT_END,
                AT_END,
            ],
            ..COMMANDS
        },
    ),
    // The record stays in its chain, and goes to the free list when the cursor leaves it: there it is merged with the
    // one in front of it.
    (
        "a record that is deleted under the cursor",
        Case {
            steps: &[
                FIRST,
                (Step::Run(Word::Delete, b"a", b""), Told::Done),
                (Step::Run(Word::Has, b"a", b""), Told::No),
                (Step::Look(4064, 3344), Told::Done),
                AT_END,
                (Step::Look(0, 3376), Told::Done),
            ],
            ..COMMANDS
        },
    ),
    (
        "an ended walk",
        Case {
            steps: &[FIRST, (Step::Walk(Goal::Leave), Told::Done), AT_END],
            ..LOOKING
        },
    ),
    (
        "a close",
        Case {
            closes: true,
            ..LOOKING
        },
    ),
];

/// Does a command, where the opener's cursor stands on its record. The file may grow up to the limit. None where memory
/// is wanting, or where it is longer.
fn run(
    alloc: Global,
    own: &mut OwnTxn,
    disk: &mut MemDisk,
    spot: u32,
    act: (Word, &[u8], &[u8]),
    limit: u64,
) -> Option<Result<Reply, Io>>
    requires { IsReady own.old (memory_size disk.old) }
    ensures { IsReady own.new (memory_size disk.new) }
{
    let command = command(alloc, act.0, act.1, act.2)?;
    let mut stood_on = Spots::new(alloc);
    if spot != 0 {
        stood_on.push(spot).ok()?;
    }
    if limit > LIMIT || own.txn.length() > limit {
        return None;
    }
    Some(own.run(alloc, disk, &HEADER, command, &stood_on, limit))
}

/// The head of chain 7, and the length of the free record at 696.
fn look(own: &mut OwnTxn, disk: &mut MemDisk) -> Option<(u32, u32)>
    requires { IsReady own.old (memory_size disk.old) }
    ensures { IsReady own.new (memory_size disk.new) }
{
    if own.txn.length() < 4096 {
        return None;
    }
    let mut view = OverlayOn::new(&mut own.txn, disk);
    let head = read_word(&mut view, 200).ok()?;
    Some((head, read_word(&mut view, 700).ok()?))
}

/// Takes a step: what it replies. None where it can't be taken.
fn take(
    alloc: Global,
    own: &mut OwnTxn,
    disk: &mut MemDisk,
    walk: &mut Walk,
    step: &Step,
    limit: u64,
) -> Option<Result<Reply, Io>>
    requires { IsReady own.old (memory_size disk.old) }
    ensures { IsReady own.new (memory_size disk.new) }
{
    let depth = own.txn.depth();
    match step {
        Step::Run(word, key, value) => {
            return run(alloc, own, disk, walk.spot(), (*word, *key, *value), limit);
        }
        Step::Walk(goal) => return Some(own.walk(alloc, disk, walk, *goal)),
        Step::Check => return Some(own.check(alloc, disk)),
        Step::Sequence => return Some(own.sequence(disk, &HEADER)),
        Step::Commit if depth > 0 => return Some(Ok(own.commit_inner())),
        Step::Start if depth < 8 => own.start_inner(),
        Step::Cancel if depth > 0 => own.cancel_inner(),
        Step::Look(head, length) => {
            if look(own, disk)? != (*head, *length) {
                return None;
            }
        }
        _ => return None,
    }
    Some(Ok(Reply::Ok))
}

/// Whether steps one after the other are told so. The file may grow up to the limit.
fn are_told(
    alloc: Global,
    own: &mut OwnTxn,
    disk: &mut MemDisk,
    walk: &mut Walk,
    case: &Case,
) -> Option<bool>
    requires { IsReady own.old (memory_size disk.old) }
{
    for (step, want) in case.steps {
        let is_so = match take(alloc, own, disk, walk, step, case.limit)? {
            Ok(reply) => is_reply(want, &reply),
            Err(Io) => matches!(want, Told::Io),
        };
        if !is_so {
            return Some(false);
        }
    }
    Some(true)
}

impl Case {
    /// Whether a transaction goes so where the disk's read with a number fails, if one is given. None of it reaches the
    /// file, which is synced once. A closed opener isn't live, and has no cursor; then it holds nothing.
    fn holds_with(&self, alloc: Global, failing: Option<u64>) -> Option<bool> {
        let mut disk = stored(alloc)?;
        if let Some(nth) = failing {
            disk.fail(Call::Read, nth).ok()?;
        }
        let mut own = begun(alloc, &mut disk, self.numbered)?;
        let mut walk = Walk::new();
        let is_told = are_told(alloc, &mut own, &mut disk, &mut walk, self)?;
        let is_so = own.changed == self.changed && own.txn.doomed() == self.doomed;
        let (mut locks, mut held) = (start_locks(alloc)?, Held::new(alloc));
        let mut live = false;
        if self.closes {
            live = true;
            own.close(alloc, &mut locks, 1, &mut live, &mut held, &mut walk);
            live = live || walk.spot() != 0;
        } else if own.txn.depth() > 0 {
            return Some(false);
        } else {
            own.cancel(alloc, &mut locks, 1, &mut held);
        }
        let is_bare = locks.kind_of(1, 8).is_none() && locks.kind_of(1, 168).is_none();
        let is_left = disk.syncs() == 1 && is_stored(alloc, &disk)?;
        Some(is_told && is_so && !live && is_bare && is_left)
    }
}

/// A transaction on the small file that has just begun.
fn begun(alloc: Global, disk: &mut MemDisk, numbered: bool) -> Option<OwnTxn>
    ensures { IfSome result (λ own. IsReady own (memory_size disk.new)) }
{
    let txn = Txn::start(alloc, disk, &HEADER).ok()?;
    if txn.length() > LIMIT {
        return None;
    }
    Some(OwnTxn::new(txn, numbered))
}

impl Row for Case {
    fn holds(&self, alloc: Global) -> Option<bool> {
        self.holds_with(alloc, None)
    }
}

/// Transactions where one of the first reads fails, where a later one does, and where none does.
pub(crate) struct Faults(&'static [Case]);

pub(crate) static FAULTS: [(&'static str, Faults); 2] = [
    // A store is told so, and without a fault it is done.
    (
        "reads of a store",
        Faults(&[
            Case {
                steps: &[(Step::Run(Word::Store(Flag::Replace), b"b", b"2"), Told::Io)],
                ..LOOKING
            },
            Case {
                steps: &[(
                    Step::Run(Word::Store(Flag::Replace), b"b", b"2"),
                    Told::Done,
                )],
                ..COMMANDS
            },
        ]),
    ),
    // Where a read of a First fails there is no cursor; where one of the Next does, the cursor stands where it stood.
    (
        "reads of a walk",
        Faults(&[
            Case {
                steps: &[(Step::Walk(Goal::First), Told::Io), AT_END],
                ..LOOKING
            },
            Case {
                steps: &[FIRST, (Step::Walk(Goal::Next), Told::Io)],
                ..LOOKING
            },
            Case {
                steps: &[FIRST, AT_END],
                ..LOOKING
            },
        ]),
    ),
];

impl Row for Faults {
    // Where each of 64 reads fails in turn, the transaction goes as one of these, and then as the next.
    fn holds(&self, alloc: Global) -> Option<bool> {
        let mut turn: usize = 0;
        for nth in 0..64u64 {
            if !self.0.get(turn)?.holds_with(alloc, Some(nth))? {
                turn = turn.saturating_add(1);
                if nth == 0 || !self.0.get(turn)?.holds_with(alloc, Some(nth))? {
                    return Some(false);
                }
            }
        }
        Some(turn.saturating_add(1) == self.0.len())
    }
}
