// What turns and calls tell, and what an opener holds.

use tdb_locks::{Kind, Locks, Reply, Turn};
use tdb_space::Io;

/// What a turn is to tell.
pub(crate) enum Told {
    Step,
    Done,
    Value(&'static [u8]),
    Pair(&'static [u8], &'static [u8]),
    End,
    Missing,
    There,
    InTransaction,
    Doomed,
    Full(u64, u64),
    Yes,
    No,
    Number(u64),
    Io,
}

/// Whether a reply is the one that is wanted.
pub(crate) fn is_reply(want: &Told, reply: &Reply) -> bool {
    match (want, reply) {
        (Told::Done, Reply::Ok)
        | (Told::End, Reply::End)
        | (Told::Missing, Reply::KeyMissing)
        | (Told::There, Reply::KeyThere)
        | (Told::InTransaction, Reply::InTransaction)
        | (Told::Doomed, Reply::Doomed)
        | (Told::Yes, Reply::Yes)
        | (Told::No, Reply::No) => true,
        (Told::Value(wanted), Reply::Value(value)) => value.as_slice() == *wanted,
        (Told::Pair(key, value), Reply::Pair(found, next)) => {
            found.as_slice() == *key && next.as_slice() == *value
        }
        (
            Told::Full(len, need),
            Reply::Full {
                len: found,
                need: wanted,
            },
        ) => { found == len && wanted == need }
        (Told::Number(wanted), Reply::Number(number)) => number == wanted,
        _ => false,
    }
}

/// Whether a turn tells what is wanted.
pub(crate) fn is_told(want: &Told, told: &Result<Turn, Io>) -> bool {
    match told {
        Ok(Turn::Done(reply)) => is_reply(want, reply),
        Ok(Turn::Step) => matches!(want, Told::Step),
        Ok(Turn::Blocked { .. }) => false,
        Err(Io) => matches!(want, Told::Io),
    }
}

/// What an opener holds of each of these bytes: `r`, `w`, or `-` for nothing.
pub(crate) fn letters<const N: usize>(locks: &Locks, owner: u32, bytes: [u64; N]) -> [u8; N] {
    let mut letters = [b'-'; N];
    for i in 0..N {
        letters[i] = match locks.kind_of(owner, bytes[i]) {
            Some(Kind::Read) => b'r',
            Some(Kind::Write) => b'w',
            None => b'-',
        };
    }
    letters
}
