// The commands on a file that is there, and the reading of their arguments.

ghost use Rattle.std.specs.Prelude.{◌≡◌, ◌+◌, ◌≤◌, length, IfOk, IfSome};
ghost use Rattle.tdb_cmdline.specs.Acts.{show_of, spelled, pair_of, insert_of, store_of, storehex_of, delete_of, alone_of};
ghost use Rattle.tdb_cmdline.specs.Ask.{VerbFits};
ghost use Rattle.tdb_cmdline.specs.declared.limits.TheConstants.{LONGEST_WORD as longest};

use crate::names::Text;
use crate::words::{hex_value_of, value_of};
use std::alloc::{AllocError, Global};
use tdb_words::Bytes;

/// What is done with a file that is there.
#[derive(Debug, Drop)]
pub enum Verb {
    /// The value that it holds for a key.
    Show { key: Bytes },

    /// To add a key with a value.
    Insert { key: Bytes, value: Bytes },

    /// To store a value for a key, in place of the one that it has.
    Store { key: Bytes, value: Bytes },

    /// To delete a key.
    Delete { key: Bytes },

    /// To take all keys out.
    Erase,

    /// How many keys it has.
    Check,

    /// The first pair that it has, in the order of its chains.
    First,

    /// The pair behind the one that was shown last.
    Next,

    /// To start a transaction.
    TransactionStart,

    /// To commit the transaction that the opener has.
    TransactionCommit,

    /// To cancel the transaction that the opener has.
    TransactionCancel,

    /// To open it and give it back.
    Quit,
}

/// How the words of a key and of a value are spelled.
#[derive(Clone, Copy, Debug, PartialEq, Eq)]
pub(crate) enum Spelling {
    /// As words of a command.
    Letters,

    /// As pairs of hexadecimal digits.
    HexPairs,
}

/// What is asked of a file that is there.
#[derive(Debug, Drop)]
pub struct Act {
    pub verb: Verb,

    /// How many bytes the file may have: as `Ask::of` reads it, from 696 to 4,294,963,200.
    pub limit: u64,
}

/// The key or the value that a word stands for, where it has a reading. It is no longer than the word.
fn spelled_value(alloc: Global, spelling: Spelling, word: &str) -> Result<Option<Bytes>, AllocError>
    ensures read { IfOk result (λ bytes. bytes ≡ spelled spelling word.now) }
    ensures short { IfOk result (λ bytes. IfSome bytes (λ b. length b ≤ longest)) }
{
    match spelling {
        Spelling::Letters => value_of(alloc, word),
        Spelling::HexPairs => hex_value_of(alloc, word),
    }
}

/// The key and the value that two words stand for, where they are the only ones and have a reading.
fn key_and_value(
    alloc: Global,
    spelling: Spelling,
    arguments: &[Text],
) -> Result<Option<(Bytes, Bytes)>, AllocError>
    ensures read { IfOk result (λ pair. pair ≡ pair_of spelling arguments.now) }
    ensures short { IfOk result (λ pair. IfSome pair (λ p. length p.0 + length p.1 ≤ longest + longest)) }
{
    let [first, second] = arguments else {
        return Ok(None);
    };
    let Some(key) = spelled_value(alloc, spelling, first.as_str())? else {
        return Ok(None);
    };
    match spelled_value(alloc, spelling, second.as_str())? {
        Some(value) => Ok(Some((key, value))),
        None => Ok(None),
    }
}

impl Verb {
    /// Reads the arguments of `show`.
    pub(crate) fn of_show(alloc: Global, arguments: &[Text]) -> Result<Option<Verb>, AllocError>
        ensures read { IfOk result (λ verb. verb ≡ show_of arguments.now) }
        ensures fits { IfOk result (λ verb. IfSome verb VerbFits) }
    {
        let [word] = arguments else {
            return Ok(None);
        };
        match value_of(alloc, word.as_str())? {
            Some(key) => Ok(Some(Verb::Show { key })),
            None => Ok(None),
        }
    }

    /// Reads the arguments of `insert`.
    pub(crate) fn of_insert(alloc: Global, arguments: &[Text]) -> Result<Option<Verb>, AllocError>
        ensures read { IfOk result (λ verb. verb ≡ insert_of arguments.now) }
        ensures fits { IfOk result (λ verb. IfSome verb VerbFits) }
    {
        match key_and_value(alloc, Spelling::Letters, arguments)? {
            Some((key, value)) => Ok(Some(Verb::Insert { key, value })),
            None => Ok(None),
        }
    }

    /// Reads the arguments of `store`.
    pub(crate) fn of_store(alloc: Global, arguments: &[Text]) -> Result<Option<Verb>, AllocError>
        ensures read { IfOk result (λ verb. verb ≡ store_of arguments.now) }
        ensures fits { IfOk result (λ verb. IfSome verb VerbFits) }
    {
        match key_and_value(alloc, Spelling::Letters, arguments)? {
            Some((key, value)) => Ok(Some(Verb::Store { key, value })),
            None => Ok(None),
        }
    }

    /// Reads the arguments of `storehex`.
    pub(crate) fn of_storehex(alloc: Global, arguments: &[Text]) -> Result<Option<Verb>, AllocError>
        ensures read { IfOk result (λ verb. verb ≡ storehex_of arguments.now) }
        ensures fits { IfOk result (λ verb. IfSome verb VerbFits) }
    {
        match key_and_value(alloc, Spelling::HexPairs, arguments)? {
            Some((key, value)) => Ok(Some(Verb::Store { key, value })),
            None => Ok(None),
        }
    }

    /// Reads the arguments of `delete`.
    pub(crate) fn of_delete(alloc: Global, arguments: &[Text]) -> Result<Option<Verb>, AllocError>
        ensures read { IfOk result (λ verb. verb ≡ delete_of arguments.now) }
        ensures fits { IfOk result (λ verb. IfSome verb VerbFits) }
    {
        let [word] = arguments else {
            return Ok(None);
        };
        match value_of(alloc, word.as_str())? {
            Some(key) => Ok(Some(Verb::Delete { key })),
            None => Ok(None),
        }
    }

    /// This verb, where no argument follows it.
    pub(crate) fn without_arguments(verb: Verb, arguments: &[Text]) -> Option<Verb>
        requires fits { VerbFits verb }
        ensures read { result ≡ alone_of verb arguments.now }
        ensures fits { IfSome result VerbFits }
    {
        match arguments {
            [] => Some(verb),
            _ => None,
        }
    }
}
