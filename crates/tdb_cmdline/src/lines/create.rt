// The arguments of the command that makes a new file: how many chains it gets, its hash and its byte order.

ghost use Rattle.std.specs.Prelude.{◌≡◌, ◌<◌, ◌≤◌, IfSome};
ghost use Rattle.std.specs.Map.{lookup};
ghost use Rattle.tdb_space.specs.Pairs.{same_key};
ghost use Rattle.tdb_cmdline.specs.Lines.Create.{orders, hashes, order_of_words, hash_of_words, create_of};

use crate::limits::DEFAULT_SIZE;
use crate::names::Text;
use crate::words::size_of;
use tdb_open::NewForm;
use tdb_words::{HashKind, Order};

/// A new file that is asked for.
#[derive(Clone, Copy, Debug, PartialEq, Eq)]
pub struct NewFile {
    /// What it is made with.
    pub form: NewForm,

    /// How many bytes it may have: as `Ask::of` reads it, from 696 to 4,294,963,200.
    pub limit: u64,
}

/// The byte order of this name.
fn order_named(word: &str) -> Option<Order>
    ensures { result ≡ lookup (same_key word.now) orders }
{
    match word {
        "little" => Some(Order::Little),
        "big" => Some(Order::Big),
        _ => None,
    }
}

/// The hash of this name.
fn hash_named(word: &str) -> Option<HashKind>
    ensures { result ≡ lookup (same_key word.now) hashes }
{
    match word {
        "default" => Some(HashKind::Old),
        "jenkins" => Some(HashKind::Jenkins),
        _ => None,
    }
}

/// The byte order that the last arguments ask for.
fn read_order(arguments: &[Text]) -> Option<Order>
    ensures { result ≡ order_of_words arguments.now }
{
    match arguments {
        [] => Some(Order::Little),
        [word] => order_named(word.as_str()),
        _ => None,
    }
}

/// The hash and the byte order that the arguments behind the size ask for.
fn read_hash(arguments: &[Text]) -> Option<(HashKind, Order)>
    ensures { result ≡ hash_of_words arguments.now }
{
    let [word, rest @ ..] = arguments else {
        return Some((HashKind::Old, Order::Little));
    };
    let hash = hash_named(word.as_str())?;
    let order = read_order(rest)?;
    Some((hash, order))
}

impl NewFile {
    /// Reads the arguments of `create`, where the file may have so many bytes.
    pub(crate) fn of(limit: u64, arguments: &[Text]) -> Option<NewFile>
        requires limit { limit ≤ 4294963200 }
        ensures read { result ≡ create_of limit arguments.now }
        ensures fits { IfSome result (λ file. (0 < file.form.size) × (file.limit ≤ 4294963200)) }
    {
        let [word, rest @ ..] = arguments else {
            return Some(NewFile {
                form: NewForm {
                    size: DEFAULT_SIZE,
                    hash: HashKind::Old,
                    order: Order::Little,
                },
                limit,
            });
        };
        let size = size_of(word.as_str())?;
        let (hash, order) = read_hash(rest)?;
        Some(NewFile {
            form: NewForm { size, hash, order },
            limit,
        })
    }
}
