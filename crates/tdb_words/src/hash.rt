// The two hashes of keys, whole and over pieces.

ghost use Rattle.std.specs.Prelude.{◌≡◌, ℕ, ◌%◌, ◌^◌, ◌<◌, List, [], ◌++◌, length};
ghost use Rattle.tdb_words.specs.Hash.{h_old, h_jenkins, h_of};
ghost use Rattle.tdb_words.specs.HashRun.{Holds};

use crate::jenkins::JenkinsRun;
use crate::old::OldRun;

/// Which of the two hashes a file uses.
#[derive(Clone, Copy, Debug, PartialEq, Eq)]
pub enum HashKind {
    /// The default hash of the format.
    Old,

    /// Jenkins' hash, `hashlittle` of his lookup3.
    Jenkins,
}

/// The default hash of a key. The cost is that of the key's length, as in the next two.
pub fn hash_old(key: &[u8]) -> u32
    requires { length key.now < 2 ^ 32 }
    ensures { result ≡ h_old key.now }
{
    let mut run = OldRun::new(key.len() as u32);
    run.feed(key);
    run.end()
}

/// Jenkins' hash of a key.
pub fn hash_jenkins(key: &[u8]) -> u32
    requires { length key.now < 2 ^ 32 }
    ensures { result ≡ h_jenkins key.now }
{
    let mut run = JenkinsRun::new(key.len() as u32);
    run.feed(key);
    run.end()
}

/// The hash of a key in a file of this kind.
pub fn hash_of(kind: HashKind, key: &[u8]) -> u32
    requires { length key.now < 2 ^ 32 }
    ensures { result ≡ h_of kind key.now }
{
    match kind {
        HashKind::Old => hash_old(key),
        HashKind::Jenkins => hash_jenkins(key),
    }
}

/// The chain that a hash belongs to, in a file with so many chains.
pub fn chain_of(hash: u32, hash_size: u32) -> u32
    requires { 0 < hash_size }
    ensures { result ≡ hash % hash_size }
{
    hash % hash_size
}

/// The running hash of one kind.
#[derive(Clone, Copy)]
pub(crate) enum Way {
    Old(OldRun),
    Jenkins(JenkinsRun),
}

/// The hash of a key that comes in pieces, of which none is kept: at most twelve bytes wait for the
/// next piece.
#[derive(Clone, Copy)]
pub struct HashRun {
    way: Way,
}

impl HashRun {
    /// The start, for a key of `length` bytes.
    pub fn new(h: HashKind, length: u32) -> Self
        ensures { Holds result h length [] }
    {
        HashRun {
            way: match h {
                HashKind::Old => Way::Old(OldRun::new(length)),
                HashKind::Jenkins => Way::Jenkins(JenkinsRun::new(length)),
            },
        }
    }

    /// Adds the next bytes of the key. The cost is that of the piece's length.
    pub fn feed(&mut self, piece: &[u8])
        ensures { (h : HashKind) (n : ℕ) (bytes : List ℕ)
            → Holds self.old h n bytes → Holds self.new h n (bytes ++ piece.now) }
    {
        match &mut self.way {
            Way::Old(run) => run.feed(piece),
            Way::Jenkins(run) => run.feed(piece),
        }
    }

    /// The hash of the pieces joined, where they have as many bytes as was said at the start.
    pub fn end(self) -> u32
        ensures { (h : HashKind) (bytes : List ℕ)
            → Holds self h (length bytes) bytes → result ≡ h_of h bytes }
    {
        match self.way {
            Way::Old(run) => run.end(),
            Way::Jenkins(run) => run.end(),
        }
    }
}
