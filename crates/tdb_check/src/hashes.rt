// The two hashes of a key: the file's own, and the mark that tells it from other keys.

ghost use Rattle.std.specs.Prelude.{ℕ, ◌^◌, ◌<◌, List, [], ◌++◌, length};
ghost use Rattle.tdb_check.specs.Hashes.{AreHashesOf, BothHold};

use tdb_words::{HashKind, HashRun, hash_jenkins, hash_old};

/// The two hashes of a key.
#[derive(Clone, Copy)]
pub(crate) struct KeyHashes {
    /// The file's own.
    pub own: u32,

    /// Jenkins' hash, which few keys have in common, whatever the file's own is.
    pub mark: u32,
}

/// Both hashes of a key in a file of this kind. Where the file's own is Jenkins', that is computed once.
pub(crate) fn hashes_of(kind: HashKind, key: &[u8]) -> KeyHashes
    requires { length key.now < 2 ^ 32 }
    ensures { AreHashesOf kind key.now result }
{
    let mark = hash_jenkins(key);
    let own = match kind {
        HashKind::Old => hash_old(key),
        HashKind::Jenkins => mark,
    };
    KeyHashes { own, mark }
}

/// Both hashes of a key that comes in pieces.
#[derive(Clone, Copy)]
pub(crate) struct KeyRun {
    mark: HashRun,

    /// The file's own hash, where it isn't Jenkins'.
    own: Option<HashRun>,
}

impl KeyRun {
    /// The start, for a key of so many bytes in a file of this kind.
    pub fn new(kind: HashKind, key_len: u32) -> Self
        ensures { BothHold kind key_len [] result }
    {
        KeyRun {
            mark: HashRun::new(HashKind::Jenkins, key_len),
            own: match kind {
                HashKind::Old => Some(HashRun::new(kind, key_len)),
                HashKind::Jenkins => None,
            },
        }
    }

    /// Adds the next bytes of the key.
    pub fn feed(&mut self, piece: &[u8])
        ensures { (h : HashKind) (n : ℕ) (bytes : List ℕ) → BothHold h n bytes self.old → BothHold h n (bytes ++ piece.now) self.new }
    {
        self.mark.feed(piece);
        if let Some(mut own) = self.own {
            own.feed(piece);
            self.own = Some(own);
        }
    }

    /// The hashes of the pieces joined, where they have as many bytes as was said at the start.
    pub fn end(self) -> KeyHashes
        ensures { (h : HashKind) (bytes : List ℕ) → BothHold h (length bytes) bytes self → AreHashesOf h bytes result }
    {
        let mark = self.mark.end();
        let own = match self.own {
            Some(own) => own.end(),
            None => mark,
        };
        KeyHashes { own, mark }
    }
}
