// Jenkins' hash, `hashlittle` of his lookup3, over pieces of a key.

ghost use Rattle.std.specs.Prelude.{◌≡◌, ℕ, ◌+◌, ◌*◌, ◌<◌, ◌≤◌, List, [], ◌++◌, length, take, fold};

use byteorder::{ByteOrder, LittleEndian};

/// The three running words.
#[derive(Clone, Copy)]
pub(crate) struct Mixer {
    a: u32,
    b: u32,
    c: u32,
}

impl Mixer {
    ghost use Rattle.tdb_words.specs.Hash.{start_words, words_plus, mix_line, mix_of, final_line, final_of, round, twelves};

    /// The start, for a key of `length` bytes.
    fn new(length: u32) -> Self
        ensures { result ≡ start_words length }
    {
        let start = 0xDEAD_BEEF_u32.wrapping_add(length);
        Mixer {
            a: start,
            b: start,
            c: start,
        }
    }

    /// Adds twelve bytes, as three words that begin with their lowest byte.
    #[tactic(auto, unfolding(crate::specs::Word::word))]
    fn add(self, piece: &[u8]) -> Self
        requires { 12 ≤ length piece.now }
        ensures { result ≡ words_plus self piece.now }
    {
        Mixer {
            a: self.a.wrapping_add(LittleEndian::read_u32(piece)),
            b: self.b.wrapping_add(LittleEndian::read_u32(&piece[4..])),
            c: self.c.wrapping_add(LittleEndian::read_u32(&piece[8..])),
        }
    }

    /// A line of `mix`. The words then change places, so that the next line begins with `a` again.
    #[inline]
    fn turn(self, by: u32) -> Self
        ensures { result ≡ mix_line self by }
    {
        Mixer {
            a: self.b,
            b: self.c.wrapping_add(self.b),
            c: self.a.wrapping_sub(self.c) ^ self.c.rotate_left(by),
        }
    }

    /// `mix`.
    #[inline]
    #[tactic(auto, unfolding(crate::specs::Hash::mix_of))]
    fn mix(self) -> Self
        ensures { result ≡ mix_of self }
    {
        self.turn(4).turn(6).turn(8).turn(16).turn(19).turn(4)
    }

    /// A line of `final`, in the same way.
    #[inline]
    fn close(self, by: u32) -> Self
        ensures { result ≡ final_line self by }
    {
        Mixer {
            a: self.b,
            b: self.c,
            c: (self.a ^ self.c).wrapping_sub(self.c.rotate_left(by)),
        }
    }

    /// `final`, which gives the hash.
    #[tactic(auto, unfolding(crate::specs::Hash::final_of))]
    fn finish(self) -> u32
        ensures { result ≡ final_of self }
    {
        let last_first = Mixer {
            a: self.c,
            b: self.a,
            c: self.b,
        };
        last_first
            .close(14)
            .close(11)
            .close(25)
            .close(16)
            .close(4)
            .close(14)
            .close(24)
            .c
    }

    /// A round for each of the first `count` twelves of bytes.
    fn mix_all(self, bytes: &[u8], count: usize) -> Self
        requires { 12 * count ≤ length bytes.now }
        ensures { result ≡ fold round self (twelves count bytes.now) }
    {
        let mut mixer = self;
        for i in 0..count {
            mixer = mixer.add(&bytes[12 * i..]).mix();
        }
        mixer
    }
}

/// Jenkins' hash of a key that comes in pieces. Up to twelve bytes wait, since whether they are the
/// last isn't known before more come.
#[derive(Clone, Copy)]
pub(crate) struct JenkinsRun {
    mixer: Mixer,
    waiting: [u8; 12],
    held: usize,
    ghost room: { held ≤ 12 },
}

impl JenkinsRun {
    ghost use Rattle.tdb_words.specs.Hash.{h_jenkins};
    ghost use Rattle.tdb_words.specs.Running.{JenkinsHolds};

    /// The start, for a key of `length` bytes.
    pub(crate) fn new(length: u32) -> Self
        ensures { JenkinsHolds result.mixer result.waiting result.held length [] }
    {
        JenkinsRun {
            mixer: Mixer::new(length),
            waiting: [0; 12],
            held: 0,
        }
    }

    /// Lets bytes wait.
    fn hold(&mut self, bytes: &[u8])
        requires { self.old.held + length bytes.now ≤ 12 }
        ensures mixer { self.new.mixer ≡ self.old.mixer }
        ensures held { self.new.held ≡ self.old.held + length bytes.now }
        ensures waiting { take self.new.held self.new.waiting
            ≡ take self.old.held self.old.waiting ++ bytes.now }
    {
        let end = self.held + bytes.len();
        self.waiting[self.held..end].copy_from_slice(bytes);
        self.held = end;
    }

    /// Adds the next bytes of the key.
    pub(crate) fn feed(&mut self, piece: &[u8])
        ensures { (n : ℕ) (bytes : List ℕ)
            → JenkinsHolds self.old.mixer self.old.waiting self.old.held n bytes
            → JenkinsHolds self.new.mixer self.new.waiting self.new.held n (bytes ++ piece.now) }
    {
        let room = 12 - self.held;
        if piece.len() <= room {
            self.hold(piece);
            return;
        }
        self.hold(&piece[..room]);
        let rest = &piece[room..];
        let full = (rest.len() - 1) / 12;
        self.mixer = self.mixer.add(&self.waiting).mix().mix_all(rest, full);
        self.held = 0;
        self.hold(&rest[12 * full..]);
    }

    /// The hash of the bytes so far, if they are as many as was said at the start.
    pub(crate) fn end(self) -> u32
        ensures { (bytes : List ℕ) → JenkinsHolds self.mixer self.waiting self.held (length bytes) bytes
            → result ≡ h_jenkins bytes }
    {
        if self.held == 0 {
            return self.mixer.c;
        }
        let mut last = [0; 12];
        last[..self.held].copy_from_slice(&self.waiting[..self.held]);
        self.mixer.add(&last).finish()
    }
}
