// The default hash over pieces of a key.

ghost use Rattle.std.specs.Prelude.{◌≡◌, ℕ, ◌+◌, ◌%◌, ◌<◌, List, [], ◌++◌, length};

/// The shift of the next byte: 5 more, modulo 24, without a division.
#[inline]
fn shift_after(shift: u32) -> u32
    requires { shift < 24 }
    ensures { result ≡ (shift + 5) % 24 }
{
    if shift < 19 { shift + 5 } else { shift - 19 }
}

/// The default hash of a key that comes in pieces.
#[derive(Clone, Copy)]
pub(crate) struct OldRun {
    value: u32,
    shift: u32,
    ghost in_byte_range: { shift < 24 },
}

impl OldRun {
    ghost use Rattle.tdb_words.specs.Hash.{h_old};
    ghost use Rattle.tdb_words.specs.Running.{OldHolds};

    /// The start, for a key of `length` bytes.
    pub(crate) fn new(length: u32) -> Self
        ensures { OldHolds result.value result.shift length [] }
    {
        OldRun {
            value: 0x238F_13AF_u32.wrapping_mul(length),
            shift: 0,
        }
    }

    /// Adds the next bytes of the key.
    pub(crate) fn feed(&mut self, piece: &[u8])
        ensures { (n : ℕ) (bytes : List ℕ) → OldHolds self.old.value self.old.shift n bytes
            → OldHolds self.new.value self.new.shift n (bytes ++ piece.now) }
    {
        for byte in piece {
            self.value = self.value.wrapping_add(u32::from(*byte) << self.shift);
            self.shift = shift_after(self.shift);
        }
    }

    /// The hash of the bytes so far, if they are as many as was said at the start.
    pub(crate) fn end(self) -> u32
        ensures { (bytes : List ℕ) → OldHolds self.value self.shift (length bytes) bytes
            → result ≡ h_old bytes }
    {
        1_103_515_243_u32
            .wrapping_mul(self.value)
            .wrapping_add(12345)
    }
}
