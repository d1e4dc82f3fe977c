// A reader of lines.

ghost use Rattle.std.specs.Prelude.{◌≡◌, ◌≤◌, vec_len};

use std::alloc::Global;

/// The lines of a source, one after the other. It reads only where the next line isn't at hand whole, and each byte
/// once.
#[derive(Drop)]
pub(crate) struct LineReader {
    pub(crate) alloc: Global,
    /// The bytes that were read last. Those from `start` to `end` belong to no line yet.
    pub(crate) piece: Vec<u8>,
    pub(crate) start: usize,
    pub(crate) end: usize,
    /// The place of the next line's first byte.
    pub(crate) at: u64,
    /// Whether the last line was given.
    pub(crate) over: bool,
    ghost ordered: { start ≤ end },
    ghost within: { end ≤ vec_len piece },
    ghost size: { vec_len piece ≡ 65536 },
    ghost place: { at ≤ 17179869184 },
}
