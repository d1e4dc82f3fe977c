//! A page: 4096 bytes of a file that a transaction has in memory.
ghost use Rattle.std.specs.Prelude.{◌≡◌, length};

/// How many bytes a page has.
pub(crate) const PAGE_SIZE: usize = 4_096;

/// A page of a file: the bytes from the offset `number * 4096` on.
#[derive(Drop)]
pub struct Page {
    pub(crate) number: u64,
    pub(crate) bytes: Vec<u8>,
    ghost whole: { length bytes.items ≡ 4096 },
}
