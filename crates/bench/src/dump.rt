//! Pairs that are written as dump text, which is read back in pieces.

use std::alloc::Global;
use std::time::Instant;
use tdb_disk::MemSink;
use tdb_dump::{ReadRefusal, Reader, WriteRefusal, write_pair};

/// How many bytes the reader gets at once.
const PIECE: usize = 65_536;

/// The text of pairs of keys of eight bytes and values of sixteen.
fn text_of(alloc: Global, pairs: u64) -> Result<MemSink, WriteRefusal> {
    let mut text = MemSink::new(alloc);
    for i in 0..pairs {
        let key = i.wrapping_mul(0x9E37_79B9_7F4A_7C15).to_le_bytes();
        let value = *b"0123456789\x00\x01\x02\xFD\xFE\xFF";
        write_pair(alloc, &mut text, &key, &value)?;
    }
    Ok(text)
}

/// How many pairs a text gives that comes in pieces.
fn count_of(alloc: Global, text: &[u8]) -> Result<usize, ReadRefusal> {
    let mut reader = Reader::new(alloc);
    let mut count = 0usize;
    for piece in text.chunks(PIECE) {
        count = count.saturating_add(reader.feed(piece)?.len());
    }
    reader.end()?;
    Ok(count)
}

/// Writes so many pairs, 1,000 unless a count is asked for, and reads them back. Where it is, it also prints how long
/// each took.
pub(crate) fn measure(rt: HostRuntime, asked: Option<u32>) -> anyhow::Result<()> {
    let start = Instant::now(&rt)?;
    let text = text_of(rt.alloc(), asked.unwrap_or(1000) as u64)?;
    let written = start.elapsed(&rt)?;
    let start = Instant::now(&rt)?;
    let count = count_of(rt.alloc(), text.as_slice())?;
    let read = start.elapsed(&rt)?;
    println!(rt; "{count} pairs in {} bytes", text.as_slice().len())?;
    if asked.is_some() {
        println!(rt;
            "written in {} ms, read in {} ms",
            written.as_millis(),
            read.as_millis()
        )?;
    }
    Ok(())
}
