//! Reads dump text from the standard input and writes its pairs again, as dump text. A text that stock `tdbdump`
//! printed comes out as it went in.
#![tactic(auto)]

use std::alloc::Global;
use std::io;
use tdb_disk::{Sink, Source};
use tdb_dump::{Pairs, Reader, WriteRefusal, write_pair};
use tdb_files::{InSource, OutSink};

/// How many bytes are read at once. It is no power of two, so that the text is cut at all kinds of places.
const PIECE: usize = 1021;

/// Writes each of the pairs.
fn write_pairs<K: Sink>(alloc: Global, output: &mut K, pairs: Pairs) -> Result<(), WriteRefusal> {
    for pair in pairs.into_vec() {
        write_pair(alloc, output, pair.key.as_slice(), pair.value.as_slice())?;
    }
    Ok(())
}

/// Reads the whole input, and writes each pair once it is whole.
fn copy<S: Source, K: Sink>(alloc: Global, input: &mut S, output: &mut K) -> anyhow::Result<()> {
    let mut reader = Reader::new(alloc);
    let mut piece = [0; PIECE];
    for _ in 0..u64::MAX {
        let count = input.read(&mut piece)?;
        if count == 0 {
            break;
        }
        write_pairs(alloc, output, reader.feed(&piece[..count])?)?;
    }
    Ok(reader.end()?)
}

fn main(rt: HostRuntime) -> anyhow::Result<()> {
    let mut input = InSource::new(rt.reader());
    let mut output = OutSink::new(io::writer(&rt));
    copy(rt.alloc(), &mut input, &mut output)
}
