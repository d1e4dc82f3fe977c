//! Tests of escapes, words and dump text both ways, over the public calls of `tdb_dump`: worked examples, hostile texts
//! cut at every place, and a text that the stock tdbdump printed.

ghost use Rattle.std.specs.Prelude.{◌≤◌, length};

use crate::rows::{Row, failing};
use std::alloc::Global;
use tdb_disk::{Call, MemSink};
use tdb_dump::{
    Listing, ReadRefusal, Reader, WordRefusal, WriteRefusal, data_line, escape, key_line,
    pair_line, word_bytes_of, write_pair,
};
use tdb_words::Bytes;

/// What the stock tdbdump printed of four pairs of its own files: an empty value, an empty key, and bytes of all kinds.
const STOCK: &[u8] =
    b"{\nkey(11) = \"empty value\"\ndata(0) = \"\"\n}\n{\nkey(0) = \"\"\ndata(22) = \"value of the empty key\"\n}\n{\nkey(4) = \"\\00\\E3\\00\\00\"\ndata(10) = \"56789:;<=>\"\n}\n{\nkey(5) = \"\\00\\5C\\00\\00\\FF\"\ndata(32) = \"\\84\\85\\86\\87\\88\\89\\8A\\8B\\8C\\8D\\8E\\8F\\90\\91\\92\\93\\94\\95\\96\\97\\98\\99\\9A\\9B\\9C\\9D\\9E\\9F\\A0\\A1\\A2\\A3\"\n}\n";

/// One pair twice.
const TWICE: &[u8] =
    b"{\nkey(1) = \"a\"\ndata(1) = \"1\"\n}\n{\nkey(1) = \"a\"\ndata(1) = \"1\"\n}\n";

/// Two keys that have the same Jenkins hash, and behind them each of the two again.
const ONE_HASH: &[u8] =
    b"{\nkey(4) = \"apah\"\ndata(0) = \"\"\n}\n{\nkey(4) = \"zapu\"\ndata(0) = \"\"\n}\n";

const FIRST_AGAIN: &[u8] =
    b"{\nkey(4) = \"apah\"\ndata(0) = \"\"\n}\n{\nkey(4) = \"zapu\"\ndata(0) = \"\"\n}\n{\nkey(4) = \"apah\"\ndata(0) = \"\"\n}\n";

const SECOND_AGAIN: &[u8] =
    b"{\nkey(4) = \"apah\"\ndata(0) = \"\"\n}\n{\nkey(4) = \"zapu\"\ndata(0) = \"\"\n}\n{\nkey(4) = \"zapu\"\ndata(0) = \"\"\n}\n";

/// How bytes are written: by themselves, or a pair in a listing.
enum Form {
    Escape(&'static [u8]),
    Data(&'static [u8]),
    Key(&'static [u8]),
    Pair(&'static [u8], &'static [u8]),
    Listing(Listing),
}

/// A form, and its text. A listing has the pair of the version's key.
struct Written(Form, &'static [u8]);

static WRITTEN: [(&'static str, Written); 7] = [
    (
        "escapes",
        Written(
            Form::Escape(b"\x00\"\\\x7F\xFF ~a"),
            b"\\00\\22\\5C\\7F\\FF ~a",
        ),
    ),
    (
        "a line of data",
        Written(Form::Data(b"1"), b"data(1) = \"1\""),
    ),
    (
        "a line of a key",
        Written(Form::Key(b"\xAB\""), b"key(2) = \"\\AB\\22\""),
    ),
    (
        "a line of a pair",
        Written(
            Form::Pair(b"INFO/version\0", b"\x02\0\0\0"),
            b"key(13) = \"INFO/version\\00\" data(4) = \"\\02\\00\\00\\00\"",
        ),
    ),
    (
        "pairs",
        Written(
            Form::Listing(Listing::Pairs),
            b"{\nkey(13) = \"INFO/version\\00\"\ndata(4) = \"\\02\\00\\00\\00\"\n}\n",
        ),
    ),
    (
        "keys",
        Written(
            Form::Listing(Listing::Keys),
            b"key(13) = \"INFO/version\\00\"\n",
        ),
    ),
    (
        "keys in hex",
        Written(
            Form::Listing(Listing::HexKeys),
            b"key(13) = 494E464F2F76657273696F6E00\n",
        ),
    ),
];

impl Row for Written {
    fn holds(&self, rt: HostRuntime) -> Option<bool> {
        let alloc = rt.alloc();
        let text = match &self.0 {
            Form::Escape(bytes) => escape(alloc, bytes).ok()?,
            Form::Data(bytes) => data_line(alloc, bytes).ok()?,
            Form::Key(bytes) => key_line(alloc, bytes).ok()?,
            Form::Pair(key, value) => pair_line(alloc, key, value).ok()?,
            Form::Listing(listing) => {
                let mut text = Vec::new(alloc);
                let (key, value) = (b"INFO/version\0", b"\x02\0\0\0");
                listing.push(&mut text, key, value).ok()?;
                Bytes::from(text)
            }
        };
        Some(text.as_slice() == self.1)
    }
}

/// A word, and the bytes that it says, or where it has a bad escape.
struct Word(&'static [u8], Result<&'static [u8], u64>);

static WORDS: [(&'static str, Word); 8] = [
    (
        "escapes in either case",
        Word(b"\\00\\5c\\5C\\61", Ok(b"\x00\\\\a")),
    ),
    ("two quotes", Word(b"\"\"", Ok(b""))),
    ("nothing", Word(b"", Ok(b""))),
    ("three quotes", Word(b"\"\"\"", Ok(b"\"\"\""))),
    ("an escape of no digit", Word(b"\\G1", Err(0))),
    ("an escape of one digit", Word(b"a\\4", Err(1))),
    ("an escape of nothing", Word(b"\\41\\", Err(3))),
    ("the first of two bad escapes", Word(b"\\41\\4g\\", Err(3))),
];

impl Row for Word {
    fn holds(&self, rt: HostRuntime) -> Option<bool> {
        Some(match (word_bytes_of(rt.alloc(), self.0), self.1) {
            (Ok(read), Ok(bytes)) => read.as_slice() == bytes,
            (Err(WordRefusal::BadEscape { at }), Err(place)) => at == place,
            _ => false,
        })
    }
}

/// A text, and how many pairs it says, or where it is malformed.
struct Text(&'static [u8], Result<usize, u64>);

static TEXTS: [(&'static str, Text); 16] = [
    (
        "a length that begins with 0",
        Text(b"{\nkey(01) = ", Err(7)),
    ),
    (
        "a key longer than its length",
        Text(b"{\nkey(1) = \"ab\"", Err(13)),
    ),
    (
        "a length past 32 bits",
        Text(b"{\nkey(4294967296) = ", Err(15)),
    ),
    (
        "an escape that isn't whole",
        Text(b"{\nkey(1) = \"\\0", Err(14)),
    ),
    (
        "an escape of another letter",
        Text(b"{\nkey(1) = \"\\0g\"", Err(14)),
    ),
    ("no length", Text(b"{\nkey() = \"\"", Err(6))),
    (
        "a key shorter than its length",
        Text(b"{\nkey(2) = \"a\"", Err(13)),
    ),
    (
        "a byte that stands for itself",
        Text(b"{\nkey(1) = \"\xFF\"", Err(12)),
    ),
    (
        "no last line break",
        Text(b"{\nkey(1) = \"a\"\ndata(1) = \"1\"\n}", Err(30)),
    ),
    ("another first byte", Text(b"x", Err(0))),
    ("a pair twice", Text(TWICE, Err(31))),
    (
        "the first of two keys of one hash again",
        Text(FIRST_AGAIN, Err(66)),
    ),
    ("the second of them again", Text(SECOND_AGAIN, Err(66))),
    ("what the stock library printed", Text(STOCK, Ok(4))),
    ("nothing", Text(b"", Ok(0))),
    ("two keys of one hash", Text(ONE_HASH, Ok(2))),
];

/// How many pairs a text gives when it is read in two pieces, or why it is refused.
fn count_of(alloc: Global, text: &[u8], cut: usize) -> Result<usize, ReadRefusal>
    requires { cut ≤ length text.now }
{
    let mut reader = Reader::new(alloc);
    let first = reader.feed(&text[..cut])?;
    let second = reader.feed(&text[cut..])?;
    reader.end()?;
    Ok(first.len().saturating_add(second.len()))
}

impl Row for Text {
    // It is cut at each place.
    fn holds(&self, rt: HostRuntime) -> Option<bool> {
        let want = match self.1 {
            Ok(count) => Ok(count),
            Err(at) => Err(ReadRefusal::Malformed { at }),
        };
        for cut in 0..=self.0.len() {
            if count_of(rt.alloc(), self.0, cut) != want {
                return Some(false);
            }
        }
        Some(true)
    }
}

/// A text that is read whole and written, and the write that fails, if one does: what is answered then, and what is
/// written.
struct Copied {
    text: &'static [u8],
    fails: Option<u64>,
    answer: Result<(), WriteRefusal>,
    out: &'static [u8],
}

static COPIED: [(&'static str, Copied); 3] = [
    (
        "what the stock library printed",
        Copied {
            text: STOCK,
            fails: None,
            answer: Ok(()),
            out: STOCK,
        },
    ),
    (
        "escapes in either case",
        Copied {
            text: b"{\nkey(1) = \"\\fF\"\ndata(2) = \"\\61\\7f\"\n}\n",
            fails: None,
            answer: Ok(()),
            out: b"{\nkey(1) = \"\\FF\"\ndata(2) = \"a\\7F\"\n}\n",
        },
    ),
    (
        "a second write that fails",
        Copied {
            text: ONE_HASH,
            fails: Some(1),
            answer: Err(WriteRefusal::Failed),
            out: b"{\nkey(4) = \"apah\"\ndata(0) = \"\"\n}\n",
        },
    ),
];

impl Row for Copied {
    fn holds(&self, rt: HostRuntime) -> Option<bool> {
        let mut out = MemSink::new(rt.alloc());
        if let Some(nth) = self.fails {
            out.fail(Call::Write, nth).ok()?;
        }
        let mut answer = Ok(());
        for pair in &Reader::new(rt.alloc()).feed(self.text).ok()?.into_vec() {
            if answer.is_ok() {
                answer = write_pair(
                    rt.alloc(),
                    &mut out,
                    pair.key.as_slice(),
                    pair.value.as_slice(),
                );
            }
        }
        Some(answer == self.answer && out.as_slice() == self.out)
    }
}

/// A text whose second pair is refused at a place.
struct Refused(&'static [u8], u64);

static REFUSED: [(&'static str, Refused); 1] = [("a reader that has refused", Refused(TWICE, 31))];

impl Row for Refused {
    // One pair is read, and then nothing any more, nor is there an end.
    fn holds(&self, rt: HostRuntime) -> Option<bool> {
        let mut reader = Reader::new(rt.alloc());
        let refusal = ReadRefusal::Malformed { at: self.1 };
        let pairs = reader.feed(self.0).ok()?;
        let is_refused = reader.feed(STOCK).err() == Some(refusal);
        Some(pairs.len() == 1 && is_refused && reader.end() == Err(refusal))
    }
}

#[test]
fn dump_text_goes_both_ways(rt: HostRuntime) {
    for (table, failing) in [
        ("what is written", failing(rt, &WRITTEN)),
        ("words", failing(rt, &WORDS)),
        ("texts", failing(rt, &TEXTS)),
        ("texts that are read and written", failing(rt, &COPIED)),
        ("refusals", failing(rt, &REFUSED)),
    ] {
        assert_eq!(rt; failing, None, "{table}");
    }
}
