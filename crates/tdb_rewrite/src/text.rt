// The text of the lines by which a file is shown.

ghost use Rattle.std.specs.Prelude.{◌≡◌, ◌++◌, take, drop, OnOk, IfOk};
ghost use Rattle.std.specs.List.{flat_map};
ghost use Rattle.tdb_rewrite.specs.Text.{spaced_number, number_line, spot_text, spots_text, free_line, hash_word, order_word, form_line, counts_text, summary_text};

use crate::numbers::Summary;
use crate::spot::Spot;
use itoa::Buffer;
use std::alloc::{AllocError, Global};
use tdb_free::FreeRecs;
use tdb_space::Space;
use tdb_words::{HashKind, Order};

/// Puts a space and a number in decimal at the end.
fn push_number(text: &mut Vec<u8>, number: u64) -> Result<(), AllocError>
    ensures { OnOk result (text.new.items ≡ text.old.items ++ spaced_number number) }
{
    text.extend_from_slice(b" ")?;
    text.extend_from_slice(Buffer::new().format(number).as_bytes())
}

/// Puts a line at the end, of a word and numbers with a space in front of each.
pub(crate) fn push_line(text: &mut Vec<u8>, word: &[u8], numbers: &[u64]) -> Result<(), AllocError>
    ensures { OnOk result (text.new.items ≡ text.old.items ++ number_line word.now numbers.now) }
{
    text.extend_from_slice(word)?;
    for number in numbers {
        push_number(text, *number)?;
    }
    text.extend_from_slice(b"\n")
}

/// Puts the line of a chain or of a record at the end.
fn push_spot(text: &mut Vec<u8>, spot: Spot) -> Result<(), AllocError>
    ensures { OnOk result (text.new.items ≡ text.old.items ++ spot_text spot) }
{
    match spot {
        Spot::Chain { chain, count } => push_line(text, b"chain", &[chain as u64, count]),
        Spot::Used {
            off,
            key_len,
            data_len,
            rec_len,
        } => push_line(
            text,
            b"used",
            &[off as u64, key_len as u64, data_len as u64, rec_len as u64],
        ),
        Spot::Dead { off, rec_len } => push_line(text, b"dead", &[off as u64, rec_len as u64]),
    }
}

/// Puts the lines of chains and records at the end.
pub(crate) fn push_spots(text: &mut Vec<u8>, spots: &[Spot]) -> Result<(), AllocError>
    ensures { OnOk result (text.new.items ≡ text.old.items ++ spots_text spots.now) }
{
    for spot in spots {
        push_spot(text, *spot)?;
    }
    Ok(())
}

/// Puts the line of the free record at a place of the list at the end, where there is one.
pub(crate) fn push_free(
    text: &mut Vec<u8>,
    records: &FreeRecs,
    index: usize,
) -> Result<(), AllocError>
    ensures { OnOk result (text.new.items ≡ text.old.items ++ flat_map free_line (take 1 (drop index records.now))) }
{
    match records.get(index) {
        Some((off, rec_len)) => push_line(text, b"free", &[off as u64, rec_len as u64]),
        None => Ok(()),
    }
}

/// The name of a hash.
fn hash_name(hash: HashKind) -> &'static str
    ensures { result.now ≡ hash_word hash }
{
    match hash {
        HashKind::Old => "default",
        HashKind::Jenkins => "jenkins",
    }
}

/// The name of a byte order.
fn order_name(order: Order) -> &'static str
    ensures { result.now ≡ order_word order }
{
    match order {
        Order::Little => "little",
        Order::Big => "big",
    }
}

/// Puts the line at the end that tells a view's hash, its number of chains and its byte order.
fn push_form<S: Space>(text: &mut Vec<u8>, s: &S) -> Result<(), AllocError>
    ensures { OnOk result (text.new.items ≡ text.old.items ++ form_line (S.form s.now)) }
{
    text.extend_from_slice(b"hash ")?;
    text.extend_from_slice(hash_name(s.hash()).as_bytes())?;
    push_number(text, s.hash_size() as u64)?;
    text.extend_from_slice(b" ")?;
    text.extend_from_slice(order_name(s.order()).as_bytes())?;
    text.extend_from_slice(b"\n")
}

/// Puts the lines at the end that tell what a summary counts.
fn push_counts(text: &mut Vec<u8>, sum: &Summary) -> Result<(), AllocError>
    ensures { OnOk result (text.new.items ≡ text.old.items ++ counts_text sum.now) }
{
    push_line(text, b"keys", &[sum.report.live])?;
    push_line(text, b"dead", &[sum.report.dead_records])?;
    push_line(text, b"free", &[sum.report.free_records])?;
    push_line(text, b"deadbytes", &[sum.report.dead_bytes])?;
    push_line(text, b"area", &[sum.report.area])?;
    push_line(text, b"keybytes", &[sum.key_bytes])?;
    push_line(text, b"databytes", &[sum.data_bytes])?;
    push_line(text, b"largestfree", &[sum.largest_free])
}

/// The text of a summary, of a file of `len` bytes with this sequence number.
pub(crate) fn summary_text<S: Space>(
    alloc: Global,
    s: &S,
    len: u64,
    sequence: u32,
    sum: &Summary,
) -> Result<Vec<u8>, AllocError>
    ensures { IfOk result (λ text. text.items ≡ summary_text len (S.form s.now) sequence sum.now) }
{
    let mut text = Vec::new(alloc);
    push_line(&mut text, b"size", &[len])?;
    push_form(&mut text, s)?;
    push_line(&mut text, b"sequence", &[sequence as u64])?;
    push_counts(&mut text, sum)?;
    Ok(text)
}
