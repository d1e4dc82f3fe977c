// A plain program over the bytes of a file that computes what the definitions of images say, slowly and simply.

ghost use Rattle.std.specs.Bool.{OnTrue};
ghost use Rattle.std.specs.Prelude.{◌↔◌, IsTrue, IsSome, IfSome, IfNone, ◌≡◌, ℕ, ◌+◌, ◌<◌, ◌≤◌, ◌++◌, List, length, map, slice_index, All, IfOk, SomeIff, MatchOption, MatchBool};
ghost use Rattle.tdb_words.specs.Word.{word};
ghost use Rattle.tdb_words.specs.Record.{rec_at};
ghost use Rattle.tdb_space.specs.Form.{form_in, data_start, chain_head};
ghost use Rattle.tdb_space.specs.Record.{Whole, Fits, AllFit, key_at, data_at, magic_of};
ghost use Rattle.tdb_space.specs.Chain.{Chain, IsLink};
ghost use Rattle.tdb_space.specs.Pairs.{pair_seen, pair_of, pairs, order_of, HasPairs};

use std::alloc::{AllocError, Global};
use tdb_words::{DEAD, Header, Order, Rec, USED, word_in};

/// A key and its value, as they stand in an image.
#[derive(Clone, Copy, Debug, PartialEq, Eq)]
pub struct KeyValue<'a> {
    pub key: &'a [u8],
    pub value: &'a [u8],
}

// The record header at an offset.
fn rec_in(image: &[u8], at: usize, order: Order) -> Rec
    requires { at + 24 ≤ length image.now }
    ensures { result ≡ rec_at order image.now at }
{
    Rec {
        next: word_in(image, at, order),
        rec_len: word_in(image, at + 4, order),
        key_len: word_in(image, at + 8, order),
        data_len: word_in(image, at + 12, order),
        full_hash: word_in(image, at + 16, order),
        magic: word_in(image, at + 20, order),
    }
}

// The offset at which the records begin, behind the last chain head.
fn records_begin(header: &Header) -> usize
    ensures { result ≡ data_start (form_in header.now) }
{
    168 + 4 * (header.hash_size as usize + 1)
}

/// The header of the record at an offset, if a record stands whole there.
pub fn record_at(image: &[u8], header: &Header, at: u32) -> Option<Rec>
    ensures { SomeIff result (Whole (form_in header.now) image.now at) (rec_at header.now.order image.now at) }
{
    let at = at as usize;
    if at % 4 != 0 || at < records_begin(header) || image.len() < at + 24 {
        return None;
    }
    let rec = rec_in(image, at, header.order);
    let rec_len = rec.rec_len as usize;
    if rec_len % 4 != 0 || rec_len < 4 || image.len() < at + 24 + rec_len {
        return None;
    }
    let tailer = word_in(image, at + 20 + rec_len, header.order) as usize;
    if tailer == 24 + rec_len {
        Some(rec)
    } else {
        None
    }
}

// The header of the record at an offset, if a record stands whole there and is used or dead.
fn chained_at(image: &[u8], header: &Header, at: u32) -> Option<Rec>
    ensures { SomeIff result (IsLink (form_in header.now) image.now at) (rec_at header.now.order image.now at) }
{
    let rec = record_at(image, header, at)?;
    if rec.magic == USED || rec.magic == DEAD {
        Some(rec)
    } else {
        None
    }
}

/// The offsets of the chain from the word at `head`, if there is a chain. No more records are followed than a quarter
/// of the image's length.
pub fn chain_offsets(
    alloc: Global,
    image: &[u8],
    header: &Header,
    head: usize,
) -> Result<Option<Vec<u32>>, AllocError>
    requires { head + 4 ≤ length image.now }
    ensures found { let first = word header.now.order image.now head in
        IfOk result (λ r. IfSome r (λ v. Chain (form_in header.now) image.now first v.items)) }
    ensures none { let first = word header.now.order image.now head in
        IfOk result (λ r. IfNone r ((offs : List ℕ) → ¬ Chain (form_in header.now) image.now first offs)) }
{
    let mut offs = Vec::new(alloc);
    let mut at = word_in(image, head, header.order);
    for _turn in 0..image.len() / 4 {
        if at == 0 {
            return Ok(Some(offs));
        }
        match chained_at(image, header, at) {
            Some(rec) => {
                offs.push(at)?;
                at = rec.next;
            }
            None => return Ok(None),
        }
    }
    if at == 0 { Ok(Some(offs)) } else { Ok(None) }
}

// The key and the value of the record at an offset, if they fit in it.
fn held_at<'a>(image: &'a [u8], header: &Header, at: u32) -> Option<KeyValue<'a>>
    requires { Whole (form_in header.now) image.now at }
    ensures fits { IsSome result ↔ Fits header.now.order image.now at }
    ensures pair { let o = header.now.order in
        IfSome result (λ p. pair_seen p ≡ (key_at o image.now at, data_at o image.now at)) }
{
    let at = at as usize;
    let rec = rec_in(image, at, header.order);
    let key_at = at + 24;
    let value_at = key_at + rec.key_len as usize;
    let value_end = value_at + rec.data_len as usize;
    if value_end + 4 > key_at + rec.rec_len as usize {
        return None;
    }
    Some(KeyValue {
        key: &image[key_at..value_at],
        value: &image[value_at..value_end],
    })
}

// Puts the pair of the record at an offset at the end if it is used, unless it doesn't fit in its record.
fn push_pair<'a>(
    image: &'a [u8],
    header: &Header,
    at: u32,
    all: &mut Vec<KeyValue<'a>>,
) -> Result<bool, AllocError>
    requires { Whole (form_in header.now) image.now at }
    ensures fits { let o = header.now.order in
        IfOk result (λ fits. IsTrue fits ↔ (magic_of o image.now at ≡ USED → Fits o image.now at)) }
    ensures pair { let olds = map pair_seen all.old.items in let here = pair_of header.now.order image.now at in
        IfOk result (λ fits. OnTrue fits (map pair_seen all.new.items ≡ olds ++ here)) }
{
    if rec_in(image, at as usize, header.order).magic != USED {
        return Ok(true);
    }
    match held_at(image, header, at) {
        Some(pair) => {
            all.push(pair)?;
            Ok(true)
        }
        None => Ok(false),
    }
}

// Puts the pairs of the used records at these offsets at the end, unless one of them doesn't fit in its record.
fn push_pairs<'a>(
    image: &'a [u8],
    header: &Header,
    offs: &[u32],
    all: &mut Vec<KeyValue<'a>>,
) -> Result<bool, AllocError>
    requires { All (Whole (form_in header.now) image.now) offs.now }
    ensures fit { IfOk result (λ fit. IsTrue fit ↔ AllFit header.now.order image.now offs.now) }
    ensures pairs { let olds = map pair_seen all.old.items in let here = pairs header.now.order image.now offs.now in
        IfOk result (λ fit. OnTrue fit (map pair_seen all.new.items ≡ olds ++ here)) }
{
    for at in offs {
        if !push_pair(image, header, *at, all)? {
            return Ok(false);
        }
    }
    Ok(true)
}

/// The pairs of all used records, chain 0 first and each chain from its head on, if each chain head has a chain and
/// each used record has room for its key and value.
pub fn pairs_in_order<'a>(
    alloc: Global,
    image: &'a [u8],
    header: &Header,
) -> Result<Option<Vec<KeyValue<'a>>>, AllocError>
    requires { data_start (form_in header.now) ≤ length image.now }
    ensures found { IfOk result (λ r. IsSome r ↔ HasPairs (form_in header.now) image.now) }
    ensures pairs { IfOk result
        (λ r. IfSome r (λ v. map pair_seen v.items ≡ order_of (form_in header.now) image.now)) }
{
    let mut all = Vec::new(alloc);
    for chain in 0..header.hash_size {
        let head = 172 + 4 * chain as usize;
        let Some(offs) = chain_offsets(alloc, image, header, head)? else {
            return Ok(None);
        };
        if !push_pairs(image, header, &offs, &mut all)? {
            return Ok(None);
        }
    }
    Ok(Some(all))
}
