//! A transaction on a file.
ghost use Rattle.std.specs.Prelude.{◌≡◌, ◌+◌, ◌*◌, ◌-◌, ◌/◌, ◌<◌, ◌≤◌, ◌^◌, ℕ, [], true, false, IsTrue, IfOk, IfErr, OnOk, OnErr, MatchResult, length};
ghost use Rattle.tdb_disk.specs.Count.{HasCause, RoseBy, RoseUpTo};
ghost use Rattle.tdb_disk.specs.History.{Tried, called, seen, synced};
ghost use Rattle.tdb_space.specs.Form.{form_in};
ghost use Rattle.tdb_space.specs.Spare.{bounded, IsReady};
ghost use Rattle.tdb_txn.specs.Pages.{ZeroFrom};
ghost use Rattle.tdb_txn.specs.Stock.{page_list, pages_left};

use crate::page::PAGE_SIZE;
use crate::pages::Pages;
use crate::refusal::TxnRefusal;
use std::alloc::{AllocError, Global};
use tdb_disk::{Disk, DiskFault};
use tdb_words::Header;

/// A transaction: what it wrote to a file, in pages that are kept in memory. It may be dropped, which cancels it.
#[derive(Drop)]
pub struct Txn {
    pub(crate) alloc: Global,
    pub(crate) header: Header,
    pub(crate) pages: Pages,
    pub(crate) start: u64,
    pub(crate) size: u64,
    pub(crate) writes: u32,
    pub(crate) bytes: u64,
    pub(crate) reach: u64,
    pub(crate) depth: u32,
    pub(crate) doomed: bool,
    ghost longer: { start ≤ size },
    ghost zeros: { ZeroFrom size (page_list pages) },
    ghost stocked: { 2 * writes + bytes / 4096 ≤ pages_left pages },
}

impl Txn {
    ghost use Rattle.tdb_txn.specs.Txn.{txn_pages, txn_left, txn_start, txn_size, txn_image, txn_spare, txn_form, txn_depth, txn_doomed, growths_alone, SameButRoom, SameView};

    /// Starts a transaction on a file with this header, after a sync of the file. It reads no byte and takes no memory.
    /// Fails only where the disk fails.
    pub fn start<D: Disk>(alloc: Global, d: &mut D, h: &Header) -> Result<Txn, TxnRefusal>
        ensures image { IfOk result (λ txn. IsTrue D.tells → txn_image txn (seen (D.history d.new)) ≡ seen (D.history d.new)) }
        ensures start { IfOk result (λ txn. txn_start txn ≡ D.size d.old) }
        ensures length { IfOk result (λ txn. txn_size txn ≡ D.size d.old) }
        ensures pages { IfOk result (λ txn. txn_pages txn ≡ []) }
        ensures form { IfOk result (λ txn. txn_form txn ≡ form_in h.now) }
        ensures depth { IfOk result (λ txn. txn_depth txn ≡ 0) }
        ensures doomed { IfOk result (λ txn. txn_doomed txn ≡ false) }
        ensures refusal { IfErr result (λ refusal. refusal ≡ TxnRefusal.Io) }
        ensures tried { Tried synced (D.history d.old) (D.history d.new) }
        ensures done { OnOk result (IsTrue D.tells → D.history d.new ≡ called (D.history d.old) synced) }
        ensures size { D.size d.new ≡ D.size d.old }
        ensures cause { HasCause (D.faults d.old) (D.faults d.new) result }
        ensures syncs { MatchResult result (λ _. RoseBy 1 (D.syncs d.old) (D.syncs d.new)) (λ _. RoseUpTo 1 (D.syncs d.old) (D.syncs d.new)) }
        ensures bytes_read { D.bytes_read d.new ≡ D.bytes_read d.old }
    {
        let Ok(size) = synced_length(d) else {
            return Err(TxnRefusal::Io);
        };
        Ok(Txn {
            alloc,
            header: *h,
            pages: Pages::new(alloc),
            start: size,
            size,
            writes: 0,
            bytes: 0,
            reach: size,
            depth: 0,
            doomed: false,
        })
    }

    /// How many pages it has.
    pub fn pages(&self) -> usize
        ensures { result ≡ length (txn_pages self.now) }
    {
        self.pages.count()
    }

    /// The length of the file when it started, in bytes.
    pub fn length_at_start(&self) -> u64
        ensures { result ≡ txn_start self.now }
    {
        self.start
    }

    /// The length of the file as the transaction has it, in bytes.
    pub fn length(&self) -> u64
        ensures { result ≡ txn_size self.now }
    {
        self.size
    }

    /// How many transactions are open within it.
    pub fn depth(&self) -> u32
        ensures { result ≡ txn_depth self.now }
    {
        self.depth
    }

    /// Whether a transaction within it was cancelled, after which it can't be committed.
    pub fn doomed(&self) -> bool
        ensures { result ≡ txn_doomed self.now }
    {
        self.doomed
    }

    /// Starts a transaction within it.
    pub fn nest(&mut self)
        requires { txn_depth self.old < 2 ^ 32 - 1 }
        ensures depth { txn_depth self.new ≡ txn_depth self.old + 1 }
        ensures doomed { txn_doomed self.new ≡ txn_doomed self.old }
        ensures view { SameView self.old self.new }
    {
        self.depth += 1;
    }

    /// Commits the innermost transaction within it: what that wrote is part of the one around it.
    pub fn inner_commit(&mut self)
        requires { 0 < txn_depth self.old }
        ensures depth { txn_depth self.new + 1 ≡ txn_depth self.old }
        ensures doomed { txn_doomed self.new ≡ txn_doomed self.old }
        ensures view { SameView self.old self.new }
    {
        self.depth -= 1;
    }

    /// Cancels the innermost transaction within it. What that wrote stays, and so the whole can't be committed any
    /// more.
    pub fn inner_cancel(&mut self)
        requires { 0 < txn_depth self.old }
        ensures depth { txn_depth self.new + 1 ≡ txn_depth self.old }
        ensures doomed { txn_doomed self.new ≡ true }
        ensures view { SameView self.old self.new }
    {
        self.depth -= 1;
        self.doomed = true;
    }

    /// Makes room for so many writes of so many bytes in all, and for growths by up to a quarter of the length, these
    /// bytes and 4096 more. Fails only for want of memory.
    pub(crate) fn ready(&mut self, writes: u32, bytes: u64) -> Result<(), AllocError>
        ensures room { OnOk result (IsReady (txn_spare self.new) (txn_size self.old) writes bytes) }
        ensures pages { txn_pages self.new ≡ txn_pages self.old }
        ensures start { txn_start self.new ≡ txn_start self.old }
        ensures size { txn_size self.new ≡ txn_size self.old }
        ensures form { txn_form self.new ≡ txn_form self.old }
        ensures depth { txn_depth self.new ≡ txn_depth self.old }
        ensures doomed { txn_doomed self.new ≡ txn_doomed self.old }
        ensures kept { OnErr result (txn_spare self.new ≡ txn_spare self.old) }
    {
        let reach = reach_from(self.size, bytes).ok_or(AllocError)?;
        self.pages.stock_up(
            self.alloc,
            2 * writes as usize + (bytes / PAGE_SIZE as u64) as usize,
        )?;
        self.writes = writes;
        self.bytes = bytes;
        self.reach = reach;
        Ok(())
    }

    /// Gives back the memory that was made ready for writes and isn't used. Nothing else changes. The next command that
    /// writes makes room anew, by an allocation for each page, so this pays only where a transaction rests.
    pub fn shrink_to_fit(&mut self)
        ensures same { SameButRoom self.old self.new }
        ensures spare { txn_spare self.new ≡ growths_alone (txn_spare self.old) }
        ensures left { txn_left self.new ≡ 0 }
    {
        self.writes = 0;
        self.bytes = 0;
        self.pages.shrink_to_fit();
    }

    /// Makes the file longer, by zeros.
    pub(crate) fn grow(&mut self, to: u64)
        requires { txn_size self.old ≤ to }
        ensures pages { txn_pages self.new ≡ txn_pages self.old }
        ensures start { txn_start self.new ≡ txn_start self.old }
        ensures size { txn_size self.new ≡ to }
        ensures spare { txn_spare self.new ≡ txn_spare self.old }
        ensures form { txn_form self.new ≡ txn_form self.old }
        ensures depth { txn_depth self.new ≡ txn_depth self.old }
        ensures doomed { txn_doomed self.new ≡ txn_doomed self.old }
    {
        self.size = to;
    }
}

/// The greatest length for which there is to be room. None where it is past the greatest number.
fn reach_from(size: u64, bytes: u64) -> Option<u64>
    ensures { (reach : ℕ) → result ≡ Some reach → reach ≡ size + size / 4 + bytes + 4096 }
{
    size.checked_add(size / 4)?
        .checked_add(bytes)?
        .checked_add(PAGE_SIZE as u64)
}

/// Syncs the file and tells its length.
fn synced_length<D: Disk>(d: &mut D) -> Result<u64, DiskFault>
    ensures length { IfOk result (λ n. n ≡ D.size d.old) }
    ensures tried { Tried synced (D.history d.old) (D.history d.new) }
    ensures done { OnOk result (IsTrue D.tells → D.history d.new ≡ called (D.history d.old) synced) }
    ensures size { D.size d.new ≡ D.size d.old }
    ensures cause { HasCause (D.faults d.old) (D.faults d.new) result }
    ensures syncs { MatchResult result (λ _. RoseBy 1 (D.syncs d.old) (D.syncs d.new)) (λ _. RoseUpTo 1 (D.syncs d.old) (D.syncs d.new)) }
    ensures bytes_read { D.bytes_read d.new ≡ D.bytes_read d.old }
{
    d.sync()?;
    d.len()
}
