//! A commit of one byte, in files of 1, 16 and 64 MiB.

ghost use Rattle.std.specs.Prelude.{◌≡◌, ◌≤◌, ◌%◌, IfOk};
ghost use Rattle.tdb_txn.specs.Txn.{txn_start, txn_size};

use anyhow::bail;
use std::alloc::Global;
use tdb_disk::{Disk, MemDisk};
use tdb_space::Space;
use tdb_txn::{OverlayOn, ToCommit, Txn};
use tdb_words::{HashKind, Header, Order};

/// How long a file may get.
const LIMIT: u64 = 4_294_963_200;

/// The bytes of a MiB.
const MIB: u64 = 1_048_576;

/// How many pages a commit of one byte may have.
const MOST_PAGES: usize = 64;

const HEADER: Header = Header {
    order: Order::Little,
    hash: HashKind::Old,
    hash_size: 131,
    recovery_start: 0,
    sequence: 0,
};

/// Writes a byte in a transaction on a file.
fn changed<D: Disk>(alloc: Global, d: &mut D) -> anyhow::Result<Txn>
    ensures sized { IfOk result (λ txn. D.size d.new ≡ txn_start txn) }
    ensures words { IfOk result (λ txn. txn_size txn % 4 ≡ 0) }
    ensures within { IfOk result (λ txn. txn_size txn ≤ LIMIT) }
    ensures heads { IfOk result (λ txn. 48 ≤ txn_start txn) }
{
    let len = d.len()?;
    if len < 4096 || len % 4 != 0 || len > LIMIT {
        bail!("the file has another length");
    }
    let mut txn = Txn::start(alloc, d, &HEADER)?;
    let mut view = OverlayOn::new(&mut txn, d);
    view.ready(1, 1)?;
    view.write(4089, b"9")?;
    Ok(txn)
}

/// Commits a byte that is written to a file. It answers how many pages that had.
fn commit<D: Disk>(alloc: Global, d: &mut D) -> anyhow::Result<usize> {
    let txn = changed(alloc, d)?;
    let pages = txn.pages();
    if txn.depth() > 0 || txn.doomed() {
        bail!("the transaction is doomed");
    }
    match txn.plan(d, LIMIT)? {
        ToCommit::Nothing => bail!("nothing changed"),
        ToCommit::Ready(planned) => planned
            .fill(d)?
            .open_gate(d)?
            .apply(d)?
            .settle(d)?
            .finish(d)?,
    }
    Ok(pages)
}

/// Commits a byte in each file, and prints what that cost.
pub(crate) fn measure(rt: HostRuntime) -> anyhow::Result<()> {
    for mib in [1, 16, 64] {
        let mut disk = MemDisk::new(rt.alloc(), b"")?;
        disk.grow(mib * MIB)?;
        let pages = commit(rt.alloc(), &mut disk)?;
        if pages > MOST_PAGES || disk.bytes_read() >= MIB {
            bail!("a commit of one byte costs too much");
        }
        println!(rt;
            "{mib} MiB: pages {pages}, bytes read {}, syncs {}",
            disk.bytes_read(),
            disk.syncs()
        )?;
    }
    Ok(())
}
