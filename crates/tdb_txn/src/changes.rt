//! What a transaction changed.
ghost use Rattle.std.specs.Prelude.{◌≡◌, ◌≤◌, ◌*◌, ◌<◌, ◌^◌, IsTrue, IfOk, IfErr, length};
ghost use Rattle.tdb_disk.specs.Count.{HasCauseOf, RoseUpTo};
ghost use Rattle.tdb_disk.specs.History.{seen};
ghost use Rattle.tdb_space.specs.Runs.{ChangedRuns};
ghost use Rattle.tdb_txn.specs.EndBelow.{EndBelow};
ghost use Rattle.tdb_txn.specs.Pages.{page_size};

use crate::area_room::area_len_for;
use crate::comparing::{Comparison, RunsRefusal, find_runs};
use crate::refusal::TxnRefusal;
use crate::txn::Txn;
use tdb_disk::Disk;
use tdb_undo::Runs;

impl Txn {
    ghost use Rattle.tdb_txn.specs.Answered.{IsNoRoomFor, RunsRefused};
    ghost use Rattle.tdb_txn.specs.Txn.{txn_pages, txn_start, txn_size, txn_image};

    /// Why no commit is planned where memory was wanting for its runs, whose content has so many bytes: the file has no
    /// undo area yet, and a new one would bring it past the limit; or else for want of memory.
    fn without_runs(&self, area: (u32, u32), content: u64, limit: u64) -> TxnRefusal
        requires { txn_size self.now ≤ limit }
        ensures { IsNoRoomFor content (txn_size self.now) limit area result }
    {
        let need = area_len_for(content);
        if area.1 == 0 && limit - self.size < need {
            return TxnRefusal::Full {
                len: self.size,
                need,
            };
        }
        TxnRefusal::Memory
    }

    /// The runs of the bytes that it changed below the length that the file had at Start, outside its undo area. The
    /// file may get `limit` bytes. Where memory is wanting for the runs, and the file has no undo area yet, `Full`
    /// comes if the area that is wanted would bring the file past the limit.
    pub(crate) fn changes<D: Disk>(
        &self,
        d: &mut D,
        area: (u32, u32),
        limit: u64,
    ) -> Result<Runs, TxnRefusal>
        requires sized { D.size d.old ≡ txn_start self.now }
        requires short { txn_start self.now < 2 ^ 32 }
        requires within { txn_size self.now ≤ limit }
        ensures runs { IfOk result (λ runs. IsTrue D.tells
            → ChangedRuns (seen (D.history d.old)) (txn_image self.now (seen (D.history d.old))) (txn_start self.now) area runs) }
        ensures ends { IfOk result (λ runs. EndBelow (txn_start self.now) runs) }
        ensures size { D.size d.new ≡ D.size d.old }
        ensures history { D.history d.new ≡ D.history d.old }
        ensures cause { HasCauseOf TxnRefusal.Io (D.faults d.old) (D.faults d.new) result }
        ensures refusal { IfErr result (λ refusal. IsTrue D.tells → RunsRefused self.now limit (seen (D.history d.old)) area refusal) }
        ensures syncs { D.syncs d.new ≡ D.syncs d.old }
        ensures bytes_read { RoseUpTo (length (txn_pages self.now) * page_size) (D.bytes_read d.old) (D.bytes_read d.new) }
    {
        let comparison = Comparison {
            old_length: self.start as u32,
            skip: area,
            hole: (0, 0),
        };
        match find_runs(self.alloc, d, &self.pages, &comparison) {
            Ok(runs) => Ok(runs),
            Err(RunsRefusal::Io) => Err(TxnRefusal::Io),
            Err(RunsRefusal::Memory { content }) => Err(self.without_runs(area, content, limit)),
        }
    }
}
