// A world over a new file.

ghost use Rattle.std.specs.Prelude.{◌≡◌, ◌<◌, ◌≤◌, ℕ, [], None, false, IsTrue, IfOk, IfErr, OnOk};
ghost use Rattle.tdb_disk.specs.Count.{HasCauseOf};
ghost use Rattle.tdb_disk.specs.History.{seen};
ghost use Rattle.tdb_space.specs.Accepted.{AcceptWith};
ghost use Rattle.tdb_space.specs.Form.{form_of};
ghost use Rattle.tdb_law.specs.World.{State};
ghost use Rattle.tdb_open.specs.Creating.{new_length, new_file_header, IsMade, MadeInPart};
ghost use Rattle.tdb_world.specs.declared.creating.CreateRefusal.TheVariants.{Device, TooLong};
ghost use Rattle.tdb_world.specs.Whole.{form_at, WorldFits};
ghost use Rattle.tdb_world.specs.Loaded.{IsJustLoaded};

use crate::all_openers::AllOpeners;
use std::alloc::Global;
use tdb_commands::Options;
use tdb_disk::{Disk, DiskFault};
use tdb_open::{NewForm, make};
use thiserror::Error;

/// Why no file is made.
#[derive(Clone, Copy, Debug, PartialEq, Eq, Error)]
pub enum CreateRefusal {
    /// The file would have `len` bytes, which are more than it may.
    #[error("the file would be {len} bytes long")]
    TooLong { len: u64 },

    /// A call of the disk failed.
    #[error("device fault")]
    Device,
}

impl From<DiskFault> for CreateRefusal {
    ghost from_gives = { λ _ e. e ≡ Device };

    fn from(_: DiskFault) -> Self {
        CreateRefusal::Device
    }
}

/// Makes an empty disk a new file, and a world over it, with these options, in which nobody has joined. The options'
/// limit is the most bytes that the file may have.
///
/// `TooLong` where the new file would have more; the disk is empty then, and no call is made on it. `Device` where a
/// call of the disk failed: the file is empty then, or has its full length. No memory is taken.
///
/// Cost: one call each to grow, to write the header and to sync.
pub(crate) fn create<D: Disk>(
    alloc: Global,
    disk: &mut D,
    form: NewForm,
    options: &Options,
) -> Result<AllOpeners, CreateRefusal>
    requires empty { D.size disk.old ≡ 0 }
    requires some { 0 < form.size }
    requires writes { options.now.read_only ≡ false }
    requires limit { options.now.limit ≤ 4294963200 }
    ensures made { OnOk result (IsTrue D.tells → IsMade form.size form.order form.hash (D.history disk.new)) }
    ensures length { OnOk result (D.size disk.new ≡ new_length form) }
    ensures short { OnOk result (new_length form ≤ options.now.limit) }
    ensures header { IfOk result (λ w. w.openers.header ≡ new_file_header form) }
    ensures options { IfOk result (λ w. w.openers.options ≡ options.now) }
    ensures form { IfOk result (λ w. IsTrue D.tells → form_at w ≡ form_of (seen (D.history disk.new))) }
    ensures accepted { IfOk result (λ w. IsTrue D.tells → AcceptWith (form_at w) (seen (D.history disk.new)) []) }
    ensures nobody { IfOk result (λ w. w.openers.openers ≡ []) }
    ensures aside { IfOk result (λ w. w.aside ≡ None) }
    ensures fresh { IfOk result (λ w. w.stale ≡ false) }
    ensures fits { IfOk result (λ w. WorldFits w (seen (D.history disk.new)) (D.size disk.new)) }
    ensures state { IfOk result (λ w. IsTrue D.tells → (state : State) × IsJustLoaded w (D.history disk.new) state) }
    ensures too_long { IfErr result (λ e. (len : ℕ) → e ≡ TooLong len → (len ≡ new_length form) × (options.now.limit < len) × (disk.new ≡ disk.old)) }
    ensures in_part { IfErr result (λ e. e ≡ Device → IsTrue D.tells → MadeInPart form.size (seen (D.history disk.new))) }
    ensures cause { HasCauseOf Device (D.faults disk.old) (D.faults disk.new) result }
{
    let len = form.file_len();
    if len > options.limit {
        return Err(CreateRefusal::TooLong { len });
    }
    make(disk, form)?;
    Ok(AllOpeners::new(alloc, &form.header(), options))
}
