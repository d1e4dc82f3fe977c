// A view of a file whose writes stay in memory.

ghost use Rattle.std.specs.Prelude.{◌≡◌, ◌+◌, ◌≤◌, IsTrue, IfErr, OnOk, length};
ghost use Rattle.tdb_disk.specs.Count.{HasCauseOf};
ghost use Rattle.tdb_disk.specs.Image.{overlay};
ghost use Rattle.tdb_space.specs.Frame.{Wrote};
ghost use Rattle.tdb_check.specs.Seen.{Names};
ghost use Rattle.tdb_check.specs.declared.refusal.CheckRefusal.TheVariants.{Io};

use tdb_check::CheckRefusal;
use tdb_space::Space;

/// A view of a file whose writes go into pages in memory: a page is copied when it is first written.
pub(crate) trait CopyOnWrite: Space {
    /// Writes `bytes` at offset `off`, over what is there. It makes room for them first.
    fn put(&mut self, off: u64, bytes: &[u8]) -> Result<(), CheckRefusal>
        requires { off + length bytes.now ≤ Self.size self.old }
        ensures set { OnOk result (IsTrue Self.tells → Self.image self.new ≡ overlay (Self.image self.old) off bytes.now) }
        ensures refusal { IfErr result (λ e. Names e (λ _. ⊥)) }
        ensures wrote { Wrote Self.Space self.old self.new }
        ensures size { Self.size self.new ≡ Self.size self.old }
        ensures cause { HasCauseOf Io (Self.faults self.old) (Self.faults self.new) result };
}
