// The command that checks a file, and tells how many keys it has.

ghost use Rattle.std.specs.Prelude.{◌≡◌};
ghost use Rattle.tdb_answer.specs.declared.ending.Reply.TheVariants.{Number};

use crate::ending::Reply;
use tdb_open::Opened;

/// How many keys an opened file has: they were counted as it was opened.
pub(crate) fn check(opened: &Opened) -> Reply
    ensures { result ≡ Number opened.now.report.live }
{
    Reply::Number(opened.report.live)
}
