// The command that opens a file and gives it back.

ghost use Rattle.std.specs.Prelude.{◌≡◌};
ghost use Rattle.tdb_answer.specs.declared.ending.Reply.TheVariants.{Closed};

use crate::ending::Reply;

/// Replies over an opened file that it is given back.
pub(crate) fn quit() -> Reply
    ensures { result ≡ Closed }
{
    Reply::Closed
}
