// The words of transactions, each as a command alone.

ghost use Rattle.std.specs.Prelude.{◌≡◌};
ghost use Rattle.tdb_answer.specs.declared.ending.Reply.TheVariants.{Done, NoTransaction};

use crate::ending::Reply;

/// Replies that a transaction was started. It is cancelled at the end, so nothing is changed.
pub(crate) fn start() -> Reply
    ensures { result ≡ Done }
{
    Reply::Done
}

/// Replies that there is no transaction to commit, since a command alone has started none.
pub(crate) fn commit() -> Reply
    ensures { result ≡ NoTransaction }
{
    Reply::NoTransaction
}

/// Replies that there is no transaction to cancel, since a command alone has started none.
pub(crate) fn cancel() -> Reply
    ensures { result ≡ NoTransaction }
{
    Reply::NoTransaction
}
