// The commands of an opener inside its own transaction, each done in one turn.

pub(crate) mod alone;
pub(crate) mod counting;
pub(crate) mod laws;
pub(crate) mod looks;
pub(crate) mod nesting;
pub(crate) mod own_txn;
pub(crate) mod plain;
pub(crate) mod walk_alone;
pub(crate) mod walking;
