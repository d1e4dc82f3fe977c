// The commands, each with what it does.

pub(crate) mod backup;
pub(crate) mod check;
pub(crate) mod convert;
pub(crate) mod create;
pub(crate) mod delete;
pub(crate) mod dump;
pub(crate) mod erase;
pub(crate) mod first;
pub(crate) mod generate;
pub(crate) mod insert;
pub(crate) mod mend;
pub(crate) mod merge;
pub(crate) mod moving;
pub(crate) mod print;
pub(crate) mod quit;
pub(crate) mod repack;
pub(crate) mod rescue;
pub(crate) mod restore;
pub(crate) mod rewriting;
pub(crate) mod session;
pub(crate) mod show;
pub(crate) mod store;
pub(crate) mod transaction;
pub(crate) mod turns;
pub(crate) mod verify;
