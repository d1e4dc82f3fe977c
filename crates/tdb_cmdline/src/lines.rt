// The words of each command, as they stand behind its name.

pub(crate) mod backup;
pub(crate) mod convert;
pub(crate) mod create;
pub(crate) mod dump;
pub(crate) mod generate;
pub(crate) mod mend;
pub(crate) mod moving;
pub(crate) mod turns;
