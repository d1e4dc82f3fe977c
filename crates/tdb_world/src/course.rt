// Plays in a world, and the report of them.

pub(crate) mod advancing;
pub(crate) mod dying;
pub(crate) mod ending;
pub(crate) mod hearing;
pub(crate) mod laws;
pub(crate) mod playing;
pub(crate) mod starting;
pub(crate) mod turning;
pub(crate) mod unreported;
