// A world in which one opener has a transaction beside all others: laws over definitions alone.

pub(crate) mod commits;
pub(crate) mod events;
pub(crate) mod passing;
pub(crate) mod sides;
pub(crate) mod starts;
pub(crate) mod turns;
