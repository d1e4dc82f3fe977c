// Which keys a store takes.

/// Which keys a store takes: any, only one that isn't there yet, or only one that is there.
#[derive(Clone, Copy, Debug, PartialEq, Eq)]
pub enum Flag {
    /// Any key.
    Replace,
    /// Only a key that isn't there: else the reply is `KeyThere`.
    Insert,
    /// Only a key that is there: else the reply is `KeyMissing`.
    Modify,
}
