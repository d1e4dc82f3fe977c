//! Which calls of a form in memory are to fail, by their kind and number.
ghost use Rattle.std.specs.Prelude.{◌≡◌, ◌≤◌, ◌↔◌, [], ◌∷◌, ◌++◌, IsTrue, OnOk, OnErr};
ghost use Rattle.tdb_disk.specs.Script.{number_of, one_more, made_more, unmade, counted, Fails};

use std::alloc::{AllocError, Global};

/// A kind of call.
#[derive(Clone, Copy, Debug, PartialEq, Eq)]
pub enum Call {
    Len,
    Read,
    Write,
    WriteWord,
    Grow,
    Cut,
    Sync,
    Take,
    Rename,
    Remove,
}

/// How many calls of each kind were made.
#[derive(Clone, Copy)]
pub struct Made {
    pub len: u64,
    pub read: u64,
    pub write: u64,
    pub write_word: u64,
    pub grow: u64,
    pub cut: u64,
    pub sync: u64,
    pub take: u64,
    pub rename: u64,
    pub remove: u64,
}

/// Raises a count, up to its last value, and gives the count before.
pub(crate) fn raise(count: &mut u64) -> u64
    ensures before { result ≡ count.old }
    ensures after { count.new ≡ one_more count.old }
    ensures never_falls { count.old ≤ count.new }
{
    let before = *count;
    *count = before.saturating_add(1);
    before
}

impl Made {
    fn new() -> Made
        ensures { result ≡ unmade }
    {
        Made {
            len: 0,
            read: 0,
            write: 0,
            write_word: 0,
            grow: 0,
            cut: 0,
            sync: 0,
            take: 0,
            rename: 0,
            remove: 0,
        }
    }

    /// Counts one more call, and gives its number.
    fn count(&mut self, call: Call) -> u64
        ensures number { result ≡ number_of self.old call }
        ensures made { self.new ≡ made_more self.old call }
    {
        match call {
            Call::Len => raise(&mut self.len),
            Call::Read => raise(&mut self.read),
            Call::Write => raise(&mut self.write),
            Call::WriteWord => raise(&mut self.write_word),
            Call::Grow => raise(&mut self.grow),
            Call::Cut => raise(&mut self.cut),
            Call::Sync => raise(&mut self.sync),
            Call::Take => raise(&mut self.take),
            Call::Rename => raise(&mut self.rename),
            Call::Remove => raise(&mut self.remove),
        }
    }
}

/// The calls that are to fail, and the calls that were made.
#[derive(Drop)]
pub struct Script {
    pub failing: Vec<(Call, u64)>,
    pub made: Made,
}

impl Script {
    /// No call is to fail, and none was made.
    pub(crate) fn new(alloc: Global) -> Script
        ensures failing { result.failing.items ≡ [] }
        ensures made { result.made ≡ unmade }
    {
        Script::over(Vec::new(alloc))
    }

    /// These calls are to fail, and none was made.
    pub(crate) fn over(failing: Vec<(Call, u64)>) -> Script
        ensures failing { result.failing ≡ failing }
        ensures made { result.made ≡ unmade }
    {
        Script {
            failing,
            made: Made::new(),
        }
    }

    /// The call of this kind with this number, counted from 0, is to fail.
    pub(crate) fn fail(&mut self, call: Call, nth: u64) -> Result<(), AllocError>
        ensures added { OnOk result (self.new.failing.items ≡ self.old.failing.items ++ (call, nth) ∷ []) }
        ensures kept { OnErr result (self.new.failing.items ≡ self.old.failing.items) }
        ensures made { self.new.made ≡ self.old.made }
    {
        self.failing.push((call, nth))?;
        Ok(())
    }

    /// Counts one more call, and says whether it is to fail.
    pub(crate) fn fails(&mut self, call: Call) -> bool
        ensures named { IsTrue result ↔ Fails self.old call }
        ensures counted { self.new ≡ counted self.old call }
    {
        let nth = self.made.count(call);
        self.failing.contains(&(call, nth))
    }
}
