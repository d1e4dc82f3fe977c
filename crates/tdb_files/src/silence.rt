//! What keeps an output from telling of a file that didn't get its name.

use std::alloc::{AllocError, Global};
use std::cell::Cell;
use std::rc::Rc;

/// What files and an output share. It begins where a new file didn't get its name, and from then on the output writes
/// nothing, so that no answer tells of that file. No clause sees whether it has begun.
#[derive(Drop)]
pub struct Silence {
    has_begun: Rc<Cell<bool>, Global>,
}

impl Silence {
    /// It hasn't begun.
    pub fn new(alloc: Global) -> Result<Silence, AllocError> {
        let has_begun = Rc::new(alloc, Cell::new(false))?;
        Ok(Silence { has_begun })
    }

    /// The same one, to be kept in a second place. It takes no memory; an Err comes where it is kept in too many.
    pub fn share(&self) -> Result<Silence, AllocError> {
        let has_begun = self.has_begun.clone()?;
        Ok(Silence { has_begun })
    }

    /// It begins.
    pub(crate) fn begin(&self) {
        self.has_begun.set(true);
    }

    /// Whether it has begun.
    pub(crate) fn has_begun(&self) -> bool {
        self.has_begun.get()
    }
}
