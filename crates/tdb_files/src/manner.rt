//! How the files of the system are dealt with beside other programs.

/// What becomes of a file that is replaced.
#[derive(Clone, Copy, Debug, PartialEq, Eq)]
pub enum Kept {
    /// It goes.
    Nowhere,
    /// It was refused, and stays under its name and `.refused`, or `.refused.1` and so on.
    AsRefused,
    /// It stays under its name and `.before`, which no other file may have.
    AsBefore,
}

/// How the files of the system are dealt with beside other programs.
#[derive(Clone, Copy, Debug, PartialEq, Eq)]
pub struct Manner {
    /// How many seconds a file is waited for that another run of this program has.
    pub seconds: u32,
    /// A file that another program has open may be changed all the same.
    pub is_shared: bool,
    /// An existing file is locked for reading first, and for changes once it is changed.
    pub reads_first: bool,
    /// What becomes of a file that is replaced.
    pub replaced: Kept,
    /// A person is warned on standard error of a file that another program has open.
    pub warns: bool,
}

/// How many seconds a file is waited for, where nothing else is asked.
const SECONDS: u32 = 30;

impl Manner {
    /// A file is waited for 30 seconds and locked for changes, isn't changed where another program has it open, doesn't
    /// stay where it is replaced, and nobody is warned.
    pub fn new() -> Manner {
        Manner {
            seconds: SECONDS,
            is_shared: false,
            reads_first: false,
            replaced: Kept::Nowhere,
            warns: false,
        }
    }
}
