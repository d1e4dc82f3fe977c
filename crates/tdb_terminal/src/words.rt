//! The commands of a session, as a person is told of them.

/// A command that a person is told of. What is a command isn't decided by it.
#[derive(Clone, Copy, Debug, PartialEq, Eq)]
pub(crate) struct Word {
    /// Its name.
    pub(crate) name: &'static str,

    /// How it is written, from its name on.
    pub(crate) usage: &'static str,

    /// What it does.
    pub(crate) does: &'static str,
}

/// The commands of a session, in the order of the page.
pub(crate) static WORDS: [Word; 16] = [
    Word {
        name: "show",
        usage: "show KEY",
        does: "print the value of a key",
    },
    Word {
        name: "store",
        usage: "store KEY DATA",
        does: "store a value under a key, in place of the old one",
    },
    Word {
        name: "storehex",
        usage: "storehex KEY DATA",
        does: "the same, both in hexadecimal digits",
    },
    Word {
        name: "insert",
        usage: "insert KEY DATA",
        does: "add a key that isn't there",
    },
    Word {
        name: "delete",
        usage: "delete KEY",
        does: "take a key out",
    },
    Word {
        name: "erase",
        usage: "erase",
        does: "take every key out",
    },
    Word {
        name: "check",
        usage: "check",
        does: "print how many keys there are",
    },
    Word {
        name: "first",
        usage: "first",
        does: "print the first pair; short: 1",
    },
    Word {
        name: "next",
        usage: "next",
        does: "print the next pair; short: n, or an empty line",
    },
    Word {
        name: "dump",
        usage: "dump",
        does: "print all pairs",
    },
    Word {
        name: "keys",
        usage: "keys",
        does: "print all keys",
    },
    Word {
        name: "hexkeys",
        usage: "hexkeys",
        does: "print all keys in hexadecimal digits",
    },
    Word {
        name: "transaction_start",
        usage: "transaction_start",
        does: "begin a transaction, maybe within another",
    },
    Word {
        name: "transaction_commit",
        usage: "transaction_commit",
        does: "end it with what was done in it",
    },
    Word {
        name: "transaction_cancel",
        usage: "transaction_cancel",
        does: "end it without what was done in it",
    },
    Word {
        name: "quit",
        usage: "quit",
        does: "end the session; short: q",
    },
];
