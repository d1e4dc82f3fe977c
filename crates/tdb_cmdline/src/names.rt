// Texts and lists of names, as contracts see them: by their bytes.

ghost use Rattle.std.specs.Prelude.{◌≡◌, ℕ, List, [], ◌∷◌, ◌++◌, string_bytes, IfOk, OnOk};
ghost use Rattle.tdb_cmdline.specs.CopyNames.{first_and_rest};

use std::alloc::{AllocError, Global};
use std::marker::Model;

/// A text. A contract sees it as the list of its bytes.
#[derive(Debug, Drop)]
pub struct Text {
    text: String,
}

impl Model for Text {
    ghost Value = { List ℕ };

    ghost view = { λ t. string_bytes t.text };
}

impl Text {
    /// A copy of `from`.
    pub fn copy(alloc: Global, from: &str) -> Result<Text, AllocError>
        ensures { IfOk result (λ text. text ≡ from.now) }
    {
        Ok(Text {
            text: String::from_str(alloc, from)?,
        })
    }

    /// `front` with `rest` behind it.
    pub fn joined(alloc: Global, front: &str, rest: &str) -> Result<Text, AllocError>
        ensures { IfOk result (λ text. text ≡ front.now ++ rest.now) }
    {
        let mut text = String::from_str(alloc, front)?;
        text.push_str(rest)?;
        Ok(Text { text })
    }

    pub fn as_str(&self) -> &str
        ensures { result.now ≡ self.now }
    {
        self.text.as_str()
    }

    pub fn into_string(self) -> String
        ensures { string_bytes result ≡ self }
    {
        self.text
    }
}

/// A list of names. A contract sees it as the list of their bytes.
#[derive(Debug, Drop)]
pub struct Names {
    items: Vec<Text>,
}

impl Model for Names {
    ghost Value = { List (List ℕ) };

    ghost view = { λ n. n.items.items };
}

impl Names {
    /// No names. It takes no memory.
    pub fn new(alloc: Global) -> Names
        ensures { result ≡ [] }
    {
        Names {
            items: Vec::new(alloc),
        }
    }

    /// Puts a name at the end.
    pub fn push(&mut self, name: Text) -> Result<(), AllocError>
        ensures { OnOk result (self.new ≡ self.old ++ name ∷ []) }
    {
        self.items.push(name)?;
        Ok(())
    }

    pub fn as_slice(&self) -> &[Text]
        ensures { result.now ≡ self.now }
    {
        self.items.as_slice()
    }

    /// The first name, and those behind it.
    pub(crate) fn split_first(self) -> Option<(Text, Names)>
        ensures { result ≡ first_and_rest self }
    {
        if self.items.is_empty() {
            return None;
        }
        let mut items = self.items;
        let first = items.remove(0);
        Some((first, Names { items }))
    }
}
