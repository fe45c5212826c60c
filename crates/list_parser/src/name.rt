//! Names, paths and labels, which own their bytes.
ghost use Rattle.std.specs.Prelude.{◌≡◌, ◌+◌, ◌≤◌, Some, length};
ghost use Rattle.arrayvec.specs.ArrayString.{array_string_len};
ghost use Rattle.list_parser.specs.Entries.{behind};
ghost use Rattle.list_parser.specs.Members.{name_in};

use arrayvec::ArrayString;
use core_calls::LONGEST_CLIENT;
use std::fmt;
use std::marker::Model;
use text_codec::{LONGEST_NAME, is_name};

/// The most bytes of a path: four names of 32 bytes, separated by `/`.
const LONGEST_PATH: usize = 131;

/// A name of a component: 1 to 32 letters, digits, `_`, `-` and `.`.
#[derive(Debug, Drop)]
pub struct Name {
    text: ArrayString<LONGEST_NAME>,
}

impl Model for Name {
    ghost use Rattle.std.specs.Prelude.{List, ℕ};

    ghost Value = { List ℕ };

    ghost view = { λ name. name.text.bytes };
}

impl Name {
    ghost use Rattle.std.specs.Option.{option_map};

    /// Parses a name, or returns `None` if the text is not one.
    pub fn read(text: &str) -> Option<Name>
        ensures { result ≡ name_in text.now }
    {
        if !is_name(text.as_bytes()) {
            return None;
        }
        let text = ArrayString::from(text).ok()?;
        Some(Name { text })
    }

    /// Returns the name as a text of ASCII characters.
    pub fn as_str(&self) -> &str
        ensures text { result.now ≡ self.now }
        ensures short { length result.now ≤ 32 }
    {
        self.text.as_str()
    }

    /// Returns the bytes of the name, from 1 to 32.
    pub fn as_bytes(&self) -> &[u8]
        ensures bytes { result.now ≡ self.now }
        ensures short { length result.now ≤ 32 }
    {
        self.as_str().as_bytes()
    }

    /// Copies the name into a new value of its own.
    pub fn copy(&self) -> Name
        ensures { result ≡ self.now }
    {
        Name { text: self.text }
    }
}

impl fmt::Display for Name {
    ghost output = { λ name. Some name };

    fn fmt<W: fmt::Write>(&self, f: &mut fmt::Formatter<W>) -> fmt::Result {
        f.write_str(self.text.as_str())
    }
}

/// The path of an entry: 1 to 4 names separated by `/`, those of the inits above it and its own. The path of the machine's
/// own list is empty.
#[derive(Debug, Drop)]
pub struct Path {
    text: ArrayString<LONGEST_PATH>,
}

impl Model for Path {
    ghost use Rattle.std.specs.Prelude.{List, ℕ};

    ghost Value = { List ℕ };

    ghost view = { λ path. path.text.bytes };
}

impl Path {
    ghost use Rattle.std.specs.Prelude.{[], codes};

    /// Returns the path of the machine's own list, which is empty.
    pub(crate) fn outermost() -> Path
        ensures { result ≡ [] }
    {
        Path {
            text: ArrayString::new(),
        }
    }

    /// Returns the path of an entry of this name in the list of this path.
    pub(crate) fn join(&self, name: &Name) -> Path
        requires { length self.now ≤ 98 }
        ensures path { result ≡ behind (codes "/") self.now name.now }
        ensures first { length self.now ≡ 0 → length result ≤ 32 }
        ensures longer { length result ≤ length self.now + 33 }
    {
        Path {
            text: behind(self.text, "/", name),
        }
    }

    /// Returns the path as a text of ASCII characters.
    pub fn as_str(&self) -> &str
        ensures text { result.now ≡ self.now }
        ensures short { length result.now ≤ 131 }
    {
        self.text.as_str()
    }

    /// Returns the bytes of the path, at most 131.
    pub fn as_bytes(&self) -> &[u8]
        ensures bytes { result.now ≡ self.now }
        ensures short { length result.now ≤ 131 }
    {
        self.as_str().as_bytes()
    }

    /// Copies the path into a new value of its own.
    pub fn copy(&self) -> Path
        ensures { result ≡ self.now }
    {
        Path { text: self.text }
    }
}

impl fmt::Display for Path {
    ghost output = { λ path. Some path };

    fn fmt<W: fmt::Write>(&self, f: &mut fmt::Formatter<W>) -> fmt::Result {
        f.write_str(self.text.as_str())
    }
}

/// The label under which an entry opens sessions: the names of its path, separated by ` -> `.
#[derive(Drop)]
pub(crate) struct Label {
    text: ArrayString<LONGEST_CLIENT>,
}

impl Model for Label {
    ghost use Rattle.std.specs.Prelude.{List, ℕ};

    ghost Value = { List ℕ };

    ghost view = { λ label. label.text.bytes };
}

impl Label {
    ghost use Rattle.std.specs.Prelude.{[], codes};

    /// Returns the label of the machine's own list, which is empty.
    pub(crate) fn outermost() -> Label
        ensures { result ≡ [] }
    {
        Label {
            text: ArrayString::new(),
        }
    }

    /// Returns the label of an entry of this name in the list of this label.
    pub(crate) fn join(&self, name: &Name) -> Label
        requires { length self.now ≤ 104 }
        ensures label { result ≡ behind (codes " -> ") self.now name.now }
        ensures first { length self.now ≡ 0 → length result ≤ 32 }
        ensures longer { length result ≤ length self.now + 36 }
    {
        Label {
            text: behind(self.text, " -> ", name),
        }
    }

    /// Returns the bytes of the label, at most 140.
    pub(crate) fn as_bytes(&self) -> &[u8]
        ensures bytes { result.now ≡ self.now }
        ensures short { length result.now ≤ 140 }
    {
        self.text.as_str().as_bytes()
    }

    /// Copies the label into a new value of its own.
    pub(crate) fn copy(&self) -> Label
        ensures { result ≡ self.now }
    {
        Label { text: self.text }
    }
}

/// Appends a name to what is above it, with a separator between them.
fn behind<const CAP: usize>(above: ArrayString<CAP>, parts: &str, name: &Name) -> ArrayString<CAP>
    requires { array_string_len above + length parts.now + 32 ≤ CAP }
    ensures first { array_string_len above.entry ≡ 0 → array_string_len result ≤ 32 }
    ensures longer { array_string_len result
        ≤ array_string_len above.entry + length parts.now + 32 }
    ensures text { result.bytes ≡ behind parts.now above.entry.bytes name.now }
{
    let mut text = above;
    if !text.is_empty() {
        text.push_str(parts);
    }
    text.push_str(name.as_str());
    text
}
