//! Labels that a client gives, and the labels that the lists above it see.
ghost use Rattle.std.specs.Prelude.{◌≡◌, ◌+◌, ◌≤◌, length, Some};
ghost use Rattle.std.specs.List.{list_all};
ghost use Rattle.own_model.specs.Routes.{label_with};
ghost use Rattle.own_model.specs.SessionArgs.{is_quotable};
ghost use Rattle.list_labels.specs.Asked.{behind};

use crate::byte_text::ByteText;
use arrayvec::ArrayVec;
use std::fmt::{self, Display};
use std::marker::Model;
use text_codec::is_quotable;

/// The maximum number of bytes of a label that a client gives.
pub const LONGEST_GIVEN: usize = 64;

/// The maximum number of bytes of a label after the names of all inits above a client.
pub(crate) const LONGEST_SEEN: usize = 208;

/// The maximum number of lists from a client's own list to the machine's list, both included.
pub(crate) const MOST_LISTS: usize = 4;

/// A label that a client can give: at most 64 bytes, each of which can be in quotes.
#[derive(Drop)]
pub struct ClientLabel {
    text: ArrayVec<u8, LONGEST_GIVEN>,
}

impl Model for ClientLabel {
    ghost use Rattle.std.specs.Prelude.{List, ℕ};

    ghost Value = { List ℕ };

    ghost view = { λ label. label.text.items };
}

impl ClientLabel {
    ghost use Rattle.std.specs.Prelude.{[], None, if◌then◌else◌};
    ghost use Rattle.list_labels.specs.Asked.{is_given};

    /// Returns a text as a label, or none if the text is longer than 64 bytes or has a byte that no label has.
    pub fn read(text: &[u8]) -> Option<ClientLabel>
        ensures { result ≡ (if is_given text.now then Some text.now else None) }
    {
        if LONGEST_GIVEN < text.len() || !is_plain(text) {
            return None;
        }
        let mut kept = ArrayVec::new();
        let _ = kept.try_extend_from_slice(text);
        Some(ClientLabel { text: kept })
    }

    /// Returns the empty label, which is 0 bytes long.
    pub fn empty() -> ClientLabel
        ensures { result ≡ [] }
    {
        ClientLabel {
            text: ArrayVec::new(),
        }
    }

    /// Returns a copy of the label, with the same bytes.
    pub fn copy(&self) -> ClientLabel
        ensures { result ≡ self.now }
    {
        let mut text = ArrayVec::new();
        let _ = text.try_extend_from_slice(self.text.as_slice());
        ClientLabel { text }
    }

    /// Returns the bytes of the label, at most 64.
    pub fn as_bytes(&self) -> &[u8]
        ensures bytes { result.now ≡ self.now }
        ensures short { length result.now ≤ 64 }
    {
        self.text.as_slice()
    }
}

// Whether each byte may be between quotes.
fn is_plain(text: &[u8]) -> bool
    ensures { result ≡ list_all is_quotable text.now }
{
    text.iter().all(|byte| is_quotable(*byte))
}

/// Writes the label; each byte is a character that can be printed.
impl fmt::Display for ClientLabel {
    fn fmt<W: fmt::Write>(&self, f: &mut fmt::Formatter<W>) -> fmt::Result {
        ByteText::of(self.as_bytes()).fmt(f)
    }
}

/// Returns a name with an arrow and a label after it, or the name alone if the label is empty.
pub(crate) fn label_with(name: &[u8], given: &[u8]) -> ArrayVec<u8, LONGEST_SEEN>
    requires { length name.now + 4 + length given.now ≤ 208 }
    ensures { result.items ≡ label_with name.now given.now }
{
    let mut label = ArrayVec::<u8, LONGEST_SEEN>::new();
    let _ = label.try_extend_from_slice(name);
    if !given.is_empty() {
        let _ = label.try_extend_from_slice(b" -> ");
        let _ = label.try_extend_from_slice(given);
    }
    label
}

/// Returns a name before a text, with the arrow ` -> ` between them, even if the text is empty.
pub(crate) fn behind(name: &[u8], text: &[u8]) -> ArrayVec<u8, LONGEST_SEEN>
    requires { length name.now + 4 + length text.now ≤ 208 }
    ensures { result.items ≡ behind name.now text.now }
{
    let mut label = ArrayVec::<u8, LONGEST_SEEN>::new();
    let _ = label.try_extend_from_slice(name);
    let _ = label.try_extend_from_slice(b" -> ");
    let _ = label.try_extend_from_slice(text);
    label
}
