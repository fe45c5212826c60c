//! The buffer of an engine's line.
ghost use Rattle.std.specs.Prelude.{◌≡◌, ◌≤◌, false, None, Some, [], length, IfSome};
ghost use Rattle.std.specs.Option.{option_copied};
ghost use Rattle.own_model.specs.Transcript.{longest_line};
ghost use Rattle.line_friendly.specs.Words.{spaced, words_spaced};
ghost use Rattle.line_friendly.specs.LineText.{added};

use crate::words::next_word;
use std::marker::Model;

/// The longest line that the engine reads as a call, in bytes.
const LONGEST: usize = 8192;

/// The buffer of an engine's line, of at most 8192 bytes. Contracts see its bytes, or nothing if more were put in.
#[derive(Drop)]
pub struct LineBuffer {
    bytes: [u8; LONGEST],
    len: usize,
    is_too_long: bool,
}

impl Model for LineBuffer {
    ghost use Rattle.std.specs.Prelude.{ℕ, ◌≤◌, List, Option, None, Some, take, if◌then◌else◌};

    ghost Value = { Option (List ℕ) };

    ghost view = { λ line. if line.is_too_long then None else Some (take line.len line.bytes) };

    ghost invariant = { λ line. line.len ≤ 8192 };
}

impl LineBuffer {
    /// Returns an empty buffer, which has room for 8192 bytes.
    pub fn new() -> LineBuffer
        ensures { result ≡ Some [] }
    {
        LineBuffer {
            bytes: [0; LONGEST],
            len: 0,
            is_too_long: false,
        }
    }

    /// Removes all bytes, also after too many were put in.
    pub fn clear(&mut self)
        ensures { self.new ≡ Some [] }
    {
        self.len = 0;
        self.is_too_long = false;
    }

    /// Returns the bytes, or nothing if more were put in than the buffer has room for.
    pub fn text(&self) -> Option<&[u8]>
        ensures value { option_copied result ≡ self.now }
        ensures short { IfSome result (λ text. length text.now ≤ longest_line) }
    {
        if self.is_too_long {
            None
        } else {
            Some(&self.bytes[..self.len])
        }
    }

    /// Appends bytes; after too many of them `text` returns nothing.
    #[tactic(auto, unfolding(crate::specs::LineText::added))]
    pub fn put(&mut self, more: &[u8])
        ensures { self.new ≡ added self.old more.now }
    {
        if more.len() > LONGEST - self.len {
            self.is_too_long = true;
        }
        if self.is_too_long {
            return;
        }
        let end = self.len + more.len();
        self.bytes[self.len..end].copy_from_slice(more);
        self.len = end;
    }

    /// Appends a token with a space before it, or nothing if the token is empty.
    #[tactic(auto, using(crate::proofs::WrittenLemmas::puts))]
    pub(crate) fn put_spaced(&mut self, word: &[u8])
        ensures { self.new ≡ added self.old (spaced word.now) }
    {
        if !word.is_empty() {
            self.put(b" ");
            self.put(word);
        }
    }

    /// Appends each token of a text with a space before it.
    #[tactic(auto, using(crate::proofs::WrittenLemmas::word_steps))]
    pub(crate) fn put_words(&mut self, text: &[u8])
        ensures { self.new ≡ added self.old (words_spaced false text.now) }
    {
        let mut rest = text;
        loop {
            let (word, after) = next_word(rest);
            self.put_spaced(word);
            if after.is_empty() {
                return;
            }
            rest = after;
        }
    }
}
