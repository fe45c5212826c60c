//! The lines of a scenario, and their kinds for rounds.
ghost use Rattle.std.specs.Prelude.{◌≡◌, ◌+◌, ◌≤◌, IfOk, drop, length, take};
ghost use Rattle.own_model.specs.Text.{lines_of};
ghost use Rattle.run_devices.specs.Lines.{line_length};
ghost use Rattle.line_rounds.specs.Structure.{column_of, kind_by, kind_of, words_of};
ghost use Rattle.line_rounds.specs.Views.{texts};

use line_friendly::{end_of, next_word, trimmed_line};
use std::alloc::{AllocError, Global};
use text_codec::find_byte;

/// The kind of a line for rounds.
#[derive(Clone, Copy, PartialEq, Eq)]
pub(crate) enum RoundLineKind {
    /// The line begins rounds.
    Repeats,
    /// The line ends rounds.
    Ends,
    /// Any other line.
    Plain,
}

/// Returns the lines of a text, without their newlines. The error is that the host is out of memory.
#[tactic(auto, using(crate::proofs::RoundLemmas::line_more))]
pub(crate) fn lines_of(alloc: Global, text: &[u8]) -> Result<Vec<&[u8]>, AllocError>
    ensures { IfOk result (λ lines. texts lines.items ≡ lines_of text.now) }
{
    let mut lines = Vec::new(alloc);
    let mut rest = text;
    while !rest.is_empty() {
        let length = line_length(rest);
        lines.push(&rest[..length])?;
        rest = behind_line(rest, length);
    }
    Ok(lines)
}

// Returns the number of bytes of a text's first line.
fn line_length(text: &[u8]) -> usize
    ensures count { result ≡ line_length text.now }
    ensures within { result ≤ length text.now }
{
    match find_byte(b'\n', text) {
        Some(end) => end,
        None => text.len(),
    }
}

// Returns at most this number of bytes from the front of a text.
fn front(text: &[u8], count: usize) -> &[u8]
    ensures { result.now ≡ take count text.now }
{
    if count < text.len() {
        &text[..count]
    } else {
        text
    }
}

// Returns the text after the first line, which has this number of bytes.
fn behind_line(text: &[u8], size: usize) -> &[u8]
    ensures { result.now ≡ drop (size + 1) text.now }
{
    if size < text.len() {
        &text[size + 1..]
    } else {
        b""
    }
}

/// Returns the kind of a line: its first token decides, if it begins with `@`.
pub(crate) fn kind_of(line: &[u8]) -> RoundLineKind
    ensures { result ≡ kind_of line.now }
{
    if trimmed_line(line).first() != Some(&b'@') {
        return RoundLineKind::Plain;
    }
    let (word, _) = next_word(words_of(line));
    kind_by(word)
}

// Returns the kind of a line whose first token begins with `@`, by that token.
fn kind_by(word: &[u8]) -> RoundLineKind
    ensures { result ≡ kind_by word.now }
{
    if word == b"@repeat".as_slice() {
        RoundLineKind::Repeats
    } else if word == b"@end".as_slice() {
        RoundLineKind::Ends
    } else {
        RoundLineKind::Plain
    }
}

/// Returns the text of a line without the comment after it.
#[tactic(auto, unfolding(crate::specs::Structure::words_of))]
pub(crate) fn words_of(line: &[u8]) -> &[u8]
    ensures { result.now ≡ words_of line.now }
{
    trimmed_line(front(line, end_of(line)))
}

/// Returns the column of a line's first character, from 1 on.
pub(crate) fn column_of(line: &[u8]) -> usize
    ensures { result ≡ column_of line.now }
{
    line.len() - trimmed_line(line).len() + 1
}
