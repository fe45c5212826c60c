//! The lines that begin with `@`.
ghost use Rattle.std.specs.Prelude.{◌≡◌, ◌≤◌, length, OnOk};
ghost use Rattle.std.specs.List.{list_all};
ghost use Rattle.line_friendly.specs.Words.{is_blank};
ghost use Rattle.line_names.specs.Directives.{binding_of, directive_by, directive_of, followed, set_by, trimmed};
ghost use Rattle.line_names.specs.Views.{binding_seen, directive_seen, directive_view};

use crate::filling::is_directive;
use crate::name_table::NameTable;
use crate::names::is_name;
use line_friendly::{end_of, next_word, skip_blanks, trimmed_line};
use std::alloc::AllocError;

/// A name and its value.
#[derive(Clone, Copy)]
pub struct NameValue<'a> {
    /// The name.
    pub name: &'a [u8],
    /// The value.
    pub value: &'a [u8],
}

/// The directive in a line that begins with `@`.
#[derive(Clone, Copy)]
pub enum Directive<'a> {
    /// Sets a name to a value.
    Set(NameValue<'a>),
    /// Repeats the lines up to `@end`, in a file only.
    Repeat,
    /// Ends the repeated lines.
    End,
    /// An unknown directive.
    Unknown,
}

/// Parses a line that begins with `@`, without the comment after it. Returns nothing for any other line.
pub fn directive_of(line: &[u8]) -> Option<Directive<'_>>
    ensures { directive_seen result ≡ directive_of line.now }
{
    if !is_directive(line) {
        return None;
    }
    let (word, rest) = next_word(trimmed_line(&line[..end_of(line)]));
    Some(directive_by(word, rest))
}

impl NameTable {
    /// Follows a directive: binds the name that it sets, and does nothing for any other directive. The error is that the host is
    /// out of memory.
    pub fn follow(&mut self, directive: Directive<'_>) -> Result<(), AllocError>
        ensures { OnOk result (self.new ≡ followed self.old (directive_view directive.entry)) }
    {
        match directive {
            Directive::Set(binding) => self.bind(binding.name, binding.value),
            Directive::Repeat | Directive::End | Directive::Unknown => Ok(()),
        }
    }
}

// Returns the directive of a token, by the text after it.
fn directive_by<'a>(word: &[u8], rest: &'a [u8]) -> Directive<'a>
    ensures { directive_view result ≡ directive_by word.now rest.now }
{
    if word == b"@set".as_slice() {
        let binding = binding_of(rest);
        return set_by(binding);
    }
    if word == b"@repeat".as_slice() {
        return Directive::Repeat;
    }
    if word == b"@end".as_slice() {
        return Directive::End;
    }
    Directive::Unknown
}

// Returns the directive that sets a name, if a name was parsed.
fn set_by(binding: Option<NameValue<'_>>) -> Directive<'_>
    ensures { directive_view result ≡ set_by (binding_seen binding.entry) }
{
    match binding {
        Some(binding) => Directive::Set(binding),
        None => Directive::Unknown,
    }
}

// Parses a name and its value.
fn binding_of(text: &[u8]) -> Option<NameValue<'_>>
    ensures { binding_seen result ≡ binding_of text.now }
{
    let (name, rest) = next_word(text);
    let value = skip_blanks(rest);
    if is_name(name) && !value.is_empty() {
        Some(NameValue {
            name,
            value: trimmed(value),
        })
    } else {
        None
    }
}

// Returns a text without the blanks at its end.
#[tactic(auto, using(crate::proofs::TrimLemmas::trims))]
fn trimmed(text: &[u8]) -> &[u8]
    ensures { result.now ≡ trimmed text.now }
{
    let mut end = text.len();
    while end > 0 && is_blank(text[end - 1]) {
        end -= 1;
    }
    &text[..end]
}

// Returns whether a byte is a space or a tab.
fn is_blank(byte: u8) -> bool
    ensures { result ≡ is_blank byte }
{
    byte == b' ' || byte == b'\t'
}
