//! A start list with the values of its names.
ghost use Rattle.std.specs.Prelude.{◌≡◌, IfErr, IfOk, Ok};
ghost use Rattle.line_names.specs.Lists.{filled, place_of};
ghost use Rattle.line_names.specs.declared.list_filling.Unfilled.TheVariants.{NoMemory};
ghost use Rattle.line_names.specs.ListViews.{FailsAs};

use crate::braces::name_at;
use crate::name_table::NameTable;
use std::alloc::{AllocError, AllocFailed, Global};

/// A name in a start list that has no value, with its place, from 1 on.
#[derive(Clone, Copy, PartialEq, Eq)]
pub struct UnknownName {
    /// The number of the line.
    pub line: usize,
    /// The number of the byte in the line at which the `$` is.
    pub column: usize,
}

/// Why the names of a start list aren't replaced.
#[derive(Clone, Copy, PartialEq, Eq)]
pub enum Unfilled {
    /// No value is given for a name.
    Unknown(UnknownName),
    /// The host is out of memory.
    NoMemory,
}

impl From<AllocError> for Unfilled {
    ghost from_gives = { λ _ unfilled. unfilled ≡ NoMemory };

    fn from(_want: AllocError) -> Unfilled {
        Unfilled::NoMemory
    }
}

impl<T: Drop> From<AllocFailed<T>> for Unfilled {
    ghost from_gives = { λ _ unfilled. unfilled ≡ NoMemory };

    fn from(_want: AllocFailed<T>) -> Unfilled {
        Unfilled::NoMemory
    }
}

/// Replaces each `${NAME}` in the text of a start list with the value of its name. Any other `$` remains. Errors in order: a name
/// has no value; out of memory.
pub fn fill_list(alloc: Global, text: &[u8], known: &NameTable) -> Result<Vec<u8>, Unfilled>
    ensures filled { IfOk result (λ made. filled known.now text.now ≡ Ok made.items) }
    ensures unknown { IfErr result (FailsAs (filled known.now text.now)) }
{
    let mut made = Vec::new(alloc);
    let mut at = 0;
    while at < text.len() {
        match name_at(&text[at..]) {
            Some(name) => match known.value(name) {
                Some(value) => {
                    made.extend_from_slice(value)?;
                    at += name.len() + 3;
                }
                None => return Err(Unfilled::Unknown(place_of(&text[..at]))),
            },
            None => {
                made.push(text[at])?;
                at += 1;
            }
        }
    }
    Ok(made)
}

// The place after a text.
fn place_of(text: &[u8]) -> UnknownName
    ensures { result ≡ place_of text.now }
{
    let mut place = UnknownName { line: 1, column: 1 };
    for byte in text {
        if *byte == b'\n' {
            place.line += 1;
            place.column = 1;
        } else {
            place.column += 1;
        }
    }
    place
}
