//! The text of a line that a fault is about.
ghost use Rattle.std.specs.Prelude.{◌≡◌};
ghost use Rattle.line_names.specs.Tokens.{token_at, token_of};

use crate::names::{DollarToken, sign_of};
use line_friendly::next_word;

/// Returns the token of a line that begins at a column, from 1 on: a name with its `$`, or else all up to the next blank. It is empty
/// if nothing follows.
pub fn token_at(line: &[u8], column: usize) -> &[u8]
    ensures { result.now ≡ token_at line.now column }
{
    token_of(&line[column.saturating_sub(1).min(line.len())..])
}

// Returns the token at the front of a text.
fn token_of(text: &[u8]) -> &[u8]
    ensures { result.now ≡ token_of text.now }
{
    if let Some((b'$', rest)) = text.split_first() {
        if let DollarToken::Named { size, .. } = sign_of(rest) {
            return &text[..1 + size];
        }
    }
    let (word, _) = next_word(text);
    word
}
