//! The tokens of a text, separated by blanks.
ghost use Rattle.std.specs.Prelude.{◌≡◌, ◌<◌, ◌≤◌, drop, length, not, position, IfSome};
ghost use Rattle.std.specs.List.{position_or_len};
ghost use Rattle.line_friendly.specs.Words.{is_blank, skip_blanks, next_word};

/// Returns whether a byte is a space or a tab.
pub(crate) fn is_blank(byte: u8) -> bool
    ensures { result ≡ is_blank byte }
{
    byte == b' ' || byte == b'\t'
}

/// Returns the text after its first `count` bytes, of which there are that many.
pub(crate) fn behind(text: &[u8], count: usize) -> &[u8]
    requires { count ≤ length text.now }
    ensures { result.now ≡ drop count text.now }
{
    &text[count..]
}

/// Returns a text without the spaces and tabs at its front.
#[tactic(auto, using(crate::proofs::WordLemmas::skipped))]
pub fn skip_blanks(text: &[u8]) -> &[u8]
    ensures value { result.now ≡ skip_blanks text.now }
    ensures within { length result.now ≤ length text.now }
{
    behind(text, blanks_before(text))
}

/// Returns the first token of a text, after any blanks, and the text after the token.
#[tactic(auto, using(crate::proofs::WordLemmas::parts))]
pub fn next_word(text: &[u8]) -> (&[u8], &[u8])
    ensures word { result.0.now ≡ (next_word text.now).word }
    ensures rest { result.1.now ≡ (next_word text.now).rest }
    ensures within { length result.1.now ≤ length text.now }
{
    let text = skip_blanks(text);
    text.split_at(word_length(text))
}

// Returns the number of blanks at the front of a text.
#[tactic(auto, using(crate::proofs::WordLemmas::places))]
fn blanks_before(text: &[u8]) -> usize
    ensures count { result ≡ position_or_len (λ b. not (is_blank b)) text.now }
    ensures within { result ≤ length text.now }
{
    match first_sign(text) {
        Some(place) => place,
        None => text.len(),
    }
}

/// Returns the number of bytes of a text before its first blank.
#[tactic(auto, using(crate::proofs::WordLemmas::places))]
pub(crate) fn word_length(text: &[u8]) -> usize
    ensures count { result ≡ position_or_len is_blank text.now }
    ensures within { result ≤ length text.now }
{
    match first_blank(text) {
        Some(place) => place,
        None => text.len(),
    }
}

// Returns the place of the first byte of a text that is no blank.
fn first_sign(text: &[u8]) -> Option<usize>
    ensures place { result ≡ position (λ b. not (is_blank b)) text.now }
    ensures inside { IfSome result (λ place. place < length text.now) }
{
    text.iter().position(|byte| !is_blank(*byte))
}

// Returns the place of the first blank of a text.
fn first_blank(text: &[u8]) -> Option<usize>
    ensures place { result ≡ position is_blank text.now }
    ensures inside { IfSome result (λ place. place < length text.now) }
{
    text.iter().position(|byte| is_blank(*byte))
}
