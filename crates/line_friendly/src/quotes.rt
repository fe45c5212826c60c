//! Texts in quotes within a line.
ghost use Rattle.std.specs.Prelude.{◌≡◌, ◌+◌, ◌<◌, ◌≤◌, ◌==◌, ◌&&◌, not, true, false, length, slice_index, IfSome, if◌then◌else◌};
ghost use Rattle.std.specs.Option.{option_copied};
ghost use Rattle.std.specs.List.{list_all};
ghost use Rattle.line_friendly.specs.Views.{AreInside};
ghost use Rattle.line_friendly.specs.Words.{is_blank};
ghost use Rattle.line_friendly.specs.Quotes.{after_byte, after_text, closed_inside, closing, first_outside, first_stray, inside_quotes, is_arrow, is_comment, is_outside, is_quote, is_stray, last_outside};

use crate::words::{behind, is_blank, next_word};
use text_codec::find_byte;

/// The state of a byte relative to quotes.
#[derive(Clone, Copy)]
pub(crate) enum QuoteState {
    /// Outside of quotes.
    Outside,
    /// Within quotes.
    Within,
    /// Within quotes, after a backslash.
    Escaped,
}

impl QuoteState {
    /// Returns whether the state is outside of quotes.
    pub(crate) fn is_outside(self) -> bool
        ensures { result ≡ is_outside self }
    {
        matches!(self, QuoteState::Outside)
    }

    // Returns the state of the byte after one.
    fn after(self, byte: u8) -> QuoteState
        ensures { result ≡ after_byte self byte }
    {
        match self {
            QuoteState::Outside => {
                if byte == b'"' {
                    QuoteState::Within
                } else {
                    QuoteState::Outside
                }
            }
            QuoteState::Within => {
                if byte == b'"' {
                    QuoteState::Outside
                } else if byte == b'\\' {
                    QuoteState::Escaped
                } else {
                    QuoteState::Within
                }
            }
            QuoteState::Escaped => QuoteState::Within,
        }
    }
}

/// The characters of a text outside of quotes that split it.
#[derive(Clone, Copy)]
pub(crate) struct QuoteMarks {
    /// The state after the text.
    pub end: QuoteState,
    /// The place of the last arrow, with the blank before it.
    pub arrow: Option<usize>,
    /// The place of the last quote that opens.
    pub quote: Option<usize>,
}

/// Returns the last arrow and the last opening quote of a text outside of quotes, and the state after the text.
#[tactic(auto, using(crate::proofs::QuoteLemmas::marks))]
pub(crate) fn marks_of(text: &[u8]) -> QuoteMarks
    ensures end { result.end ≡ after_text QuoteState.Outside text.now }
    ensures arrow { result.arrow ≡ last_outside is_arrow QuoteState.Outside text.now }
    ensures quote { result.quote ≡ last_outside is_quote QuoteState.Outside text.now }
    ensures inside { AreInside result (length text.now) }
{
    let mut end = QuoteState::Outside;
    let mut arrow = None;
    let mut quote = None;
    for (i, byte) in text.iter().enumerate() {
        let rest = behind(text, i);
        arrow = last_place(end.is_outside(), is_arrow(rest), i, arrow);
        quote = last_place(end.is_outside(), is_quote(rest), i, quote);
        end = end.after(*byte);
    }
    QuoteMarks { end, arrow, quote }
}

/// Returns the place of the last arrow outside of quotes, with the blank before it, if there is one.
pub fn arrow_of(text: &[u8]) -> Option<usize>
    ensures place { result ≡ last_outside is_arrow QuoteState.Outside text.now }
    ensures inside { IfSome result (λ n. n + 4 ≤ length text.now) }
{
    marks_of(text).arrow
}

// Returns a place outside of quotes with a match, or else the one before.
fn last_place(is_outside: bool, is_here: bool, place: usize, before: Option<usize>) -> Option<usize>
    ensures { result ≡ (if is_outside && is_here then Some place else before) }
{
    if is_outside && is_here {
        Some(place)
    } else {
        before
    }
}

/// Returns the place of the comment after a text, outside of quotes, if there is one.
#[tactic(auto, using(crate::proofs::QuoteLemmas::no_comment))]
pub(crate) fn comment_of(text: &[u8]) -> Option<usize>
    ensures place { result ≡ first_outside is_comment QuoteState.Outside text.now }
    ensures inside { IfSome result (λ place. place < length text.now) }
{
    // Few lines have the character.
    if find_byte(b'#', text).is_none() {
        return None;
    }
    first_comment(text)
}

// Returns the same, byte by byte.
#[tactic(auto, using(crate::proofs::QuoteLemmas::firsts))]
fn first_comment(text: &[u8]) -> Option<usize>
    ensures place { result ≡ first_outside is_comment QuoteState.Outside text.now }
    ensures inside { IfSome result (λ place. place < length text.now) }
{
    let mut at = QuoteState::Outside;
    for (i, byte) in text.iter().enumerate() {
        if at.is_outside() && is_comment(behind(text, i)) {
            return Some(i);
        }
        at = at.after(*byte);
    }
    None
}

/// Returns the place before the first `=>` of a call, outside of quotes, that is no arrow, if there is one.
#[tactic(auto, using(crate::proofs::QuoteLemmas::strays))]
pub(crate) fn stray_of(text: &[u8]) -> Option<usize>
    ensures place { result ≡ first_stray QuoteState.Outside text.now }
    ensures inside { IfSome result (λ place. place < length text.now) }
{
    let mut at = QuoteState::Outside;
    for (i, byte) in text.iter().enumerate() {
        at = at.after(*byte);
        if is_stray_at(at, behind(text, i)) {
            return Some(i);
        }
    }
    None
}

// Returns whether a text begins so, if what is after its first byte is outside of quotes.
fn is_stray_at(next: QuoteState, text: &[u8]) -> bool
    ensures { result ≡ (is_outside next && is_stray text.now) }
{
    next.is_outside() && is_stray(text)
}

// Returns whether a text begins with a byte and a `=>` that is no arrow with a text after it.
#[tactic(auto, using(crate::proofs::QuoteLemmas::no_arrow))]
fn is_stray(text: &[u8]) -> bool
    ensures { result ≡ is_stray text.now }
{
    if text.is_empty() || !behind(text, 1).starts_with(b"=>") {
        return false;
    }
    !is_arrow(text) || are_blanks(behind(text, 4))
}

// Returns whether a text begins with blanks and a comment.
fn is_comment(text: &[u8]) -> bool
    ensures { result ≡ is_comment text.now }
{
    begins_blank(text) && next_word(text).0 == b"#".as_slice()
}

// Returns whether a text begins with a blank.
#[tactic(auto, using(crate::proofs::QuoteLemmas::firsts))]
fn begins_blank(text: &[u8]) -> bool
    ensures value { result ≡ is_blank (slice_index text.now 0) }
    ensures some { result ≡ true → 0 < length text.now }
{
    !text.is_empty() && is_blank(text[0])
}

// Returns whether a text begins with an arrow.
fn is_arrow(text: &[u8]) -> bool
    ensures value { result ≡ is_arrow text.now }
    ensures some { result ≡ true → 4 ≤ length text.now }
{
    begins_blank(text) && behind(text, 1).starts_with(b"=> ")
}

/// Returns whether a text begins with a quote character.
#[tactic(auto, using(crate::proofs::QuoteLemmas::first_is))]
pub(crate) fn is_quote(text: &[u8]) -> bool
    ensures value { result ≡ is_quote text.now }
    ensures some { result ≡ true → 0 < length text.now }
{
    !text.is_empty() && text[0] == b'"'
}

/// Returns the inside of a text in quotes, which blanks may follow, or nothing if the text is something else.
pub(crate) fn inside_quotes(text: &[u8]) -> Option<&[u8]>
    ensures value { option_copied result ≡ inside_quotes text.now }
    ensures within { IfSome result (λ inside. length inside.now < length text.now) }
{
    if is_quote(text) {
        closed_inside(behind(text, 1))
    } else {
        None
    }
}

// Returns the text before the closing quote, if only blanks follow the quote.
fn closed_inside(text: &[u8]) -> Option<&[u8]>
    ensures value { option_copied result ≡ closed_inside text.now }
    ensures within { IfSome result (λ inside. length inside.now ≤ length text.now) }
{
    let end = closing(text)?;
    if are_blanks(behind(text, end + 1)) {
        Some(&text[..end])
    } else {
        None
    }
}

// Returns whether a text is blanks only.
fn are_blanks(text: &[u8]) -> bool
    ensures { result ≡ list_all is_blank text.now }
{
    text.iter().all(|byte| is_blank(*byte))
}

// Returns the place of the closing quote after an opening one.
#[tactic(auto, using(crate::proofs::QuoteLemmas::closes))]
fn closing(text: &[u8]) -> Option<usize>
    ensures place { result ≡ closing false text.now }
    ensures inside { IfSome result (λ place. place < length text.now) }
{
    let mut escaped = false;
    for (i, byte) in text.iter().enumerate() {
        if is_unescaped(escaped, *byte, b'"') {
            return Some(i);
        }
        escaped = is_unescaped(escaped, *byte, b'\\');
    }
    None
}

// Returns whether a byte is the wanted one, and no backslash is before it.
fn is_unescaped(escaped: bool, byte: u8, wanted: u8) -> bool
    ensures { result ≡ (not escaped && byte == wanted) }
{
    !escaped && byte == wanted
}
