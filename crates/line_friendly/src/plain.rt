//! Calls of the engine in which nothing is translated.
ghost use Rattle.std.specs.Prelude.{◌≡◌, IfSome};
ghost use Rattle.line_friendly.specs.Handed.{has_no_sign, has_text, is_sign};
ghost use Rattle.line_friendly.specs.Theorems.{IsBare, IsPlain, is_translated};
ghost use Rattle.line_friendly.specs.CallParts.{parts_of};
ghost use Rattle.line_friendly.specs.CallParts.CallTail.{Request};
ghost use Rattle.line_friendly.specs.Views.{tail_in};
ghost use Rattle.line_grammar.specs.Read.{Reads, model_call};

use crate::call_parts::{CallParts, CallTail};
use crate::requests::has_suffix;
use crate::words::behind;
use line_grammar::{Call, NamedCall, call_in};

/// Returns the call of a line that is passed to the engine unchanged, if its bytes show that: it has no character of the friendly
/// form, and none of a name. Most lines have none, and need no further parsing.
#[tactic(auto, using(crate::proofs::SightLemmas::plain_at_sight, crate::proofs::SightLemmas::bare_at_sight))]
pub fn plain_call(line: &[u8]) -> Option<NamedCall<'_>>
    ensures plain { IfSome result (λ _. IsPlain line.now) }
    ensures bare { IfSome result (λ _. IsBare line.now) }
    ensures read { IfSome result (λ call. Reads line.now call) }
{
    if !has_no_sign(line) {
        return None;
    }
    let said = call_in(line)?;
    if has_translation(line, said) {
        return None;
    }
    Some(said)
}

// Returns whether a line with a call has something that is translated after its first tokens. Most calls never have, so their
// lines aren't parsed for it.
#[tactic(auto, using(crate::proofs::TextLemmas::untranslated))]
fn has_translation(line: &[u8], said: NamedCall<'_>) -> bool
    requires { Reads line.now said }
    ensures { result ≡ is_translated (parts_of line.now).tail }
{
    has_text(said.call) && is_translated(CallParts::of(line).tail)
}

// Returns whether a call may have something that is translated after the first tokens of its line.
fn has_text(call: Call<'_>) -> bool
    ensures { result ≡ has_text (model_call call.entry) }
{
    matches!(call, Call::Poke { .. } | Call::CallSession { .. })
}

// Returns whether a line has no character of the friendly form, and none of a name.
fn has_no_sign(line: &[u8]) -> bool
    ensures { result ≡ has_no_sign line.now }
{
    line.iter().all(|byte| !is_sign(*byte))
}

// Returns whether a byte is such a character.
fn is_sign(byte: u8) -> bool
    ensures { result ≡ is_sign byte }
{
    byte == b'"' || byte == b'#' || byte == b'>' || byte == b'\r' || byte == b'$'
}

// Returns whether the rest of a call has a text in quotes that is written, or a size with a suffix in a request.
fn is_translated(tail: CallTail<'_>) -> bool
    ensures { result ≡ is_translated (tail_in tail.entry) }
{
    match tail {
        CallTail::Words(_) | CallTail::Kept(_) | CallTail::Sized(_) => false,
        CallTail::Request(rest) => has_suffix_behind(rest),
        CallTail::Quoted { .. } => true,
    }
}

// Returns whether a request after one blank has a size with a suffix.
fn has_suffix_behind(rest: &[u8]) -> bool
    ensures { result ≡ is_translated (Request rest.now) }
{
    has_suffix(behind(rest, rest.len().min(1)))
}
