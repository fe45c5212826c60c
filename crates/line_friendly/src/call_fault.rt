//! The faults of calls that can't be parsed.
ghost use Rattle.std.specs.Prelude.{◌≡◌, ◌≤◌, length, is_some, if◌then◌else◌, IfSome};
ghost use Rattle.own_model.specs.Call.{some_bytes_of_hex};
ghost use Rattle.line_friendly.specs.CallFault.{at_word, has_small_unit, is_long_address, is_small_unit, unless, why, why_behind, why_form, why_word, why_words};
ghost use Rattle.line_friendly.specs.declared.fault.LineReason.TheVariants.{LongAddress, NoAddress, SmallUnit};

use crate::fault::{FriendlyFault, LineReason};
use crate::forms::{ArgumentKind, form_near, has_text, kinds_of};
use crate::words::{next_word, skip_blanks};
use line_grammar::CallForm;
use text_codec::{is_name, is_path, read_address, read_hex};
use trade_base::{read_amount, read_number};

/// Returns the fault of a call that can't be parsed, with its byte in the call from 0 on.
pub(crate) fn why(call: &[u8]) -> FriendlyFault
    ensures value { result ≡ why call.now }
    ensures within { result.column ≤ length call.now }
{
    let (name, rest) = next_word(call);
    if is_path(name) {
        why_behind(call.len(), rest)
    } else {
        at_word(call.len(), call, LineReason::NoName)
    }
}

// Returns the fault after the name, in a call of this number of bytes.
fn why_behind(count: usize, rest: &[u8]) -> FriendlyFault
    requires { length rest.now ≤ count }
    ensures value { result ≡ why_behind count rest.now }
    ensures within { result.column ≤ count }
{
    if skip_blanks(rest).is_empty() {
        return at_word(count, rest, LineReason::NoForm);
    }
    let (word, behind) = next_word(rest);
    match CallForm::named(word) {
        Some(form) => match why_words(form, kinds_of(form), count, behind) {
            Some(fault) => fault,
            None => FriendlyFault {
                reason: LineReason::NoCall,
                column: 0,
            },
        },
        None => at_word(count, rest, why_form(word)),
    }
}

// Returns the reason for a token that is no form's.
fn why_form(word: &[u8]) -> LineReason
    ensures { result ≡ why_form word.now }
{
    match form_near(word) {
        Some(form) => LineReason::Misspelt(form),
        None => LineReason::UnknownCall,
    }
}

// Returns the fault of the first token after a form that has the wrong kind, is missing, or is one too many.
fn why_words(
    form: CallForm,
    kinds: &[ArgumentKind],
    count: usize,
    rest: &[u8],
) -> Option<FriendlyFault>
    requires { length rest.now ≤ count }
    ensures value { result ≡ why_words form kinds.now count rest.now }
    ensures within { IfSome result (λ fault. fault.column ≤ count) }
{
    let signs = skip_blanks(rest);
    let Some((kind, kinds)) = kinds.split_first() else {
        return if has_text(form) || signs.is_empty() {
            None
        } else {
            Some(at_word(count, rest, LineReason::TooMany(form)))
        };
    };
    if signs.is_empty() {
        return Some(at_word(count, rest, LineReason::Missing(form)));
    }
    let (word, behind) = next_word(rest);
    match why_word(*kind, word) {
        Some(reason) => Some(at_word(count, rest, reason)),
        None => why_words(form, kinds, count, behind),
    }
}

// Returns the fault of this reason at the first token of a call's rest.
fn at_word(count: usize, rest: &[u8], reason: LineReason) -> FriendlyFault
    requires { length rest.now ≤ count }
    ensures value { result ≡ at_word count rest.now reason }
    ensures within { result.column ≤ count }
{
    FriendlyFault {
        reason,
        column: count - skip_blanks(rest).len(),
    }
}

// Returns the reason why a token hasn't its kind, if it hasn't.
fn why_word(kind: ArgumentKind, word: &[u8]) -> Option<LineReason>
    ensures { result ≡ why_word kind word.now }
{
    match kind {
        ArgumentKind::Number => unless(
            read_number(word).is_some(),
            or_unit(word, LineReason::NoNumber),
        ),
        ArgumentKind::Size => unless(
            read_amount(word).is_some(),
            or_unit(word, LineReason::NoSize),
        ),
        ArgumentKind::Address => unless(read_address(word).is_some(), why_address(word)),
        ArgumentKind::Hex => unless(is_hex(word), LineReason::NoHex),
        ArgumentKind::Service => unless(is_name(word), LineReason::NoService),
    }
}

// Returns a reason, if a token doesn't fit.
fn unless(fits: bool, reason: LineReason) -> Option<LineReason>
    ensures { result ≡ unless fits reason }
{
    if fits { None } else { Some(reason) }
}

// Returns the fault of a unit in a small letter, or else another reason.
fn or_unit(word: &[u8], reason: LineReason) -> LineReason
    ensures { result ≡ (if has_small_unit word.now then SmallUnit else reason) }
{
    if has_small_unit(word) {
        LineReason::SmallUnit
    } else {
        reason
    }
}

// Returns whether a token is a number with a unit in a small letter.
#[tactic(auto, using(crate::proofs::ReadingLemmas::no_unit))]
fn has_small_unit(word: &[u8]) -> bool
    ensures { result ≡ has_small_unit word.now }
{
    if word.is_empty() {
        return false;
    }
    let last = word.len() - 1;
    is_small_unit(word[last]) && read_number(&word[..last]).is_some()
}

// Returns whether a byte is a unit in a small letter.
fn is_small_unit(byte: u8) -> bool
    ensures { result ≡ is_small_unit byte }
{
    byte == b'k' || byte == b'm' || byte == b'g'
}

// Returns the reason why a token is no address.
fn why_address(word: &[u8]) -> LineReason
    ensures { result ≡ (if is_long_address word.now then LongAddress else NoAddress) }
{
    if word.starts_with(b"0x") && word.len() > 18 {
        LineReason::LongAddress
    } else {
        LineReason::NoAddress
    }
}

// Returns whether a token is the hexadecimal digits of one byte or more.
fn is_hex(word: &[u8]) -> bool
    ensures { result ≡ is_some (some_bytes_of_hex word.now) }
{
    read_hex(word).is_some()
}
