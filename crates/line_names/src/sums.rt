//! The sums after a name.
ghost use Rattle.std.specs.Prelude.{◌≡◌, ◌+◌, ◌<◌, ◌≤◌, ◌&&◌, length, not, position, slice_index, take, true, IfSome, IfOk, Result, Ok, Err};
ghost use Rattle.std.specs.Char.{is_ascii_alphanumeric};
ghost use Rattle.std.specs.List.{position_or_len};
ghost use Rattle.line_names.specs.Sums.{begins_sum, count_length, count_of, number_with, sum_of, sums_length, total_from, value_with};
ghost use Rattle.line_names.specs.Views.{total_count, value_seen};

use crate::digits::{address, decimal};
use crate::fault::NameReason;
use crate::pieces::PieceText;
use crate::texts::behind;
use text_codec::read_address;
use trade_base::read_amount;

/// A number with the sums after it, and the number of bytes of the sums.
#[derive(Clone, Copy)]
pub(crate) struct Total {
    pub count: u64,
    pub size: usize,
}

/// Returns whether a text begins with a sum: `+` and a digit.
pub(crate) fn begins_sum(text: &[u8]) -> bool
    ensures value { result ≡ begins_sum text.now }
    ensures some { result ≡ true → 2 ≤ length text.now }
{
    match text {
        [b'+', digit, ..] => digit.is_ascii_digit(),
        _ => false,
    }
}

/// Returns the text of a value with the sums after its name, and the number of bytes of the sums. The error is a value or a
/// summand that is no number, or a sum of more than 64 bits.
#[tactic(auto, using(crate::proofs::SumLemmas::sums))]
pub(crate) fn value_with<'a>(
    value: &'a [u8],
    text: &[u8],
) -> Result<(PieceText<'a>, usize), NameReason>
    ensures text { value_seen result ≡ value_with value.now text.now }
    ensures size { IfOk result (λ made. made.1 ≡ sums_length text.now) }
    ensures within { IfOk result (λ made. made.1 ≤ length text.now) }
{
    if !begins_sum(text) {
        return Ok((PieceText::Slice(value), 0));
    }
    if let Some(count) = read_amount(value) {
        let total = total_of(count, text)?;
        return Ok((PieceText::Digits(decimal(total.count)), total.size));
    }
    let Some(count) = read_address(value) else {
        return Err(NameReason::NoNumber);
    };
    let total = total_of(count, text)?;
    Ok((PieceText::Digits(address(total.count)), total.size))
}

// Returns a number with the sums at the front of a text.
#[tactic(auto, using(crate::proofs::SumLemmas::sums))]
fn total_of(count: u64, text: &[u8]) -> Result<Total, NameReason>
    ensures count { total_count result ≡ total_from 0 count text.now }
    ensures size { IfOk result (λ total. total.size ≡ sums_length text.now) }
    ensures within { IfOk result (λ total. total.size ≤ length text.now) }
{
    let mut total = count;
    let mut at = 0;
    'sums: while begins_sum(behind(text, at)) {
        let rest = behind(text, at + 1);
        let next = next_count(rest);
        match sum_of(total, next.0) {
            Ok(sum) => {
                total = sum;
                at += 1 + next.1;
            }
            Err(reason) => return Err(reason),
        }
    }
    Ok(Total {
        count: total,
        size: at,
    })
}

// Returns the number after a `+`, if it is one, and how many bytes it has.
fn next_count(text: &[u8]) -> (Option<u64>, usize)
    ensures count { result.0 ≡ count_of (take (count_length text.now) text.now) }
    ensures size { result.1 ≡ count_length text.now }
    ensures within { result.1 ≤ length text.now }
{
    let length = count_length(text);
    (count_of(&text[..length]), length)
}

// Returns the total with one more number.
fn sum_of(total: u64, count: Option<u64>) -> Result<u64, NameReason>
    ensures { result ≡ sum_of total count }
{
    let Some(count) = count else {
        return Err(NameReason::NoSum);
    };
    match total.checked_add(count) {
        Some(sum) => Ok(sum),
        None => Err(NameReason::SumTooLarge),
    }
}

// Returns the number that is added: an amount, or an address.
fn count_of(word: &[u8]) -> Option<u64>
    ensures { result ≡ count_of word.now }
{
    match read_amount(word) {
        Some(count) => Some(count),
        None => read_address(word),
    }
}

// Returns the number of letters and digits at the front of a text.
#[tactic(auto, using(line_friendly::proofs::WordLemmas::places))]
fn count_length(text: &[u8]) -> usize
    ensures count { result ≡ count_length text.now }
    ensures within { result ≤ length text.now }
{
    match first_other(text) {
        Some(place) => place,
        None => text.len(),
    }
}

// Returns the place of the first byte of a text that is no letter and no digit.
fn first_other(text: &[u8]) -> Option<usize>
    ensures place { result ≡ position (λ b. not (is_ascii_alphanumeric b)) text.now }
    ensures inside { IfSome result (λ place. place < length text.now) }
{
    text.iter().position(|byte| !byte.is_ascii_alphanumeric())
}
