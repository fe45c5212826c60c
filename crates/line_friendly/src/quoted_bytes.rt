//! The bytes of a text in quotes.
ghost use Rattle.std.specs.Prelude.{◌≡◌, ◌≤◌, ◌<◌, ◌∷◌, [], true, nat_eq, IfSome, length};
ghost use Rattle.std.specs.List.{starts_with};
ghost use Rattle.std.specs.Str.{bytes_eq};
ghost use Rattle.own_model.specs.Reply.{hex_text};
ghost use Rattle.own_model.specs.Text.{byte_of_hex};
ghost use Rattle.line_friendly.specs.QuotedBytes.{bytes_of, escape_of, fault_of, sign_at, sign_of};
ghost use Rattle.line_friendly.specs.LineText.{added};

use crate::line_buffer::LineBuffer;
use crate::words::behind;
use hex::FromHex;

/// A byte of a text in quotes: its value, and the number of bytes with which it is written.
#[derive(Clone, Copy)]
pub(crate) struct QuotedByte {
    pub byte: u8,
    pub size: usize,
}

/// Appends the bytes that a text in quotes denotes, in hexadecimal digits.
#[tactic(auto, using(crate::proofs::SignLemmas::put_signs))]
pub(crate) fn put_text(line: &mut LineBuffer, text: &[u8])
    ensures { line.new ≡ added line.old (hex_text (bytes_of text.now)) }
{
    let mut at = 0;
    while at < text.len() {
        let sign = sign_at(behind(text, at));
        line.put(&digits_of(sign.byte));
        at += sign.size;
    }
}

/// Returns whether digits are those of the bytes that a text in quotes denotes.
#[tactic(auto, using(crate::proofs::SignLemmas::hex_signs))]
pub(crate) fn is_hex_of(digits: &[u8], text: &[u8]) -> bool
    ensures { result ≡ bytes_eq digits.now (hex_text (bytes_of text.now)) }
{
    let mut at = 0;
    let mut left = digits;
    while at < text.len() {
        let sign = sign_at(behind(text, at));
        if !begins_with_hex(left, sign.byte) {
            return false;
        }
        left = behind(left, 2);
        at += sign.size;
    }
    left.is_empty()
}

// Returns whether digits begin with the two of a byte.
fn begins_with_hex(digits: &[u8], byte: u8) -> bool
    ensures value { result ≡ starts_with nat_eq digits.now (hex_text (byte ∷ [])) }
    ensures some { result ≡ true → 2 ≤ length digits.now }
{
    digits.starts_with(&digits_of(byte))
}

// Returns the two hexadecimal digits of a byte.
fn digits_of(byte: u8) -> [u8; 2]
    ensures { result ≡ hex_text (byte ∷ []) }
{
    let mut digits = [0; 2];
    let _ = hex::encode_to_slice([byte], &mut digits);
    digits
}

/// Returns the place of the first invalid escape in a text in quotes, if there is one.
#[tactic(auto, using(crate::proofs::SignLemmas::fault_signs))]
pub(crate) fn fault_of(text: &[u8]) -> Option<usize>
    ensures place { result ≡ fault_of text.now }
    ensures inside { IfSome result (λ place. place < length text.now) }
{
    let mut at = 0;
    while at < text.len() {
        match sign_of(behind(text, at)) {
            Some(sign) => at += sign.size,
            None => return Some(at),
        }
    }
    None
}

// Returns the byte with which a text begins, or a byte that doesn't count if its escape is invalid.
fn sign_at(text: &[u8]) -> QuotedByte
    requires { 0 < length text.now }
    ensures value { result ≡ sign_at text.now }
    ensures some { 1 ≤ result.size }
    ensures fits { result.size ≤ length text.now }
{
    match sign_of(text) {
        Some(sign) => sign,
        None => QuotedByte { byte: 0, size: 1 },
    }
}

// Returns the byte with which a text begins, or nothing if its escape is invalid.
fn sign_of(text: &[u8]) -> Option<QuotedByte>
    requires { 0 < length text.now }
    ensures value { result ≡ sign_of text.now }
    ensures some { IfSome result (λ sign. 1 ≤ sign.size) }
    ensures fits { IfSome result (λ sign. sign.size ≤ length text.now) }
{
    if text[0] != b'\\' {
        return Some(QuotedByte {
            byte: text[0],
            size: 1,
        });
    }
    match text.get(1) {
        Some(escape) => escape_of(*escape, text),
        None => None,
    }
}

// Returns the escape with which a text begins, by the byte after the backslash.
fn escape_of(escape: u8, text: &[u8]) -> Option<QuotedByte>
    requires { 2 ≤ length text.now }
    ensures value { result ≡ escape_of escape text.now }
    ensures some { IfSome result (λ sign. 1 ≤ sign.size) }
    ensures fits { IfSome result (λ sign. sign.size ≤ length text.now) }
{
    match escape {
        b'n' => Some(QuotedByte {
            byte: b'\n',
            size: 2,
        }),
        b't' => Some(QuotedByte {
            byte: b'\t',
            size: 2,
        }),
        b'"' | b'\\' => Some(QuotedByte {
            byte: escape,
            size: 2,
        }),
        b'x' => hex_escape(text),
        _ => None,
    }
}

// Returns the escape of two hexadecimal digits after a backslash and another byte.
fn hex_escape(text: &[u8]) -> Option<QuotedByte>
    ensures value { result ≡ escape_of 120 text.now }
    ensures some { IfSome result (λ sign. 1 ≤ sign.size) }
    ensures fits { IfSome result (λ sign. sign.size ≤ length text.now) }
{
    let (Some(high), Some(low)) = (text.get(2), text.get(3)) else {
        return None;
    };
    match byte_of_pair(*high, *low) {
        Some(byte) => Some(QuotedByte { byte, size: 4 }),
        None => None,
    }
}

// Returns the byte of two hexadecimal digits, of either case.
#[tactic(auto, using(crate::proofs::SignLemmas::bytes_read))]
fn byte_of_pair(high: u8, low: u8) -> Option<u8>
    ensures { result ≡ byte_of_hex high low }
{
    match <[u8; 1]>::from_hex([high, low]) {
        Ok(bytes) => Some(bytes[0]),
        Err(_) => None,
    }
}
