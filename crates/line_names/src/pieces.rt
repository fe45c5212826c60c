//! The piece at the front of a text: a name, or a text that denotes itself.
ghost use Rattle.std.specs.Prelude.{◌≡◌, ◌+◌, ◌<◌, ◌≤◌, ◌^◌, codes, drop, false, length, position, slice_index, IfSome, IfOk, Result, Ok, Err};
ghost use Rattle.std.specs.Option.{option_copied};
ghost use Rattle.line_names.specs.Filling.{is_dollar, kept_length, named_piece, piece_by, piece_of, plain};
ghost use Rattle.line_names.specs.NameTable.{value_of};
ghost use Rattle.line_names.specs.Names.{sign_length};
ghost use Rattle.line_names.specs.Views.{piece_seen, piece_view, sign_view, text_view};

use crate::digits::Digits;
use crate::fault::NameReason;
use crate::name_table::NameTable;
use crate::names::{DollarToken, sign_of};
use crate::sums::{begins_sum, value_with};
use text_codec::find_byte;

/// The result of a piece.
#[derive(Drop)]
pub(crate) enum PieceText<'a> {
    /// Bytes that are stored already.
    Slice(&'a [u8]),
    /// The digits of a sum.
    Digits(Digits),
}

impl PieceText<'_> {
    /// Returns the bytes of the result, whichever form it has.
    pub(crate) fn bytes(&self) -> &[u8]
        ensures { result.now ≡ text_view self.now }
    {
        match self {
            PieceText::Slice(bytes) => bytes,
            PieceText::Digits(digits) => digits.as_slice(),
        }
    }
}

/// The piece at the front of a text: its result, its number of bytes, and its name, if the reply binds that.
#[derive(Drop)]
pub(crate) struct Piece<'a, 'k> {
    pub text: PieceText<'k>,
    pub size: usize,
    pub hole: Option<&'a [u8]>,
}

/// Returns the piece at the front of a text. The error is the fault of a name.
pub(crate) fn piece_of<'a: 'k, 'k>(
    text: &'a [u8],
    known: &'k NameTable,
) -> Result<Piece<'a, 'k>, NameReason>
    requires { 0 < length text.now }
    ensures value { piece_seen result ≡ piece_of known.now text.now }
    ensures some { IfOk result (λ piece. 1 ≤ piece.size) }
    ensures within { IfOk result (λ piece. piece.size ≤ length text.now) }
    ensures kept { is_dollar (slice_index text.now 0) ≡ false →
        IfOk result (λ piece. length (text_view piece.text) ≤ piece.size) }
{
    if text[0] != b'$' {
        let size = kept_length(text);
        return Ok(plain(&text[..size], size));
    }
    let sign = sign_of(&text[1..]);
    piece_by(sign, text, known)
}

// Returns the piece of a text that begins with a `$`.
fn piece_by<'a, 'k>(
    sign: DollarToken<'a>,
    text: &[u8],
    known: &'k NameTable,
) -> Result<Piece<'a, 'k>, NameReason>
    requires { 1 + sign_length (sign_view sign) ≤ length text.now }
    ensures value { piece_seen result ≡ piece_by known.now text.now (sign_view sign.entry) }
    ensures some { IfOk result (λ piece. 1 ≤ piece.size) }
    ensures within { IfOk result (λ piece. piece.size ≤ length text.now) }
{
    let size = match sign {
        DollarToken::Alone => 1,
        DollarToken::Doubled => 2,
        DollarToken::Named { name, size } => return named_at(name, 1 + size, known, text),
        DollarToken::Broken => return Err(NameReason::OpenBrace),
    };
    dollar(size)
}

// Returns the piece of a `$` that is no fault, of this number of bytes.
fn dollar<'a, 'k>(size: usize) -> Result<Piece<'a, 'k>, NameReason>
    ensures value { piece_seen result ≡ Ok (plain (codes "$") size) }
    ensures size { IfOk result (λ piece. piece.size ≡ size) }
{
    Ok(Piece {
        text: PieceText::Slice(b"$"),
        size,
        hole: None,
    })
}

// Returns the piece of bytes that stay, of this number of bytes.
fn plain<'a, 'k>(bytes: &'k [u8], size: usize) -> Piece<'a, 'k>
    ensures { piece_view result ≡ plain bytes.now size }
{
    Piece {
        text: PieceText::Slice(bytes),
        size,
        hole: None,
    }
}

// Returns the piece of a name at the front of a text, which has this number of bytes.
fn named_at<'a, 'k>(
    name: &'a [u8],
    size: usize,
    known: &'k NameTable,
    text: &[u8],
) -> Result<Piece<'a, 'k>, NameReason>
    requires some { 1 ≤ size }
    requires within { size ≤ length text.now }
    ensures value { piece_seen result
        ≡ named_piece name.now size (value_of known.now name.now) (drop size text.now) }
    ensures some { IfOk result (λ piece. 1 ≤ piece.size) }
    ensures within { IfOk result (λ piece. piece.size ≤ length text.now) }
{
    let rest = &text[size..];
    named_piece(name, size, known, rest)
}

// Returns the piece of a name of this number of bytes, by the text after it.
fn named_piece<'a, 'k>(
    name: &'a [u8],
    size: usize,
    known: &'k NameTable,
    rest: &[u8],
) -> Result<Piece<'a, 'k>, NameReason>
    requires { size + length rest.now < 2 ^ 64 }
    ensures some { 1 ≤ size → IfOk result (λ piece. 1 ≤ piece.size) }
    ensures within { IfOk result (λ piece. piece.size ≤ size + length rest.now) }
    ensures value { piece_seen result ≡ named_piece name.now size (value_of known.now name.now)
        rest.now }
{
    match known.value(name) {
        Some(value) => {
            let (text, sums) = value_with(value, rest)?;
            Ok(Piece {
                text,
                size: size + sums,
                hole: None,
            })
        }
        None => {
            if begins_sum(rest) {
                return Err(NameReason::UnknownName);
            }
            Ok(Piece {
                text: PieceText::Slice(b"*"),
                size,
                hole: Some(name),
            })
        }
    }
}

// Returns the number of bytes before the first `$` of a text.
#[tactic(auto, using(line_friendly::proofs::WordLemmas::places))]
fn kept_length(text: &[u8]) -> usize
    ensures count { result ≡ kept_length text.now }
    ensures within { result ≤ length text.now }
{
    match find_byte(b'$', text) {
        Some(place) => place,
        None => text.len(),
    }
}
