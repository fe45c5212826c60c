//! The pieces of a text between its newlines.
ghost use Rattle.std.specs.Prelude.{◌≡◌, ◌<◌, ◌∷◌, length, IfSome};
ghost use Rattle.std.specs.Option.{option_copied};
ghost use Rattle.run_record.specs.Recorded.{pieces_of};
ghost use Rattle.run_record.specs.Pieces.{pieces_in};

use text_codec::find_byte;

/// Returns a text up to its first newline, and the text after the newline, if there is one.
#[tactic(auto, using(crate::proofs::PieceLemmas::cuts))]
pub fn first_piece(text: &[u8]) -> (&[u8], Option<&[u8]>)
    ensures pieces { pieces_of text.now ≡ result.0.now ∷ pieces_in (option_copied result.1) }
    ensures less { IfSome result.1 (λ rest. length rest.now < length text.now) }
{
    match find_byte(b'\n', text) {
        Some(end) => (&text[..end], Some(&text[end + 1..])),
        None => (text, None),
    }
}
