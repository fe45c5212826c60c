//! Optional hexadecimal digits.
ghost use Rattle.std.specs.Prelude.{◌≡◌, IfSome, IsSome};
ghost use Rattle.std.specs.Option.{option_copied, option_map};
ghost use Rattle.own_model.specs.Text.{bytes_of_hex, hex_bytes};
ghost use Rattle.own_model.specs.LogText.{hex_or_nothing};

use text_codec::read_hex;

/// Returns the hexadecimal digits of a text, or no digits if there is no text. Returns `None` if the text is not the
/// digits of one or more bytes.
pub(crate) fn hex_or_nothing(text: Option<&[u8]>) -> Option<&[u8]>
    ensures bytes { option_map hex_bytes (option_copied result)
        ≡ hex_or_nothing (option_copied text.entry) }
    ensures hex { IfSome result (λ hex. IsSome (bytes_of_hex hex.now)) }
{
    match text {
        Some(hex) => read_hex(hex),
        None => Some(&[]),
    }
}
