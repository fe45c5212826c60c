//! Texts of hexadecimal digits.
ghost use Rattle.std.specs.Prelude.{◌≡◌, ◌==◌, IfSome, IsSome};
ghost use Rattle.std.specs.Option.{option_map, option_copied};
ghost use Rattle.std.specs.List.{list_all};
ghost use Rattle.std.specs.Result.{is_ok};
ghost use Rattle.hex.specs.Hex.{decode_of, hex_digit_value, is_hex_digit};
ghost use Rattle.own_model.specs.Text.{bytes_of_hex, hex_bytes};
ghost use Rattle.own_model.specs.Call.{some_bytes_of_hex};

/// Returns the text unchanged if it is the hexadecimal digits, of either case, of one or more bytes. The number of digits
/// is even, and at least two. Returns `None` otherwise.
#[tactic(auto, using(crate::proofs::HexLemmas::read_bytes))]
pub fn read_hex(text: &[u8]) -> Option<&[u8]>
    ensures bytes { option_map hex_bytes (option_copied result) ≡ some_bytes_of_hex text.now }
    ensures hex { IfSome result (λ hex. IsSome (bytes_of_hex hex.now)) }
{
    if !text.is_empty() && is_hex(text) {
        Some(text)
    } else {
        None
    }
}

/// Returns whether a text is empty or has the hexadecimal digits of bytes.
#[tactic(auto, using(crate::proofs::HexLemmas::even_digits))]
fn is_hex(text: &[u8]) -> bool
    ensures { result ≡ is_ok (decode_of text.now) }
{
    text.len() % 2 == 0 && has_hex_digits(text)
}

/// Returns whether each byte is a hexadecimal digit. It does not stop at the first other byte, so that many bytes are
/// tested at once.
fn has_hex_digits(text: &[u8]) -> bool
    ensures { result ≡ list_all is_hex_digit text.now }
{
    let mut most = 0;
    for byte in text {
        most = excess(*byte).max(most);
    }
    most == 0
}

/// Returns 0 for a hexadecimal digit of either case. For any other byte it returns the distance past the nearer of the
/// last digit and the last letter. It has no branch, so that the compiler vectorizes a loop over bytes.
#[inline]
fn excess(byte: u8) -> u8
    ensures { (result == 0) ≡ is_hex_digit byte }
{
    let past_digits = byte.wrapping_sub(b'0').saturating_sub(9);
    let past_letters = (byte | 0x20).wrapping_sub(b'a').saturating_sub(5);
    past_digits.min(past_letters)
}

// For each byte a character: its low four bits are the value of a hexadecimal digit of either case, and `@` denotes any
// other byte.
static VALUES: [u8; 256] = *b"\
    @@@@@@@@@@@@@@@@@@@@@@@@@@@@@@@@\
    @@@@@@@@@@@@@@@@0123456789@@@@@@\
    @:;<=>?@@@@@@@@@@@@@@@@@@@@@@@@@\
    @:;<=>?@@@@@@@@@@@@@@@@@@@@@@@@@\
    @@@@@@@@@@@@@@@@@@@@@@@@@@@@@@@@\
    @@@@@@@@@@@@@@@@@@@@@@@@@@@@@@@@\
    @@@@@@@@@@@@@@@@@@@@@@@@@@@@@@@@\
    @@@@@@@@@@@@@@@@@@@@@@@@@@@@@@@@";

/// Returns the value of a hexadecimal digit of either case, or `None` for any other byte. One table lookup replaces up to
/// six comparisons.
#[inline]
pub(crate) fn hex_digit(byte: u8) -> Option<u8>
    ensures { result ≡ hex_digit_value byte }
{
    let sign = VALUES[byte as usize];
    if sign == b'@' { None } else { Some(sign & 15) }
}
