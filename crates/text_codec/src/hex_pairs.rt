//! Conversion between bytes and pairs of hexadecimal digits.
ghost use Rattle.std.specs.Prelude.{◌≡◌, ◌+◌, ◌*◌, ◌/◌, ◌%◌, ◌<◌, ◌≤◌, ℕ, length, take, drop, Ok, IsOk, IsSome, [], ◌∷◌};
ghost use Rattle.std.specs.Result.{ForOk};
ghost use Rattle.hex.specs.Hex.{decode_of, encode_lower, hex_digit_value, pair_value};
ghost use Rattle.text_codec.specs.Digits.{bits_value, bits_digit};

/// Decodes a text of hexadecimal digits of either case into bytes, two digits for each byte.
pub fn decode_hex(hex: &[u8], bytes: &mut [u8])
    requires hex { IsOk (decode_of hex.now) }
    requires len { length bytes.old ≡ length hex.now / 2 }
    ensures { decode_of hex.now ≡ Ok bytes.new }
{
    for i in 0..bytes.len() {
        bytes[i] = byte_of_pair(hex[2 * i], hex[2 * i + 1]);
    }
}

/// Decodes a part of a text of hexadecimal digits: the bytes from index `start` on that fill `bytes`.
pub fn decode_hex_from(hex: &[u8], start: usize, bytes: &mut [u8])
    requires hex { IsOk (decode_of hex.now) }
    requires range { start + length bytes.old ≤ length hex.now / 2 }
    ensures { ForOk (decode_of hex.now)
        (λ all. bytes.new ≡ take (length bytes.old) (drop start all)) }
{
    let end = start + bytes.len();
    decode_hex(&hex[2 * start..2 * end], bytes);
}

/// Encodes bytes as hexadecimal digits in lower case, two digits for each byte.
pub fn encode_hex(bytes: &[u8], hex: &mut [u8])
    requires { length hex.old ≡ 2 * length bytes.now }
    ensures { hex.new ≡ encode_lower bytes.now }
{
    for i in 0..bytes.len() {
        let [high, low] = pair_of_byte(bytes[i]);
        hex[2 * i] = high;
        hex[2 * i + 1] = low;
    }
}

/// Returns the byte that two digits denote. It computes both digits at once, in the halves of a word and without a
/// branch, so that the compiler vectorizes the loop over pairs.
#[inline]
fn byte_of_pair(high: u8, low: u8) -> u8
    requires high { IsSome (hex_digit_value high) }
    requires low { IsSome (hex_digit_value low) }
    ensures { (i : ℕ) → pair_value high low i ≡ Ok result }
{
    packed(values(u16::from_le_bytes([high, low])))
}

/// Returns the values of two digits, each in its half of the word.
#[inline]
fn values(digits: u16) -> u16
    ensures { result ≡ bits_value (digits / 256) * 256 + bits_value (digits % 256) }
{
    let letters = (digits & 0x4040) >> 6;
    (digits & 0x0f0f) + 9 * letters
}

/// Returns the byte of two values below 16. The lower half of the word has the first value.
#[inline]
fn packed(values: u16) -> u8
    requires high { values % 256 < 16 }
    requires low { values / 256 < 16 }
    ensures { result ≡ values % 256 * 16 + values / 256 }
{
    (values.wrapping_mul(0x1001) >> 8) as u8
}

/// Returns the two hexadecimal digits of a byte.
#[inline]
fn pair_of_byte(byte: u8) -> [u8; 2]
    ensures { result ≡ bits_digit (byte / 16) ∷ bits_digit (byte % 16) ∷ [] }
{
    digits(spread(byte)).to_le_bytes()
}

/// Returns the two halves of a byte, each in one half of the word, with the first in the lower half.
#[inline]
fn spread(byte: u8) -> u16
    ensures { result ≡ byte % 16 * 256 + byte / 16 }
{
    ((u16::from(byte) & 15) << 8) + (u16::from(byte) >> 4)
}

/// Returns the digits of two values below 16, each in its half of the word.
#[inline]
fn digits(values: u16) -> u16
    requires high { values % 256 < 16 }
    requires low { values / 256 < 16 }
    ensures { result ≡ bits_digit (values / 256) * 256 + bits_digit (values % 256) }
{
    let letters = ((values + 0x0606) & 0x1010) >> 4;
    values + 0x3030 + 39 * letters
}
