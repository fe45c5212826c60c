//! The digits of a number, written in place.
ghost use Rattle.std.specs.Prelude.{◌≡◌, ◌+◌, ◌≤◌, ◌++◌, length, take, drop, decimal, false};
ghost use Rattle.std.specs.Fmt.{digits};

use itoa::write_digits;

/// The maximum number of hexadecimal digits of a 64-bit number.
pub const MOST_HEX_DIGITS: usize = 16;

/// Writes a number in decimal digits over a text from a place on, and returns the place after the last digit.
#[inline]
pub fn write_number(number: u64, text: &mut [u8], at: usize) -> usize
    requires { at + length (decimal number) ≤ length text.old }
    ensures end { result ≡ at + length (decimal number) }
    ensures written { take result text.new ≡ take at text.old ++ decimal number }
{
    // Most printed numbers have one digit or five; these need no division.
    if number < 10 {
        text[at] = b'0' + number as u8;
        return at + 1;
    }
    let end = at + digit_count(number);
    write_digits(number, text, end);
    end
}

/// Returns the number of decimal digits of a number. Each step of the loop counts four digits.
#[inline]
fn digit_count(number: u64) -> usize
    ensures { result ≡ length (decimal number) }
{
    if 10_000 <= number && number < 100_000 {
        return 5;
    }
    let mut left = number;
    let mut count = 0;
    while left >= 10_000 {
        left /= 10_000;
        count += 4;
    }
    if left < 10 {
        count + 1
    } else if left < 100 {
        count + 2
    } else if left < 1_000 {
        count + 3
    } else {
        count + 4
    }
}

/// Writes the hexadecimal digits of a number at the end of a text, and returns the place of the first digit. It writes
/// all 16 digits; the returned place skips the leading zeros, but not the last digit.
pub fn write_hex(number: u64, text: &mut [u8; MOST_HEX_DIGITS]) -> usize
    ensures start { result ≤ MOST_HEX_DIGITS }
    ensures written { drop result text.new ≡ digits 16 false number }
{
    let _ = hex::encode_to_slice(number.to_be_bytes(), text);
    let zeros = number.leading_zeros() as usize / 4;
    zeros.min(MOST_HEX_DIGITS - 1)
}
