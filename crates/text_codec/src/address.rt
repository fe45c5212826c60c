//! Parsing of addresses.
ghost use Rattle.std.specs.Prelude.{◌≡◌, ◌≤◌, length};
ghost use Rattle.own_model.specs.Text.{address_of, hex_number_after};

use crate::hex_text::hex_digit;

/// The maximum number of hexadecimal digits of an address, that of 64 bits.
const MOST_DIGITS: usize = 16;

/// Returns the address that `0x` followed by 1 to 16 hexadecimal digits of either case denotes, or `None` if the text has
/// another form.
pub fn read_address(text: &[u8]) -> Option<u64>
    ensures { result ≡ address_of text.now }
{
    let digits = text.strip_prefix(b"0x")?;
    if digits.is_empty() || digits.len() > MOST_DIGITS {
        None
    } else {
        read_digits(digits)
    }
}

/// Returns the number that at most 16 hexadecimal digits denote, or `None` if another byte is among them.
#[tactic(auto, using(crate::proofs::AddressLemmas::hex_digits))]
fn read_digits(digits: &[u8]) -> Option<u64>
    requires { length digits.now ≤ 16 }
    ensures { result ≡ hex_number_after 0 digits.now }
{
    let mut number: u64 = 0;
    for digit in digits {
        number = number * 16 + u64::from(hex_digit(*digit)?);
    }
    Some(number)
}
