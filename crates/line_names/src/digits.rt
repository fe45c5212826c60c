//! Numbers as replies print them.
ghost use Rattle.std.specs.Prelude.{◌≡◌, decimal};
ghost use Rattle.own_model.specs.Reply.{address_text};

use arrayvec::ArrayVec;
use itoa::Buffer;
use text_codec::{MOST_HEX_DIGITS, write_hex};

/// The most digits of a number of 64 bits in decimal. An address has fewer characters.
pub(crate) const LONGEST_NUMBER: usize = 20;

/// The digits of a number.
pub(crate) type Digits = ArrayVec<u8, LONGEST_NUMBER>;

/// Returns a number in decimal digits, at most 20 of them.
pub(crate) fn decimal(number: u64) -> Digits
    ensures { result.items ≡ decimal number }
{
    let mut digits = ArrayVec::new();
    let _ = digits.try_extend_from_slice(Buffer::new().format(number).as_bytes());
    digits
}

/// Returns an address in hexadecimal digits, as replies print it.
pub(crate) fn address(number: u64) -> Digits
    ensures { result.items ≡ address_text number }
{
    let mut room = [0; MOST_HEX_DIGITS];
    let start = write_hex(number, &mut room);
    let mut digits = ArrayVec::new();
    let _ = digits.try_extend_from_slice(b"0x");
    let _ = digits.try_extend_from_slice(&room[start..]);
    digits
}
