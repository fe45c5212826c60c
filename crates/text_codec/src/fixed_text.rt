//! Text in a buffer of fixed capacity.
ghost use Rattle.std.specs.Prelude.{◌≡◌, ◌+◌, ◌≤◌, ◌++◌, length};
ghost use Rattle.arrayvec.specs.ArrayVec.{array_vec_len};

use arrayvec::ArrayVec;
use itoa::{Buffer, Integer};

/// Appends a number in decimal digits to a text with enough capacity.
pub fn add_number<I: Integer, const N: usize>(text: &mut ArrayVec<u8, N>, number: I)
    requires { array_vec_len text.old + I.MAX_STR_LEN ≤ N }
    ensures items { text.new.items ≡ text.old.items ++ I.text number }
    ensures len { array_vec_len text.new ≤ array_vec_len text.old + I.MAX_STR_LEN }
{
    let mut digits = Buffer::new();
    add(text, digits.format(number).as_bytes());
}

/// Appends bytes to a text with enough capacity for them.
pub fn add<const N: usize>(text: &mut ArrayVec<u8, N>, more: &[u8])
    requires { array_vec_len text.old + length more.now ≤ N }
    ensures items { text.new.items ≡ text.old.items ++ more.now }
    ensures len { array_vec_len text.new ≡ array_vec_len text.old + length more.now }
{
    let _ = text.try_extend_from_slice(more);
}
