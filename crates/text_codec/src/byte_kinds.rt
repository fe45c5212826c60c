//! The bytes that may be in each kind of text.
ghost use Rattle.std.specs.Prelude.{◌≡◌};
ghost use Rattle.own_model.specs.Text.{is_name_byte};
ghost use Rattle.own_model.specs.SessionArgs.{is_key_byte, is_quotable};

const NAME: u8 = 1;

const KEY: u8 = 2;

const QUOTED: u8 = 4;

// For each byte a digit, whose low three bits are the flags above. One table lookup replaces up to six comparisons.
static KINDS: [u8; 256] = *b"\
    00000000000000000000000000000000\
    44044444444445547777777777444444\
    47777777777777777777777777740447\
    47777777777777777777777777744440\
    00000000000000000000000000000000\
    00000000000000000000000000000000\
    00000000000000000000000000000000\
    00000000000000000000000000000000";

/// Returns whether a byte may be in a name: a letter, a digit, `_`, `-` or `.`.
#[inline]
pub fn is_name_byte(byte: u8) -> bool
    ensures { result ≡ is_name_byte byte }
{
    KINDS[byte as usize] & NAME != 0
}

/// Returns whether a byte may be in a key: a letter, a digit or `_`.
#[inline]
pub fn is_key_byte(byte: u8) -> bool
    ensures { result ≡ is_key_byte byte }
{
    KINDS[byte as usize] & KEY != 0
}

/// Returns whether a byte may be between quotes: printable, and neither a quote nor a backslash.
#[inline]
pub fn is_quotable(byte: u8) -> bool
    ensures { result ≡ is_quotable byte }
{
    KINDS[byte as usize] & QUOTED != 0
}
