//! Lines and replies whose bytes have no meaning in the friendly form.
ghost use Rattle.std.specs.Prelude.{◌≡◌, ◌+◌, length, nat_le};
ghost use Rattle.own_model.specs.Transcript.{longest_line};
ghost use Rattle.run_record.specs.Bare.{is_bare, is_bare_byte, is_bare_line};

use line_grammar::LONGEST_LINE;

/// Returns whether a line with an expected reply isn't too long.
pub(crate) fn fits(line: &[u8], reply: &[u8]) -> bool
    ensures { result ≡ nat_le (length line.now + 4 + length reply.now) longest_line }
{
    let arrow = b" => ".len();
    line.len() <= LONGEST_LINE
        && reply.len() <= LONGEST_LINE
        && line.len() + arrow + reply.len() <= LONGEST_LINE
}

/// Returns whether a line is bare, and begins with its first token.
pub(crate) fn is_bare_line(line: &[u8]) -> bool
    ensures { result ≡ is_bare_line line.now }
{
    match line.first() {
        Some(byte) => *byte > b'$' && is_bare(line),
        None => false,
    }
}

/// Returns whether all bytes of a text are bare.
pub(crate) fn is_bare(text: &[u8]) -> bool
    ensures { result ≡ is_bare text.now }
{
    text.iter().all(|byte| is_bare_byte(*byte))
}

// Returns whether a byte has no meaning in the friendly form.
fn is_bare_byte(byte: u8) -> bool
    ensures { result ≡ is_bare_byte byte }
{
    byte == b' ' || (byte > b'$' && byte < 128 && !(byte == b'=' || byte == b'@'))
}
