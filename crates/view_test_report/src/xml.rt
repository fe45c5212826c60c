//! Texts within XML.
ghost use Rattle.std.specs.Prelude.{◌≡◌, ◌++◌, [], ◌∷◌, OnOk};
ghost use Rattle.hex.specs.Hex.{encode_lower};
ghost use Rattle.view_test_report.specs.Xml.{between, escaped, escaped_byte};

use std::alloc::AllocError;

/// Adds a text, escaped for XML, between two texts that are added as they are. The error is out of memory.
#[tactic(auto, unfolding(crate::specs::Xml::between))]
pub(crate) fn add_between(
    text: &mut Vec<u8>,
    before: &[u8],
    bytes: &[u8],
    after: &[u8],
) -> Result<(), AllocError>
    ensures { OnOk result
        (text.new.items ≡ text.old.items ++ between before.now bytes.now after.now) }
{
    text.extend_from_slice(before)?;
    add_escaped(text, bytes)?;
    text.extend_from_slice(after)
}

// Adds a text, escaped for XML between tags and within quotes. A character with a meaning is written by its name, and a newline
// by its number. A byte that isn't printed is written in hexadecimal digits.
fn add_escaped(text: &mut Vec<u8>, bytes: &[u8]) -> Result<(), AllocError>
    ensures { OnOk result (text.new.items ≡ text.old.items ++ escaped bytes.now) }
{
    for byte in bytes {
        add_byte(text, *byte)?;
    }
    Ok(())
}

// Adds a byte, escaped as `add_escaped` does.
fn add_byte(text: &mut Vec<u8>, byte: u8) -> Result<(), AllocError>
    ensures { OnOk result (text.new.items ≡ text.old.items ++ escaped_byte byte) }
{
    match byte {
        b'&' => text.extend_from_slice(b"&amp;"),
        b'<' => text.extend_from_slice(b"&lt;"),
        b'>' => text.extend_from_slice(b"&gt;"),
        b'"' => text.extend_from_slice(b"&quot;"),
        b'\n' => text.extend_from_slice(b"&#10;"),
        b' '..=b'~' => text.extend_from_slice(&[byte]),
        _ => add_digits(text, byte),
    }
}

/// Adds a byte in hexadecimal digits. The error is out of memory.
pub(crate) fn add_digits(text: &mut Vec<u8>, byte: u8) -> Result<(), AllocError>
    ensures { OnOk result (text.new.items ≡ text.old.items ++ 92 ∷ 120 ∷ encode_lower (byte ∷ [])) }
{
    let mut escape = *b"\\x00";
    let _ = hex::encode_to_slice([byte], &mut escape[2..]);
    text.extend_from_slice(&escape)
}
