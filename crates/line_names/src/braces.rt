//! Names in braces.
ghost use Rattle.std.specs.Prelude.{◌≡◌, ◌+◌, ◌≤◌, IfSome, drop, length};
ghost use Rattle.std.specs.Option.{option_copied};
ghost use Rattle.line_names.specs.Lists.{name_at, name_behind};

use crate::names::is_name;
use text_codec::find_byte;

/// Returns the name of a `${NAME}` with which a text begins, or none if it doesn't begin so.
pub(crate) fn name_at(text: &[u8]) -> Option<&[u8]>
    ensures value { option_copied result ≡ name_at text.now }
    ensures within { IfSome result (λ name. length name.now + 3 ≤ length text.now) }
{
    if text.starts_with(b"${") {
        name_behind(behind_brace(text))
    } else {
        None
    }
}

// The bytes after the first two bytes of a text.
fn behind_brace(text: &[u8]) -> &[u8]
    requires { 2 ≤ length text.now }
    ensures { result.now ≡ drop 2 text.now }
{
    &text[2..]
}

// The name before the first closing brace of a text.
fn name_behind(text: &[u8]) -> Option<&[u8]>
    ensures value { option_copied result ≡ name_behind text.now }
    ensures within { IfSome result (λ name. length name.now + 1 ≤ length text.now) }
{
    let end = find_byte(b'}', text)?;
    let name = &text[..end];
    if is_name(name) { Some(name) } else { None }
}
