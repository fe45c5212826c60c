//! Names that a command line gives a value and that no text reads.
ghost use Rattle.std.specs.Prelude.{◌≡◌, All, false, map, true, IfSome};
ghost use Rattle.cli_base.specs.Given.{has_name_first, has_use_first, has_use, HasUnread, LacksName};

use crate::files::read_bounded;
use crate::host::{FileKind, Host, STANDARD_INPUT};
use crate::paths::{is_policy, is_scenario, machine_path};
use crate::settings::name_given;
use line_friendly::skip_blanks;
use text_codec::skip_bytes;

/// Returns the first of these arguments of `--set` whose name no text reads: none of the files of these paths, nor a start list next to
/// a scenario or a policy among them. A file that isn't regular or isn't read whole may read any name.
pub fn unread_argument<'a, H: Host>(
    host: &H,
    arguments: &[&'a str],
    paths: &[&str],
) -> Option<&'a str>
    ensures { IfSome result (λ _.
        HasUnread (H.text_at host.now) (map (λ path. path.now) paths.now) arguments.now) }
{
    for argument in arguments {
        if is_read_nowhere(host, paths, name_given(argument)) {
            return Some(argument);
        }
    }
    None
}

// Returns whether no file of these paths may read a name.
fn is_read_nowhere<H: Host>(host: &H, paths: &[&str], name: &[u8]) -> bool
    ensures { result ≡ true
        → All (λ path. LacksName (H.text_at host.now) name.now path.now) paths.now }
{
    for path in paths {
        if may_read(host, path, name) {
            return false;
        }
    }
    true
}

// Returns whether the file of a path, or the start list next to a scenario or a policy, may read a name.
fn may_read<H: Host>(host: &H, path: &str, name: &[u8]) -> bool
    ensures { result ≡ false → LacksName (H.text_at host.now) name.now path.now }
{
    if may_have(host, path, name) {
        return true;
    }
    if !(is_scenario(path) || is_policy(path)) {
        return false;
    }
    match machine_path(host.rt().alloc(), path) {
        Ok(list) => match host.exists(list.as_str()) {
            Ok(false) => false,
            _ => may_have(host, list.as_str(), name),
        },
        Err(_) => true,
    }
}

// Returns whether the file of a path may read a name.
#[tactic(auto, using(crate::proofs::UnreadLemmas::lacks_by))]
fn may_have<H: Host>(host: &H, path: &str, name: &[u8]) -> bool
    ensures { result ≡ false → LacksName (H.text_at host.now) name.now path.now }
{
    match host.kind_at(path) {
        Ok(FileKind::Regular) if path != STANDARD_INPUT => match read_bounded(host, path) {
            Ok(Some(text)) => reads_name(&text, name),
            _ => true,
        },
        _ => true,
    }
}

// Returns whether a text reads a name.
#[tactic(auto, using(crate::proofs::UnreadLemmas::name_passed, crate::proofs::UnreadLemmas::name_found, crate::proofs::UnreadLemmas::name_none))]
fn reads_name(text: &[u8], name: &[u8]) -> bool
    ensures { result ≡ has_use name.now text.now }
{
    for at in 0..text.len() {
        if begins_use(skip_bytes(text, at), name) {
            return true;
        }
    }
    false
}

// Returns whether a text begins with `$NAME`, `${NAME` or `@set NAME`.
fn begins_use(text: &[u8], name: &[u8]) -> bool
    ensures { result ≡ has_use_first name.now text.now }
{
    text.starts_with(b"$") && begins_named(skip_bytes(text, 1), name)
        || text.starts_with(b"${") && begins_named(skip_bytes(text, 2), name)
        || text.starts_with(b"@set") && begins_named(skip_blanks(skip_bytes(text, 4)), name)
}

// Returns whether a text begins with a name that ends there.
fn begins_named(text: &[u8], name: &[u8]) -> bool
    ensures { result ≡ has_name_first name.now text.now }
{
    text.starts_with(name)
        && match text.get(name.len()) {
            Some(byte) => !(byte.is_ascii_alphanumeric() || *byte == b'_'),
            None => true,
        }
}
