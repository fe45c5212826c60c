//! The path that may have been meant by an unknown path.
ghost use Rattle.std.specs.Prelude.{◌≡◌, ◌≤◌, IfOk, find};
ghost use Rattle.list_reach.specs.Paths.{paths_of};
ghost use Rattle.text_near_words.specs.Near.{is_away, nearest};

use crate::component_numbers::{ComponentKind, is_sought};
use list_parser::{ListEntry, Path};
use std::alloc::{AllocError, Global};
use text_near_words::is_away;

/// Returns the path that may have been meant by an unknown one, among the components of a kind. It is the first path that is one
/// edit away, or else two edits. Fails if the host is out of memory.
pub(crate) fn near_path(
    alloc: Global,
    entries: &[ListEntry],
    written: &str,
    sought: ComponentKind,
) -> Result<Option<Path>, AllocError>
    ensures { IfOk result (λ near. near ≡ nearest (paths_of sought entries.now) written.now) }
{
    match path_away(alloc, entries, written, sought, 1)? {
        Some(found) => Ok(Some(found)),
        None => path_away(alloc, entries, written, sought, 2),
    }
}

// The first path that is so many edits away.
fn path_away(
    alloc: Global,
    entries: &[ListEntry],
    written: &str,
    sought: ComponentKind,
    edits: usize,
) -> Result<Option<Path>, AllocError>
    requires { edits ≤ 2 }
    ensures { IfOk result (λ path. path ≡ find (is_away edits written.now) (paths_of sought entries.now)) }
{
    for entry in entries {
        let path = entry.to_path();
        if is_sought(entry, sought) && is_away(alloc, edits, written, path.as_str())? {
            return Ok(Some(path));
        }
    }
    Ok(None)
}
