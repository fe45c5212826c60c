//! The index of paths in a list: the search for a path begins at the first entry that has one of its kind.
ghost use Rattle.std.specs.Prelude.{◌≡◌, ◌+◌, ◌<◌, ◌≤◌, length};
ghost use Rattle.std.specs.List.{position};
ghost use Rattle.std.specs.Str.{bytes_eq};
ghost use Rattle.list_parser.specs.PathIndex.{AreFirst, four_at, kind_of, parts_of};

use crate::entry::ListEntry;

/// The number of kinds of paths.
const KINDS: usize = 1024;

/// A number above any place of an entry.
const NOWHERE: u8 = 32;

/// An index of paths: for each kind, the place of the first entry that has a path of the kind.
#[derive(Drop)]
pub(crate) struct PathIndex {
    pub(crate) firsts: [u8; KINDS],
}

impl PathIndex {
    /// Builds the index of the paths of these entries.
    pub(crate) fn of(entries: &[ListEntry]) -> PathIndex
        requires { length entries.now ≤ 32 }
        ensures { AreFirst result.firsts entries.now }
    {
        let mut firsts = [NOWHERE; KINDS];
        for place in 0..entries.len() {
            let kind = kind_of(entries[place].path());
            firsts[kind] = firsts[kind].min(place as u8);
        }
        PathIndex { firsts }
    }

    /// Copies the finder.
    pub(crate) fn copy(&self) -> PathIndex
        ensures { result.firsts ≡ self.now.firsts }
    {
        PathIndex {
            firsts: self.firsts,
        }
    }

    /// The place of the first entry of a path, if there is one.
    pub(crate) fn find(&self, entries: &[ListEntry], path: &[u8]) -> Option<usize>
        requires { AreFirst self.now.firsts entries.now }
        ensures { result ≡ position (λ entry. bytes_eq entry.path path.now) entries.now }
    {
        let first = usize::from(self.firsts[kind_of(path)]);
        for place in first..entries.len() {
            if entries[place].path() == path {
                return Some(place);
            }
        }
        None
    }
}

/// Returns the kind of a path, which few other paths of a list have.
fn kind_of(path: &[u8]) -> usize
    ensures value { result ≡ kind_of path.now }
    ensures small { result < 1024 }
{
    (parts_of(path) * 165_902_235 / 16_777_216 % 1024) as usize
}

/// Combines bytes at the front, in the middle and at the end of a path into one number. For at most 12 bytes it has all of
/// them.
fn parts_of(path: &[u8]) -> u64
    ensures value { result ≡ parts_of path.now }
    ensures small { result < 68719476736 }
{
    let len = path.len();
    if len == 0 {
        0
    } else if len < 4 {
        u64::from(path[0]) + u64::from(path[len / 2]) * 3 + u64::from(path[len - 1]) * 5
    } else {
        four_at(path, 0) + four_at(path, (len - 3) / 2) * 3 + four_at(path, len - 4) * 5
    }
}

/// Reads four bytes of a path from a place on as one number.
fn four_at(path: &[u8], place: usize) -> u64
    requires { place + 4 ≤ length path.now }
    ensures value { result ≡ four_at path.now place }
    ensures small { result < 4294967296 }
{
    u64::from(u32::from_le_bytes([
        path[place],
        path[place + 1],
        path[place + 2],
        path[place + 3],
    ]))
}
