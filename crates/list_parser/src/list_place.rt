//! The place of a list of entries.
ghost use Rattle.std.specs.Prelude.{◌≡◌, ◌<◌};
ghost use Rattle.list_parser.specs.Entries.{outermost, place_within};

use crate::entry::ListEntry;
use crate::name::{Label, Path};
use std::marker::Model;

/// The place of an init's list: the init's number, path and label. The path and the label of the machine's list are empty.
#[derive(Drop)]
pub(crate) struct ListPlace {
    pub(crate) init: u8,
    pub(crate) path: Path,
    pub(crate) label: Label,
}

impl Model for ListPlace {
    ghost use Rattle.list_parser.specs.Entries.{ListPlace as Stands};

    ghost Value = { Stands };

    ghost view = { λ place. record {
      init = place.init;
      path = place.path;
      label = place.label;
    } };
}

impl ListPlace {
    /// Returns the place of the machine's list, with empty names.
    pub(crate) fn outermost() -> ListPlace
        ensures { result ≡ outermost }
    {
        ListPlace {
            init: 0,
            path: Path::outermost(),
            label: Label::outermost(),
        }
    }

    /// Returns the place of the list of an entry, given by the entry's number.
    pub(crate) fn within(number: usize, entry: &ListEntry) -> ListPlace
        requires { number < 32 }
        ensures { result ≡ place_within number entry.now }
    {
        ListPlace {
            init: number as u8 + 1,
            path: entry.to_path(),
            label: entry.to_label(),
        }
    }
}
