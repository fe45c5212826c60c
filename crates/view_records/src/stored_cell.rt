//! Cells as a list of records keeps them.
ghost use Rattle.std.specs.Prelude.{◌≡◌, false};
ghost use Rattle.serde_json.specs.View.{view};
ghost use Rattle.serde_json.specs.Written.{has_float};

use serde_json::Value;

/// A list of records as a value of JSON. It has no floating-point number.
#[derive(Drop)]
pub(crate) struct NestedList {
    pub(crate) value: Value,
    ghost whole: { has_float (view value) ≡ false },
}

/// A cell with texts of its own.
#[derive(Drop)]
pub(crate) enum StoredCell {
    Absent,
    Null,
    Text(Vec<u8>),
    Number(u64),
    List(NestedList),
}

/// A cell with its name.
pub(crate) type NamedCell = (&'static str, StoredCell);
