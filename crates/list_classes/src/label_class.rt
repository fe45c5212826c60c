//! A class of labels.
ghost use Rattle.std.specs.Prelude.{◌≡◌, true};
ghost use Rattle.list_labels.specs.Asked.{is_given};

use list_labels::ClientLabel;

/// A class of labels.
#[derive(Drop)]
pub struct LabelClass {
    // The places of its longest beginning and its longest ending.
    pub(crate) front: usize,
    pub(crate) end: usize,
    // Whether it is one label.
    pub(crate) is_one: bool,
    /// A label of it that can be given, and no label of it is shorter.
    pub witness: ClientLabel,
    pub ghost given: { is_given witness ≡ true },
}
