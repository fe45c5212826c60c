//! What classes of labels are made of.
ghost use Rattle.std.specs.Prelude.{◌≡◌};
ghost use Rattle.list_classes.specs.declared.text_tree.LabelSide.TheVariants.{Front, End};

use crate::text_tree::TextTree;
use list_labels::ClientLabel;

/// What classes are made of: beginnings, endings, and the labels that are classes by themselves.
#[derive(Clone, Copy)]
pub(crate) struct ClassParts<'a> {
    /// The beginnings.
    pub(crate) fronts: &'a TextTree,
    /// The endings.
    pub(crate) ends: &'a TextTree,
    /// The labels.
    pub(crate) known: &'a [ClientLabel],
    ghost front_side: { fronts.now.side ≡ Front },
    ghost end_side: { ends.now.side ≡ End },
}
