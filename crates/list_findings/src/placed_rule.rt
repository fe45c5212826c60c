//! A rule of a start list at its place.
ghost use Rattle.std.specs.Prelude.{◌≡◌};
ghost use Rattle.list_parts.specs.declared.list_part.PartId.TheVariants as about;

use list_parser::Rule;
use list_parts::{PartId, RuleOwner};

/// A rule at its place in an owner's list, with the rules before it.
#[derive(Clone, Copy)]
pub(crate) struct PlacedRule<'a> {
    /// The number of the init whose list has the targets of the rule; 0 is the machine's list.
    pub(crate) init: usize,
    /// The owner of the list.
    pub(crate) owner: RuleOwner,
    /// The place of the rule, from 0 on.
    pub(crate) place: usize,
    /// The rules before it.
    pub(crate) earlier: &'a [Rule],
    /// The rule.
    pub(crate) rule: &'a Rule,
}

impl PlacedRule<'_> {
    /// Returns the part of a start list that the rule is.
    pub(crate) fn part(&self) -> PartId
        ensures { result ≡ about.Rule self.now.owner self.now.place }
    {
        PartId::Rule(self.owner, self.place)
    }
}
