//! Pieces of lines: components by their paths, and rules by their places.
ghost use Rattle.std.specs.Prelude.{◌≡◌, Some};
ghost use Rattle.list_reach.specs.RuleTexts.{entry_rule_text, rule_text};

use list_parser::{ListEntry, StartList};
use std::fmt;

/// The path of a component of a start list, by the component's number.
#[derive(Clone, Copy)]
pub(crate) struct PathText<'a> {
    list: &'a StartList,
    number: usize,
}

impl<'a> PathText<'a> {
    /// Returns the text of the path of the component of a number.
    pub(crate) fn of(list: &'a StartList, number: usize) -> PathText<'a> {
        PathText { list, number }
    }
}

impl fmt::Display for PathText<'_> {
    fn fmt<W: fmt::Write>(&self, f: &mut fmt::Formatter<W>) -> fmt::Result {
        match self.list.entries().get(self.number) {
            Some(entry) => f.write_str(entry.to_path().as_str()),
            None => Ok(()),
        }
    }
}

/// The text of a rule for an entry by its place, or `no rule`.
#[derive(Clone, Copy)]
pub(crate) struct RuleText<'a> {
    entry: &'a ListEntry,
    place: Option<usize>,
}

impl<'a> RuleText<'a> {
    /// Returns the text of the rule for an entry at a place.
    pub(crate) fn of(entry: &'a ListEntry, place: Option<usize>) -> RuleText<'a>
        ensures entry { result.entry.now ≡ entry.now }
        ensures place { result.place ≡ place }
    {
        RuleText { entry, place }
    }
}

impl fmt::Display for RuleText<'_> {
    ghost output = { λ text. Some (rule_text text.entry.now text.place) };

    fn fmt<W: fmt::Write>(&self, f: &mut fmt::Formatter<W>) -> fmt::Result {
        match self.place {
            Some(place) => write!(f, "{}[{place}]", self.entry.route_name()),
            None => f.write_str("no rule"),
        }
    }
}

/// The text of a rule with the path of the entry that it is for.
#[derive(Clone, Copy)]
pub(crate) struct EntryRuleText<'a> {
    rule: RuleText<'a>,
}

impl<'a> EntryRuleText<'a> {
    /// Returns the text of the rule for an entry at a place.
    pub(crate) fn of(entry: &'a ListEntry, place: Option<usize>) -> EntryRuleText<'a>
        ensures entry { result.rule.entry.now ≡ entry.now }
        ensures place { result.rule.place ≡ place }
    {
        EntryRuleText {
            rule: RuleText::of(entry, place),
        }
    }
}

impl fmt::Display for EntryRuleText<'_> {
    ghost output = { λ text. Some (entry_rule_text text.rule.entry.now text.rule.place) };

    fn fmt<W: fmt::Write>(&self, f: &mut fmt::Formatter<W>) -> fmt::Result {
        let path = self.rule.entry.to_path();
        write!(f, "{} for {}", self.rule, path.as_str())
    }
}
