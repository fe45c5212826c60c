//! The rules of a decision as text, list by list outward, with their conditions on the label.
ghost use Rattle.std.specs.Prelude.{◌≡◌, Some, true};
ghost use Rattle.std.specs.Fmt.{WritesOnOk};
ghost use Rattle.std.specs.List.{slice_get};
ghost use Rattle.std.specs.Option.{option_copied};
ghost use Rattle.list_reach.specs.RuleTexts.{rule_text};
ghost use Rattle.list_tree.specs.DecisionTexts.{condition_text, conditions_text, outward, placed_text, rule_by, rules_text};

use list_parser::{ListEntry, Rule, StartList};
use list_parts::{QuotedText, show_quoted};
use std::fmt;

/// The rules of a decision as text.
#[derive(Clone, Copy)]
pub(crate) struct RulesText<'a> {
    /// The start list.
    pub list: &'a StartList,
    /// The client.
    pub client: &'a ListEntry,
    /// The rules by their places: one of the client's own list, and then one for each init outward.
    pub places: &'a [usize],
}

impl fmt::Display for RulesText<'_> {
    ghost output = { λ rules. Some
        (rules_text true rules.list.now (Some rules.client.now) rules.places.now) };

    fn fmt<W: fmt::Write>(&self, f: &mut fmt::Formatter<W>) -> fmt::Result {
        show_rules(f, true, self.list, Some(self.client), self.places)
    }
}

// Writes the rules at places, the first one for the entry that asks. Without such an entry nothing is asked any more.
fn show_rules<W: fmt::Write>(
    f: &mut fmt::Formatter<W>,
    is_first: bool,
    list: &StartList,
    asks: Option<&ListEntry>,
    places: &[usize],
) -> fmt::Result
    ensures { WritesOnOk W.write_str_gives f.old result
        (rules_text is_first list.now (option_copied asks.entry) places.now) f.new }
{
    let Some(entry) = asks else {
        return Ok(());
    };
    let Some((place, others)) = places.split_first() else {
        return show_rule(f, is_first, entry, None);
    };
    show_placed(f, is_first, list, entry, *place)?;
    show_rules(f, false, list, outward(list, entry, *place), others)
}

// Writes a rule for an entry by its place, with its conditions.
fn show_placed<W: fmt::Write>(
    f: &mut fmt::Formatter<W>,
    is_first: bool,
    list: &StartList,
    entry: &ListEntry,
    place: usize,
) -> fmt::Result
    ensures { WritesOnOk W.write_str_gives f.old result
        (placed_text is_first list.now entry.now place) f.new }
{
    show_rule(f, is_first, entry, Some(place))?;
    show_conditions_at(f, list.rules_of(entry), place)
}

// The init that asks after a rule for an entry that routes outward, if it isn't the machine's.
fn outward<'a>(list: &'a StartList, entry: &ListEntry, place: usize) -> Option<&'a ListEntry>
    ensures { option_copied result ≡ outward list.now entry.now place }
{
    match list.rules_of(entry).get(place) {
        Some(rule) if rule.target().is_parent() => list.init_entry(entry.home()),
        _ => None,
    }
}

// Writes a rule for an entry, or that there is none.
fn show_rule<W: fmt::Write>(
    f: &mut fmt::Formatter<W>,
    is_first: bool,
    entry: &ListEntry,
    place: Option<usize>,
) -> fmt::Result
    ensures { WritesOnOk W.write_str_gives f.old result (rule_by is_first entry.now place) f.new }
{
    if is_first {
        return show_place(f, entry, place);
    }
    f.write_str(", then by ")?;
    show_place(f, entry, place)?;
    write!(f, " for {}", entry.to_path())
}

// Writes the place of a rule for an entry in its route, or that there is none.
fn show_place<W: fmt::Write>(
    f: &mut fmt::Formatter<W>,
    entry: &ListEntry,
    place: Option<usize>,
) -> fmt::Result
    ensures { WritesOnOk W.write_str_gives f.old result (rule_text entry.now place) f.new }
{
    match place {
        Some(place) => write!(f, "{}[{place}]", entry.route_name()),
        None => f.write_str("no rule"),
    }
}

// Writes the conditions of the rule at a place on the label, if there is one.
fn show_conditions_at<W: fmt::Write>(
    f: &mut fmt::Formatter<W>,
    rules: &[Rule],
    place: usize,
) -> fmt::Result
    ensures { WritesOnOk W.write_str_gives f.old result
        (conditions_text (slice_get rules.now place)) f.new }
{
    show_conditions(f, rules.get(place))
}

// Writes the conditions of a rule on the label, if there is a rule.
fn show_conditions<W: fmt::Write>(f: &mut fmt::Formatter<W>, rule: Option<&Rule>) -> fmt::Result
    ensures { WritesOnOk W.write_str_gives f.old result
        (conditions_text (option_copied rule.entry)) f.new }
{
    let Some(rule) = rule else {
        return Ok(());
    };
    show_condition(f, " is ", rule.label())?;
    show_condition(f, " begins with ", rule.label_prefix())?;
    show_condition(f, " ends with ", rule.label_suffix())
}

// Writes one of the conditions, if it is asked.
fn show_condition<W: fmt::Write>(
    f: &mut fmt::Formatter<W>,
    how: &str,
    asked: Option<&str>,
) -> fmt::Result
    ensures { WritesOnOk W.write_str_gives f.old result
        (condition_text how.now (option_copied asked.entry)) f.new }
{
    let Some(text) = asked else {
        return Ok(());
    };
    write!(f, ", where the label{how}")?;
    show_quoted(f, text)
}

/// Writes the rules of a decision on lines of the label of a graph's edge.
pub(crate) fn show_rule_lines<W: fmt::Write>(
    f: &mut fmt::Formatter<W>,
    rules: &RulesText<'_>,
) -> fmt::Result {
    let mut asks = Some(rules.client);
    for (step, place) in rules.places.iter().enumerate() {
        let Some(entry) = asks else {
            return Ok(());
        };
        write!(f, "\\n{}[{place}]", entry.route_name())?;
        if step > 0 {
            write!(f, " for {}", entry.to_path())?;
        }
        if let Some(rule) = rules.list.rules_of(entry).get(*place) {
            show_condition_lines(f, rule)?;
        }
        asks = outward(rules.list, entry, *place);
    }
    match asks {
        Some(entry) if !rules.places.is_empty() => write!(f, "\\nno rule for {}", entry.to_path()),
        _ => Ok(()),
    }
}

// Writes the conditions of a rule on the label on lines of the label of a graph's edge.
fn show_condition_lines<W: fmt::Write>(f: &mut fmt::Formatter<W>, rule: &Rule) -> fmt::Result {
    let conditions = [
        (" is ", rule.label()),
        (" begins with ", rule.label_prefix()),
        (" ends with ", rule.label_suffix()),
    ];
    for (how, asked) in conditions {
        if let Some(text) = asked {
            let quoted = QuotedText {
                text,
                in_graph: true,
            };
            write!(f, "\\nlabel{how}{quoted}")?;
        }
    }
    Ok(())
}
