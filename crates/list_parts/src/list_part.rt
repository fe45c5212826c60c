//! Parts of a start list, as diagnostics name them.
ghost use Rattle.std.specs.Prelude.{◌≡◌, ◌≤◌, ◌++◌, IfOk, Some, decimal};
ghost use Rattle.std.specs.Fmt.{WritesOnOk};
ghost use Rattle.std.specs.List.{slice_get};
ghost use Rattle.list_parts.specs.PartTexts.{element_text, part_text, step_text, steps_text};
ghost use Rattle.list_parts.specs.Steps.{part_of, place_in, rule_at, steps_to, steps_within};

use crate::quoted_text::show_within;
use list_parser::{ListEntry, Name, StartList};
use list_routes::MOST_LISTS;
use std::alloc::{AllocError, Global};
use std::fmt;
use std::marker::Model;

/// A step to an entry: its place in its list, and its name if it has one.
#[derive(Drop)]
pub struct EntryStep {
    /// The place, from 0 on.
    pub place: usize,
    /// The name.
    pub name: Option<Name>,
}

impl EntryStep {
    // A copy of the step.
    fn copy(&self) -> EntryStep
        ensures { result ≡ self.now }
    {
        let name = match &self.name {
            Some(name) => Some(name.copy()),
            None => None,
        };
        EntryStep {
            place: self.place,
            name,
        }
    }
}

impl fmt::Display for EntryStep {
    ghost output = { λ step. Some (step_text step) };

    #[tactic(auto, unfolding(crate::specs::PartTexts::step_text))]
    fn fmt<W: fmt::Write>(&self, f: &mut fmt::Formatter<W>) -> fmt::Result {
        match &self.name {
            Some(name) => write!(f, "start[{}] \"{name}\"", self.place),
            None => write!(f, "start[{}]", self.place),
        }
    }
}

/// The steps to an entry, from the machine's list on.
#[derive(Drop)]
pub struct EntrySteps {
    steps: Vec<EntryStep>,
}

impl Model for EntrySteps {
    ghost use Rattle.std.specs.Prelude.{List};
    ghost use Rattle.list_parts.specs.declared.list_part.EntryStep.{EntryStep};

    ghost Value = { List EntryStep };

    ghost view = { λ steps. steps.steps.items };
}

impl EntrySteps {
    ghost use Rattle.std.specs.Prelude.{[], ◌∷◌, ◌++◌, OnOk};

    /// Returns no steps: those to the machine's list.
    pub fn none(alloc: Global) -> EntrySteps
        ensures { result ≡ [] }
    {
        EntrySteps {
            steps: Vec::new(alloc),
        }
    }

    /// Adds a step after the others. Fails if the host is out of memory.
    pub fn push(&mut self, step: EntryStep) -> Result<(), AllocError>
        ensures { OnOk result (self.new ≡ self.old ++ step ∷ []) }
    {
        self.steps.push(step)?;
        Ok(())
    }

    /// Returns a copy of the steps. Fails if the host is out of memory.
    pub fn copy(&self, alloc: Global) -> Result<EntrySteps, AllocError>
        ensures { IfOk result (λ steps. steps ≡ self.now) }
    {
        let mut steps = EntrySteps::none(alloc);
        for step in self.as_slice() {
            steps.push(step.copy())?;
        }
        Ok(steps)
    }

    /// Returns the steps in order, from the machine's list on.
    pub fn as_slice(&self) -> &[EntryStep]
        ensures { result.now ≡ self.now }
    {
        self.steps.as_slice()
    }
}

impl fmt::Display for EntrySteps {
    ghost output = { λ steps. Some (steps_text steps) };

    fn fmt<W: fmt::Write>(&self, f: &mut fmt::Formatter<W>) -> fmt::Result {
        let mut before = "";
        for step in self.as_slice() {
            write!(f, "{before}{step}")?;
            before = ": config: ";
        }
        Ok(())
    }
}

/// A part of a start list, or a place in its text. Entries are those of all lists, each init directly before its own. Numbers and
/// places count from 0.
#[derive(Drop)]
pub enum ListPart {
    /// A place in the text: the line and the column, from 1 on.
    Text(usize, usize),
    /// The list itself.
    List,
    /// The machine of the list.
    Machine,
    /// An entry, by its number, with the steps to it.
    Entry(usize, EntrySteps),
    /// What an init starts, by its entry as above.
    Config(usize, EntrySteps),
    /// A rule of the machine's default route, by its place.
    DefaultRule(usize),
    /// A rule of an entry's own route: the entry as above, and the rule's place.
    Rule(usize, EntrySteps, usize),
    /// A rule of the default route of what an init starts: its entry as above, and the rule's place.
    InnerRule(usize, EntrySteps, usize),
    /// A kind of objects that a server declares: its entry as above, and the kind's place.
    Kind(usize, EntrySteps, usize),
}

impl ListPart {
    /// Returns a copy of the part. Fails if the host is out of memory.
    pub fn copy(&self, alloc: Global) -> Result<ListPart, AllocError>
        ensures { IfOk result (λ part. part ≡ self.now) }
    {
        match self {
            ListPart::Text(line, column) => Ok(ListPart::Text(*line, *column)),
            ListPart::List => Ok(ListPart::List),
            ListPart::Machine => Ok(ListPart::Machine),
            ListPart::Entry(number, steps) => Ok(ListPart::Entry(*number, steps.copy(alloc)?)),
            ListPart::Config(number, steps) => Ok(ListPart::Config(*number, steps.copy(alloc)?)),
            ListPart::DefaultRule(rule) => Ok(ListPart::DefaultRule(*rule)),
            ListPart::Rule(number, steps, rule) => rule_at(
                alloc,
                RuleOwner::Entry(*number),
                steps,
                *rule,
            ),
            ListPart::InnerRule(number, steps, rule) => {
                rule_at(alloc, RuleOwner::Inner(*number), steps, *rule)
            }
            ListPart::Kind(number, steps, kind) => {
                Ok(ListPart::Kind(*number, steps.copy(alloc)?, *kind))
            }
        }
    }
}

impl ListPart {
    ghost use Rattle.list_parts.specs.Steps.{is_at, part_key};

    // The kind of the part, and the numbers by which it differs from others of the kind.
    fn key(&self) -> (u8, usize, usize)
        ensures { result ≡ part_key self.now }
    {
        match self {
            ListPart::Text(line, column) => (0, *line, *column),
            ListPart::List => (1, 0, 0),
            ListPart::Machine => (2, 0, 0),
            ListPart::Entry(number, _) => (3, *number, 0),
            ListPart::Config(number, _) => (4, *number, 0),
            ListPart::DefaultRule(rule) => (5, 0, *rule),
            ListPart::Rule(number, _, rule) => (6, *number, *rule),
            ListPart::InnerRule(number, _, rule) => (7, *number, *rule),
            ListPart::Kind(number, _, kind) => (8, *number, *kind),
        }
    }

    /// Returns whether this is the other part of the same list.
    pub fn is_at(&self, other: &ListPart) -> bool
        ensures { result ≡ is_at self.now other.now }
    {
        let (kind, number, place) = self.key();
        let (other_kind, other_number, other_place) = other.key();
        kind == other_kind && number == other_number && place == other_place
    }
}

impl fmt::Display for ListPart {
    ghost output = { λ part. Some (part_text part) };

    fn fmt<W: fmt::Write>(&self, f: &mut fmt::Formatter<W>) -> fmt::Result {
        match self {
            ListPart::Text(line, column) => write!(f, "line {line}, column {column}"),
            ListPart::List => f.write_str("start list"),
            ListPart::Machine => f.write_str("machine"),
            ListPart::Entry(_, steps) => show_within(f, "", steps, ""),
            ListPart::Config(_, steps) => show_within(f, "", steps, ": config"),
            ListPart::DefaultRule(rule) => show_within(f, "default-route[", rule, "]"),
            ListPart::Rule(_, steps, rule) => show_element(f, steps, ": route", *rule),
            ListPart::InnerRule(_, steps, rule) => show_element(
                f,
                steps,
                ": config: default-route",
                *rule,
            ),
            ListPart::Kind(_, steps, kind) => show_element(f, steps, ": kinds", *kind),
        }
    }
}

// An element of a list that an entry has as a member.
fn show_element<W: fmt::Write>(
    f: &mut fmt::Formatter<W>,
    steps: &EntrySteps,
    member: &str,
    place: usize,
) -> fmt::Result
    ensures { WritesOnOk W.write_str_gives f.old result (element_text steps.now member.now place) f.new }
{
    write!(f, "{steps}{member}[{place}]")
}

/// The owner of a rule: the machine's default route, an entry's own route, or the default route of what an entry starts. Entries
/// are given by number.
#[derive(Clone, Copy)]
pub enum RuleOwner {
    Default,
    Entry(usize),
    Inner(usize),
}

/// Returns the part of the rule at a place of an owner's list, with the steps to the owner's entry. Fails if the host is out of
/// memory.
pub fn rule_at(
    alloc: Global,
    owner: RuleOwner,
    steps: &EntrySteps,
    rule: usize,
) -> Result<ListPart, AllocError>
    ensures { IfOk result (λ part. part ≡ rule_at owner steps.now rule) }
{
    match owner {
        RuleOwner::Default => Ok(ListPart::DefaultRule(rule)),
        RuleOwner::Entry(number) => Ok(ListPart::Rule(number, steps.copy(alloc)?, rule)),
        RuleOwner::Inner(number) => Ok(ListPart::InnerRule(number, steps.copy(alloc)?, rule)),
    }
}

/// A part by its number: an entry, or a rule of an owner, without the steps to it.
#[derive(Clone, Copy)]
pub enum PartId {
    Entry(usize),
    Rule(RuleOwner, usize),
}

impl PartId {
    /// Returns the part of a start list, with the steps to it. Fails if the host is out of memory.
    pub fn part(self, alloc: Global, list: &StartList) -> Result<ListPart, AllocError>
        ensures { IfOk result (λ part. part ≡ part_of list.now.entries self) }
    {
        match self {
            PartId::Entry(number) => Ok(ListPart::Entry(number, steps_to(alloc, list, number)?)),
            PartId::Rule(RuleOwner::Default, rule) => Ok(ListPart::DefaultRule(rule)),
            PartId::Rule(RuleOwner::Entry(number), rule) => {
                Ok(ListPart::Rule(number, steps_to(alloc, list, number)?, rule))
            }
            PartId::Rule(RuleOwner::Inner(number), rule) => {
                Ok(ListPart::InnerRule(number, steps_to(alloc, list, number)?, rule))
            }
        }
    }
}

/// Returns the steps to the entry of a number. Fails if the host is out of memory.
pub(crate) fn steps_to(
    alloc: Global,
    list: &StartList,
    number: usize,
) -> Result<EntrySteps, AllocError>
    ensures { IfOk result (λ steps. steps ≡ steps_to list.now.entries number) }
{
    steps_within(alloc, list.entries(), MOST_LISTS, number)
}

// The same through at most so many lists.
#[tactic(auto, using(crate::proofs::NestLemmas::steps_to_none))]
fn steps_within(
    alloc: Global,
    entries: &[ListEntry],
    lists: usize,
    number: usize,
) -> Result<EntrySteps, AllocError>
    ensures { IfOk result (λ steps. steps ≡ steps_within lists entries.now number) }
{
    if lists == 0 {
        return Ok(EntrySteps::none(alloc));
    }
    let Some(entry) = entries.get(number) else {
        return Ok(EntrySteps::none(alloc));
    };
    let step = EntryStep {
        place: place_in(entries, entry.home(), number),
        name: Some(entry.to_name()),
    };
    if entry.home() == 0 {
        let mut steps = EntrySteps::none(alloc);
        steps.push(step)?;
        return Ok(steps);
    }
    let mut steps = steps_within(alloc, entries, lists - 1, entry.home() - 1)?;
    steps.push(step)?;
    Ok(steps)
}

// The place of an entry in the list of an init: how many entries of that list are before it.
fn place_in(entries: &[ListEntry], init: usize, number: usize) -> usize
    ensures { result ≡ place_in entries.now init number }
{
    let before = &entries[..number.min(entries.len())];
    before.iter().filter(|entry| entry.home() == init).count()
}
