//! The flaw of a value: the part of the start list that has it, the value that was found, and what is expected.
ghost use Rattle.std.specs.Prelude.{◌≡◌, IfOk};
ghost use Rattle.list_faults.specs.Places.{member_name};

use crate::expected_text::expected_text;
use crate::found_value::FoundValue;
use crate::values::{elements, find_entries, member};
use list_parser::{FaultPart, FaultPlace, ListMember};
use list_parts::{EntrySteps, ListPart};
use serde_json::Value;
use std::alloc::{AllocError, Global};
use std::fmt;

/// A flaw of a value: its place as the reader reports it, the part of the list that is there, and the value that is found.
#[derive(Drop)]
pub struct ValueFlaw {
    /// The place of the flaw.
    pub place: FaultPlace,
    /// The part of the list.
    pub part: ListPart,
    /// The value that is there.
    pub found: FoundValue,
}

impl fmt::Display for ValueFlaw {
    fn fmt<W: fmt::Write>(&self, f: &mut fmt::Formatter<W>) -> fmt::Result {
        write!(f, "{}: ", self.part)?;
        if let Some(member) = self.place.member {
            write!(f, "{}: ", member_name(member))?;
        }
        let expected = expected_text(&self.place, matches!(self.found, FoundValue::Text(_)));
        match self.found {
            FoundValue::Missing => write!(f, "missing; expected {expected}"),
            found => write!(f, "expected {expected}, found {found}"),
        }
    }
}

impl ValueFlaw {
    /// Looks up a place in the value of a start list. Fails if the host is out of memory.
    pub fn at(alloc: Global, list: &Value, place: FaultPlace) -> Result<ValueFlaw, AllocError>
        ensures { IfOk result (λ flaw. flaw.place ≡ place) }
    {
        let entries = find_entries(alloc, list)?;
        let (owner, steps) = match place.entry {
            Some(number) => match entries.get(number) {
                Some(found) => (Some(found.value), found.steps.copy(alloc)?),
                None => (None, EntrySteps::none(alloc)),
            },
            None => (Some(list), EntrySteps::none(alloc)),
        };
        let value = value_of(owner, &place);
        let found = match place.member {
            Some(key) => FoundValue::of(member(value, member_name(key))),
            None => FoundValue::of(value),
        };
        let part = part_at(&place, steps);
        Ok(ValueFlaw { place, part, found })
    }
}

// The value of the part of a place, within the list or the entry that has the place.
fn value_of<'v>(owner: Option<&'v Value>, place: &FaultPlace) -> Option<&'v Value> {
    let owner = if place.in_config {
        member(owner, "config")
    } else {
        owner
    };
    let is_own = place.entry.is_some() && !place.in_config;
    match place.part {
        FaultPart::Whole => owner,
        FaultPart::Machine => member(owner, "machine"),
        FaultPart::Rule(rule) => {
            let rules = if is_own { "route" } else { "default-route" };
            elements(member(owner, rules)).get(rule)
        }
        FaultPart::Kind(kind) => elements(member(owner, "kinds")).get(kind),
    }
}

// The part of the list at a place, with the steps to its entry.
fn part_at(place: &FaultPlace, steps: EntrySteps) -> ListPart {
    let Some(number) = place.entry else {
        return match place.part {
            FaultPart::Machine => ListPart::Machine,
            FaultPart::Rule(rule) => ListPart::DefaultRule(rule),
            FaultPart::Whole | FaultPart::Kind(_) => ListPart::List,
        };
    };
    match place.part {
        FaultPart::Rule(rule) => if place.in_config {
            ListPart::InnerRule(number, steps, rule)
        } else {
            ListPart::Rule(number, steps, rule)
        },
        FaultPart::Kind(kind) => ListPart::Kind(number, steps, kind),
        FaultPart::Whole | FaultPart::Machine => if place.in_config {
            ListPart::Config(number, steps)
        } else {
            ListPart::Entry(number, steps)
        },
    }
}

/// Returns the name of a member.
pub fn member_name(member: ListMember) -> &'static str
    ensures { result.now ≡ member_name member }
{
    match member {
        ListMember::Field(field) => field.as_str(),
        ListMember::Service => "service",
        ListMember::AnyService => "any-service",
        ListMember::Label => "label",
        ListMember::LabelPrefix => "label_prefix",
        ListMember::LabelSuffix => "label_suffix",
        ListMember::Child => "child",
        ListMember::AnyChild => "any-child",
        ListMember::Parent => "parent",
        ListMember::Kind => "kind",
        ListMember::Block => "block",
        ListMember::Bytes => "bytes",
    }
}
