//! The conditions of a client's rules on a label that isn't empty.
ghost use Rattle.std.specs.Prelude.{◌≡◌, ◌+◌, ◌*◌, ◌≤◌, ◌++◌, [], ◌∷◌, length, drop, if◌then◌else◌, Some, None, IfOk, OnOk};
ghost use Rattle.std.specs.Option.{option_copied};
ghost use Rattle.list_labels.specs.Asked.{asked_by, asked_of, asked_of_rule, asked_texts, asked_within, asks_nothing, behind, can_begin, text_of};

use crate::label::{ClientLabel, MOST_LISTS, behind};
use crate::session_requests::SessionRequests;
use list_parser::{ListEntry, Rule, StartList};
use std::alloc::{AllocError, Global};
use std::marker::Model;

/// A condition on a label: the text with which it has to begin, and the text with which it has to end.
#[derive(Drop)]
pub struct LabelCondition {
    /// The text with which the label has to begin, at most 64 bytes.
    pub front: ClientLabel,
    /// The text with which the label has to end, at most 64 bytes.
    pub end: ClientLabel,
}

impl Model for LabelCondition {
    ghost use Rattle.list_labels.specs.LabelRanges.{AskedLabel};

    ghost Value = { AskedLabel };

    ghost view = { λ asked. record {
      front = asked.front;
      end = asked.end;
    } };
}

impl LabelCondition {
    ghost use Rattle.list_labels.specs.LabelRanges.{fits};

    /// Returns the condition that every label matches.
    pub fn none() -> LabelCondition
        ensures { result ≡ record { front = []; end = [] } }
    {
        LabelCondition {
            front: ClientLabel::empty(),
            end: ClientLabel::empty(),
        }
    }

    /// Returns the condition that a label begins with a text.
    pub fn beginning(front: &ClientLabel) -> LabelCondition
        ensures { result ≡ record { front = front.now; end = [] } }
    {
        LabelCondition {
            front: front.copy(),
            end: ClientLabel::empty(),
        }
    }

    /// Returns the condition that a label ends with a text.
    pub fn ending(end: &ClientLabel) -> LabelCondition
        ensures { result ≡ record { front = []; end = end.now } }
    {
        LabelCondition {
            front: ClientLabel::empty(),
            end: end.copy(),
        }
    }

    /// Returns whether the bytes of a label match the condition.
    pub fn matches(&self, label: &[u8]) -> bool
        ensures { result ≡ fits label.now self.now }
    {
        label.starts_with(self.front.as_bytes()) && label.ends_with(self.end.as_bytes())
    }
}

/// Returns the conditions of the rules that match a label by how it begins and ends. Fails if the host is out of memory.
#[tactic(auto, unfolding(crate::specs::Asked::asked_of))]
pub fn asked_of(
    alloc: Global,
    wishes: SessionRequests<'_>,
) -> Result<Vec<LabelCondition>, AllocError>
    ensures { IfOk result (λ asked. asked.items
        ≡ asked_of wishes.entry.list.now wishes.entry.client wishes.entry.service.now) }
{
    let mut asked = Vec::new(alloc);
    if let Some(entry) = wishes.list.entries().get(wishes.client) {
        add_asked(
            &mut asked,
            wishes.list,
            MOST_LISTS,
            entry,
            wishes.service,
            &[],
        )?;
    }
    Ok(asked)
}

// The conditions of the rules for an entry and, through at most so many lists outward, of the rules for the inits above it.
fn add_asked(
    asked: &mut Vec<LabelCondition>,
    list: &StartList,
    lists: usize,
    entry: &ListEntry,
    service: &[u8],
    before: &[u8],
) -> Result<(), AllocError>
    requires before { length before.now + lists * 36 ≤ 208 }
    ensures { OnOk result (asked.new.items
        ≡ asked.old.items ++ asked_within lists list.now entry.now service.now before.now) }
{
    if lists == 0 {
        return Ok(());
    }
    add_by(asked, list.rules_of(entry), service, before)?;
    match list.init_entry(entry.home()) {
        Some(init) => {
            let outer = behind(entry.name(), before);
            add_asked(asked, list, lists - 1, init, service, outer.as_slice())
        }
        None => Ok(()),
    }
}

// The conditions of the rules of a list on a label after these names.
fn add_by(
    asked: &mut Vec<LabelCondition>,
    rules: &[Rule],
    service: &[u8],
    before: &[u8],
) -> Result<(), AllocError>
    ensures { OnOk result (asked.new.items
        ≡ asked.old.items ++ asked_by service.now before.now rules.now) }
{
    for rule in rules {
        add_rule(asked, rule, service, before)?;
    }
    Ok(())
}

// The condition of a rule on a label after these names. A rule with another beginning than the names has none.
fn add_rule(
    asked: &mut Vec<LabelCondition>,
    rule: &Rule,
    service: &[u8],
    before: &[u8],
) -> Result<(), AllocError>
    ensures { OnOk result (asked.new.items
        ≡ asked.old.items ++ asked_of_rule service.now before.now rule.now) }
{
    let front = text_of(rule.label_prefix());
    if rule.asks_service(service) && asks_nothing(rule.label()) && can_begin(before, front) {
        let end = text_of(rule.label_suffix());
        return add_texts(asked, text_behind(front, before.len()), end);
    }
    Ok(())
}

// Whether some text after these names begins with a text.
fn can_begin(names: &[u8], asked: &[u8]) -> bool
    ensures { result ≡ can_begin names.now asked.now }
{
    names.starts_with(asked) || asked.starts_with(names)
}

// Both texts, if a given label can begin and end so.
fn add_texts(asked: &mut Vec<LabelCondition>, front: &[u8], end: &[u8]) -> Result<(), AllocError>
    ensures { OnOk result (asked.new.items
        ≡ asked.old.items ++ asked_texts front.now end.now) }
{
    if let (Some(front), Some(end)) = (ClientLabel::read(front), ClientLabel::read(end)) {
        asked.push(LabelCondition { front, end })?;
    }
    Ok(())
}

// Whether no text is asked.
fn asks_nothing(asked: Option<&str>) -> bool
    ensures { result ≡ asks_nothing (option_copied asked.entry) }
{
    match asked {
        Some(_) => false,
        None => true,
    }
}

// The text that is asked, or the empty one.
fn text_of(asked: Option<&str>) -> &[u8]
    ensures { result.now ≡ text_of (option_copied asked.entry) }
{
    match asked {
        Some(asked) => asked.as_bytes(),
        None => &[],
    }
}

/// Returns the bytes of a text after so many bytes, or no bytes if the text is shorter.
pub(crate) fn text_behind(text: &[u8], before: usize) -> &[u8]
    ensures { result.now ≡ drop before text.now }
{
    if before < text.len() {
        &text[before..]
    } else {
        &[]
    }
}
