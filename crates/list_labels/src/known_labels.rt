//! Labels that a rule distinguishes from all others. One kind is a whole label that a rule asks for. The other is an end of a
//! suffix whose rest is the end of the names before the label.
ghost use Rattle.std.specs.Prelude.{◌≡◌, ◌+◌, ◌*◌, ◌≤◌, ◌<◌, length, OnOk};
ghost use Rattle.std.specs.List.{list_any};
ghost use Rattle.std.specs.Option.{option_copied};
ghost use Rattle.std.specs.Str.{bytes_eq};
ghost use Rattle.list_labels.specs.Asked.{is_known, is_tail, is_whole, known, known_within};
ghost use Rattle.list_labels.specs.KnownLabels.{AddsLabels, is_tail_after};

use crate::label::{ClientLabel, MOST_LISTS, behind};
use crate::label_condition::text_behind;
use crate::session_requests::SessionRequests;
use list_parser::{ListEntry, Rule};
use std::alloc::{AllocError, Global};

/// Adds the labels that the rules for a client's requests distinguish, except the empty one. Fails if the host is out of memory.
pub fn add_known(
    labels: &mut Vec<ClientLabel>,
    wishes: SessionRequests<'_>,
) -> Result<(), AllocError>
    ensures { OnOk result (AddsLabels (known wishes.entry.list.now wishes.entry.client
        wishes.entry.service.now) labels.old.items labels.new.items) }
{
    match wishes.list.entries().get(wishes.client) {
        Some(entry) => add_within(labels, wishes, MOST_LISTS, entry, &[]),
        None => Ok(()),
    }
}

// The labels of the rules for an entry and, through at most so many lists outward, for the inits above it.
fn add_within(
    known: &mut Vec<ClientLabel>,
    wishes: SessionRequests<'_>,
    lists: usize,
    entry: &ListEntry,
    before: &[u8],
) -> Result<(), AllocError>
    requires before { length before.now + lists * 36 ≤ 208 }
    ensures { OnOk result (AddsLabels (known_within lists wishes.entry.list.now entry.now
        wishes.entry.service.now before.now) known.old.items known.new.items) }
{
    if lists == 0 {
        return Ok(());
    }
    add_by(known, wishes.list.rules_of(entry), wishes.service, before)?;
    match wishes.list.init_entry(entry.home()) {
        Some(init) => {
            let outer = behind(entry.name(), before);
            add_within(known, wishes, lists - 1, init, outer.as_slice())
        }
        None => Ok(()),
    }
}

// Those of the rules of a list.
fn add_by(
    known: &mut Vec<ClientLabel>,
    rules: &[Rule],
    service: &[u8],
    before: &[u8],
) -> Result<(), AllocError>
    ensures { OnOk result (AddsLabels (λ label. list_any (is_known service.now before.now label)
        rules.now) known.old.items known.new.items) }
{
    for place in 0..rules.len() {
        add_rule(known, &rules[place], service, before)?;
    }
    Ok(())
}

// Those of a rule.
fn add_rule(
    known: &mut Vec<ClientLabel>,
    rule: &Rule,
    service: &[u8],
    before: &[u8],
) -> Result<(), AllocError>
    ensures { OnOk result (AddsLabels (λ label. is_known service.now before.now label rule.now)
        known.old.items known.new.items) }
{
    if !rule.asks_service(service) {
        return Ok(());
    }
    add_whole(known, rule.label(), before)?;
    add_tails(known, rule.label_suffix(), before)
}

// The label whose whole text after the names before it a rule asks for.
fn add_whole(
    known: &mut Vec<ClientLabel>,
    asked: Option<&str>,
    before: &[u8],
) -> Result<(), AllocError>
    ensures { OnOk result (AddsLabels (λ label. is_whole before.now label
        (option_copied asked.entry)) known.old.items known.new.items) }
{
    match asked {
        Some(label) if label.as_bytes().starts_with(before) => {
            add(known, text_behind(label.as_bytes(), before.len()))
        }
        _ => Ok(()),
    }
}

// The ends of a suffix whose rest is the end of the names before the label.
fn add_tails(
    known: &mut Vec<ClientLabel>,
    asked: Option<&str>,
    before: &[u8],
) -> Result<(), AllocError>
    ensures { OnOk result (AddsLabels (λ label. is_tail before.now label
        (option_copied asked.entry)) known.old.items known.new.items) }
{
    let Some(suffix) = asked else {
        return Ok(());
    };
    let suffix = suffix.as_bytes();
    for cut in 1..suffix.len() {
        add_tail(known, suffix, before, cut)?;
    }
    Ok(())
}

// The end after so many bytes.
fn add_tail(
    known: &mut Vec<ClientLabel>,
    suffix: &[u8],
    before: &[u8],
    cut: usize,
) -> Result<(), AllocError>
    requires some { 0 < cut }
    requires within { cut < length suffix.now }
    ensures { OnOk result (AddsLabels (is_tail_after before.now suffix.now cut)
        known.old.items known.new.items) }
{
    if before.ends_with(&suffix[..cut]) {
        add(known, &suffix[cut..])
    } else {
        Ok(())
    }
}

// A label, if it can be given and isn't empty.
fn add(known: &mut Vec<ClientLabel>, text: &[u8]) -> Result<(), AllocError>
    ensures { OnOk result (AddsLabels (bytes_eq text.now) known.old.items known.new.items) }
{
    if text.is_empty() {
        return Ok(());
    }
    match ClientLabel::read(text) {
        Some(label) => {
            known.push(label)?;
            Ok(())
        }
        None => Ok(()),
    }
}
