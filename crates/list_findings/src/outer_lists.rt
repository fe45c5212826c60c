//! Texts that rules ask of labels, and rules of outer lists, which see names before the label that a client gives.
ghost use Rattle.std.specs.Prelude.{◌≡◌, ◌+◌, drop, find, length, nat_eq, nat_lt, IfOk};
ghost use Rattle.std.specs.List.{ends_with, list_all, list_any, starts_with};
ghost use Rattle.std.specs.Option.{option_copied, option_map};
ghost use Rattle.own_model.specs.SessionArgs.{is_quotable};
ghost use Rattle.list_parts.specs.Texts.{has};
ghost use Rattle.list_findings.specs.Outer.{chosen_end, has_arrow, is_asked_by, is_below, is_let_in, is_named, is_no_label, let_in_by, most_seen, names_from, no_label_in, outer_init, idle_remark, wide_front};

use crate::finding::{FindingText, Remark, StaticName};
use crate::idle_rules::is_of;
use list_parser::{ListEntry, Rule, StartList};
use list_parts::RuleOwner;
use std::alloc::{AllocError, Global};
use text_codec::is_quotable;

/// Returns the first init that asks an owner's rules, or none if no init does. For this init the owner's list is an outer list.
pub(crate) fn outer_init(list: &StartList, owner: RuleOwner) -> Option<&ListEntry>
    ensures { option_copied result ≡ outer_init list.now owner }
{
    let entries = list.entries();
    for (number, entry) in entries.iter().enumerate() {
        if is_asked_by(owner, number, entry) {
            return Some(entry);
        }
    }
    None
}

// Whether an entry is an init, and the owner's rules are those for it.
fn is_asked_by(owner: RuleOwner, number: usize, entry: &ListEntry) -> bool
    ensures { result ≡ is_asked_by owner (number, entry.now) }
{
    entry.is_init() && is_of(owner, number, entry)
}

/// Returns why a rule that decides nothing does so: a text that no label has, a label that ends in the arrow, or no reason.
pub(crate) fn idle_remark(outer: bool, rule: &Rule) -> Remark
    ensures { result ≡ idle_remark outer rule.now }
{
    match no_label_in(outer, rule) {
        Some(member) => Remark::NoLabel(member),
        None if has_arrow(outer, rule) => Remark::Arrow,
        None => Remark::Idle,
    }
}

// The member of a rule that asks for a text which no label has.
fn no_label_in(outer: bool, rule: &Rule) -> Option<StaticName>
    ensures { result ≡ no_label_in outer rule.now }
{
    if is_no_label(outer, rule.label()) {
        Some(StaticName("label"))
    } else if is_no_label(outer, rule.label_prefix()) {
        Some(StaticName("label_prefix"))
    } else if is_no_label(outer, rule.label_suffix()) {
        Some(StaticName("label_suffix"))
    } else {
        None
    }
}

// Whether a text is asked that no label has: the text is too long, or has a byte that no label has.
fn is_no_label(outer: bool, text: Option<&str>) -> bool
    ensures { result ≡ has (is_no_label outer) (option_copied text.entry) }
{
    match text {
        Some(text) => most_seen(outer) < text.len() || !is_plain(text.as_bytes()),
        None => false,
    }
}

// The maximum number of bytes of a label that a list sees, with names before it if some init asks the list.
fn most_seen(outer: bool) -> usize
    ensures { result ≡ most_seen outer }
{
    if outer { 172 } else { 64 }
}

// Whether a label can have each byte.
fn is_plain(text: &[u8]) -> bool
    ensures { result ≡ list_all is_quotable text.now }
{
    text.iter().all(|byte| is_quotable(*byte))
}

// Whether an outer list is asked for a label that ends in the arrow.
fn has_arrow(outer: bool, rule: &Rule) -> bool
    ensures { result ≡ has_arrow outer rule.now }
{
    match rule.label() {
        Some(text) => outer && text.as_bytes().ends_with(b" -> "),
        None => false,
    }
}

/// Returns the remark that a prefix that names one entry also matches the names of another entry, if it does. Fails if the host
/// is out of memory.
pub(crate) fn wide_front(
    alloc: Global,
    entries: &[ListEntry],
    outer: Option<&ListEntry>,
    front: Option<&str>,
) -> Result<Option<Remark>, AllocError>
    ensures { IfOk result (λ remark. remark
        ≡ wide_front entries.now (option_copied outer.entry) (option_copied front.entry)) }
{
    let Some(init) = outer else {
        return Ok(None);
    };
    let Some(front) = front else {
        return Ok(None);
    };
    match let_in_by(entries, init, front.as_bytes()) {
        Some(entry) => Ok(Some(Remark::LetsIn(
            FindingText::copy_of(alloc, front)?,
            entry.to_name(),
        ))),
        None => Ok(None),
    }
}

// An entry whose names begin with the names of another entry.
fn let_in_by<'a>(entries: &'a [ListEntry], init: &ListEntry, names: &[u8]) -> Option<&'a ListEntry>
    ensures { option_copied result ≡ let_in_by entries.now init.now names.now }
{
    if has_named(entries, init, names) {
        first_let_in(entries, init, names)
    } else {
        None
    }
}

// Whether these are the names of some entry.
fn has_named(entries: &[ListEntry], init: &ListEntry, names: &[u8]) -> bool
    ensures { result ≡ list_any (is_named init.now names.now) entries.now }
{
    entries.iter().any(|entry| is_named(init, names, entry))
}

// The first other entry whose names begin with these names.
fn first_let_in<'a>(
    entries: &'a [ListEntry],
    init: &ListEntry,
    names: &[u8],
) -> Option<&'a ListEntry>
    ensures { option_copied result ≡ find (is_let_in init.now names.now) entries.now }
{
    entries.iter().find(|entry| is_let_in(init, names, entry))
}

// Whether these are the names of an entry, as an init's rules see them.
fn is_named(init: &ListEntry, names: &[u8], entry: &ListEntry) -> bool
    ensures { result ≡ is_named init.now names.now entry.now }
{
    is_below(init, entry) && names_from(init, entry) == names
}

// Whether the names of an entry begin so, and the entry isn't below the entry that has these names.
fn is_let_in(init: &ListEntry, names: &[u8], entry: &ListEntry) -> bool
    ensures { result ≡ is_let_in init.now names.now entry.now }
{
    let own = names_from(init, entry);
    is_below(init, entry)
        && own.starts_with(names)
        && own != names
        && !behind(own, names.len()).starts_with(b" -> ")
}

// Whether an entry that makes requests, or whose own entries do, is below an init.
fn is_below(init: &ListEntry, entry: &ListEntry) -> bool
    ensures { result ≡ is_below init.now entry.now }
{
    let above = init.label();
    let label = entry.label();
    !entry.is_server()
        && label.starts_with(above)
        && behind(label, above.len()).starts_with(b" -> ")
}

// What an init's rules see of the names of an entry below it.
fn names_from<'a>(init: &ListEntry, entry: &'a ListEntry) -> &'a [u8]
    ensures { result.now ≡ names_from init.now entry.now }
{
    behind(entry.label(), init.label().len() + 4)
}

// The bytes of a text after so many bytes.
fn behind(text: &[u8], count: usize) -> &[u8]
    ensures { result.now ≡ drop count text.now }
{
    if count < text.len() {
        &text[count..]
    } else {
        &[]
    }
}

/// Returns the remark that a rule of an outer list asks for an end of at least one byte, if it does.
pub(crate) fn chosen_end(outer: bool, rule: &Rule) -> Option<Remark>
    ensures { result ≡ chosen_end outer rule.now }
{
    match rule.label_suffix() {
        Some(text) if outer && !text.is_empty() => Some(Remark::ChosenEnd),
        _ => None,
    }
}
