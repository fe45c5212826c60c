//! All differences as people read them.
use crate::differences::{ListDifferences, has_same_machine};
use crate::entry_changes::EntryChange;
use crate::moved_labels::MovedLabels;
use crate::need_changes::{NeedChange, QuotaAmounts};
use crate::policy_breaches::BreachChange;
use crate::reach_changes::ReachChange;
use crate::records::{answer_to, number_of, reason_of, sign_of};
use crate::reply_changes::ReplyChange;
use list_parser::ListEntry;
use list_parts::{KindsText, binary_word};
use list_reach::{RoutePath, RouteSummary};
use std::alloc::{AllocError, Global};
use std::fmt;

/// Returns a line for each difference: `-` before what was removed, `+` before what was added, and `~` before what changed. Fails if
/// the host is out of memory.
pub fn difference_lines(alloc: Global, found: &ListDifferences<'_>) -> Result<Vec<u8>, AllocError> {
    let mut text = Vec::new(alloc);
    let (was, now) = (found.before, found.after);
    if !has_same_machine(was, now) {
        let (pages, caps) = (now.pages(), now.caps());
        let (old_pages, old_caps) = (was.pages(), was.caps());
        let line = format!(in alloc;
            "~ machine: {pages} pages, {caps} caps (was: {old_pages} pages, {old_caps} caps)\n"
        )?;
        text.extend_from_slice(line.as_bytes())?;
    }
    add_entries(alloc, &mut text, found)?;
    for change in found.leads {
        add_reach(alloc, &mut text, change)?;
    }
    for change in found.breaches {
        add_breach(alloc, &mut text, change)?;
    }
    for change in found.lacks {
        add_need(alloc, &mut text, change)?;
    }
    for change in found.replies {
        add_reply(alloc, &mut text, change)?;
    }
    Ok(text)
}

// Adds the lines of changes of entries: the entry, and after a changed one how it was.
fn add_entries(
    alloc: Global,
    out: &mut Vec<u8>,
    found: &ListDifferences<'_>,
) -> Result<(), AllocError> {
    let (olds, news) = (found.before.entries(), found.after.entries());
    for change in found.changes {
        let (sign, entry, old) = match *change {
            EntryChange::Gone(number) => ("-", olds.get(number), None),
            EntryChange::Came(number) => ("+", news.get(number), None),
            EntryChange::Changed(was, now) => ("~", news.get(now), olds.get(was)),
        };
        let Some(entry) = entry else {
            continue;
        };
        let text = format!(in alloc; "{sign} {}: {}", entry.to_path(), MeansText(entry))?;
        out.extend_from_slice(text.as_bytes())?;
        if let Some(old) = old {
            let text = format!(in alloc; " (was: {})", MeansText(old))?;
            out.extend_from_slice(text.as_bytes())?;
        }
        out.push(b'\n')?;
    }
    Ok(())
}

// The binary of an entry, its budget, its reserve, whether it provides its service, and the kinds that it declares.
#[derive(Clone, Copy)]
struct MeansText<'a>(&'a ListEntry);

impl fmt::Display for MeansText<'_> {
    fn fmt<W: fmt::Write>(&self, f: &mut fmt::Formatter<W>) -> fmt::Result {
        let entry = self.0;
        let (word, ram, caps) = (binary_word(entry.binary()), entry.ram(), entry.caps());
        write!(f, "{word}, {ram} bytes, {caps} caps")?;
        if let Some(reserve) = entry.reserve() {
            let (ram, caps) = (reserve.ram.0, reserve.caps.0);
            write!(f, ", reserve {ram} bytes, {caps} caps")?;
        }
        match entry.service() {
            Some(service) if entry.provides() => write!(f, ", provides {service}")?,
            Some(_) => f.write_str(", provides nothing")?,
            None => {}
        }
        write!(f, "{}", KindsText::of(", ", entry.binary()))
    }
}

// Adds the line of a script and a server: the labels that the server gains and those that it loses, each with the routes of their
// witness.
fn add_reach(alloc: Global, out: &mut Vec<u8>, change: &ReachChange<'_>) -> Result<(), AllocError> {
    let (client, server) = (change.client.to_path(), change.server.to_path());
    let gained = MovedText(&change.gained, " gained");
    let is_both = change.gained.set.witness.is_some() && change.lost.set.witness.is_some();
    let lost = MovedText(&change.lost, if is_both { ", lost" } else { " lost" });
    let text = format!(in alloc; "~ {client} {} {server}:{gained}{lost}\n", change.service)?;
    out.extend_from_slice(text.as_bytes())
}

// Labels after a word, with one of the shortest unless there is one label, and how both lists route a request with it. Nothing if
// there is none.
#[derive(Clone, Copy)]
struct MovedText<'a>(&'a MovedLabels<'a>, &'a str);

impl fmt::Display for MovedText<'_> {
    fn fmt<W: fmt::Write>(&self, f: &mut fmt::Formatter<W>) -> fmt::Result {
        let (moved, word) = (self.0, self.1);
        let Some(witness) = &moved.set.witness else {
            return Ok(());
        };
        write!(f, "{word} {}", moved.set.labels)?;
        if !moved.set.labels.is_one() {
            write!(f, " (as \"{witness}\")")?;
        }
        f.write_str(": ")?;
        show_route(f, moved.now.as_ref())?;
        f.write_str(" (was: ")?;
        show_route(f, moved.was.as_ref())?;
        f.write_str(")")
    }
}

// Writes the rules of a route path and the server to which they route, or the rules that deny the request. Without a path the list
// doesn't have the script.
fn show_route<W: fmt::Write>(
    f: &mut fmt::Formatter<W>,
    course: Option<&RoutePath<'_>>,
) -> fmt::Result {
    let Some(course) = course else {
        return f.write_str("no such script");
    };
    let rules = RouteSummary::of(course);
    let target = match course.child() {
        Some(child) => course.list().entries().get(child),
        None => None,
    };
    match target {
        Some(entry) => write!(f, "{rules} -> {}", entry.to_path()),
        None => write!(f, "denied by {rules}"),
    }
}

// Adds the line of a breach: the number of the policy's line, and the message.
fn add_breach(
    alloc: Global,
    out: &mut Vec<u8>,
    change: &BreachChange<'_>,
) -> Result<(), AllocError> {
    let (sign, breach) = (sign_of(change), change.breach());
    let (line, message) = (breach.line, breach.text.as_str());
    let text = format!(in alloc; "{sign} policy {line}: {message}\n")?;
    out.extend_from_slice(text.as_bytes())
}

// Adds the line of a component that falls short: its need, and its budgets after and before.
fn add_need(alloc: Global, out: &mut Vec<u8>, change: &NeedChange<'_>) -> Result<(), AllocError> {
    out.extend_from_slice(b"~ ")?;
    out.extend_from_slice(change.now.name)?;
    match change.now.needs {
        Some(needs) => {
            let text = format!(in alloc; ": needs {}", AmountsText(needs))?;
            out.extend_from_slice(text.as_bytes())?
        }
        None => out.extend_from_slice(b": no budget serves")?,
    }
    let (has, had) = (AmountsText(change.now.has), AmountsText(change.had));
    let text = format!(in alloc; "; has {has} (was: {had})\n")?;
    out.extend_from_slice(text.as_bytes())
}

// An amount of quota.
#[derive(Clone, Copy)]
struct AmountsText(QuotaAmounts);

impl fmt::Display for AmountsText {
    fn fmt<W: fmt::Write>(&self, f: &mut fmt::Formatter<W>) -> fmt::Result {
        write!(f, "{} bytes, {} caps", self.0.ram, self.0.caps)
    }
}

// Adds the line of a call: a sign, the number of the scenario's line, the call, its reply, and the other reply. If one machine alone
// answers the call, the reason of the other machine is in place of the other reply.
fn add_reply(alloc: Global, out: &mut Vec<u8>, change: &ReplyChange<'_>) -> Result<(), AllocError> {
    let (was, now) = (answer_to(change.was), answer_to(change.now));
    let (sign, made, word) = match (was, now) {
        (Some(_), Some(now)) => ("~", now, b" (was: "),
        (None, Some(now)) => ("+", now, b" (was: "),
        (Some(was), None) => ("-", was, b" (now: "),
        (None, None) => return Ok(()),
    };
    let number = number_of(change.now, change.was);
    let place = format!(in alloc; "{sign} {number}: ")?;
    out.extend_from_slice(place.as_bytes())?;
    out.extend_from_slice(made.name())?;
    out.extend_from_slice(b" ")?;
    out.extend_from_slice(made.call())?;
    out.extend_from_slice(b" => ")?;
    out.extend_from_slice(made.answer().text)?;
    out.extend_from_slice(word)?;
    match (was, now) {
        (Some(was), Some(_)) => out.extend_from_slice(was.answer().text)?,
        (None, _) => out.extend_from_slice(reason_of(alloc, change.was)?.as_slice())?,
        (_, None) => out.extend_from_slice(reason_of(alloc, change.now)?.as_slice())?,
    }
    out.extend_from_slice(b")\n")
}
