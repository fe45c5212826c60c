//! The name that may have been meant by a misspelt one.
ghost use Rattle.std.specs.Prelude.{◌≡◌, ◌≤◌, IfOk, find};
ghost use Rattle.std.specs.List.{list_any};
ghost use Rattle.std.specs.Option.{option_copied};
ghost use Rattle.std.specs.Str.{bytes_eq};
ghost use Rattle.own_model.specs.Listed.{services_of};
ghost use Rattle.list_parser.specs.Services.{service_text};
ghost use Rattle.list_findings.specs.Findings.{is_in_case, other_case};
ghost use Rattle.text_near_words.specs.Near.{is_away, nearest};
ghost use Rattle.list_findings.specs.Near.{names_in};

use crate::finding::Remark;
use crate::service_names::name_of;
use list_parser::{ListEntry, ListService, Name, StartList};
use std::alloc::{AllocError, Global};
use text_near_words::is_away;

/// Returns the name of an entry of an init's list that may have been meant by an unknown name, or none if none is near. Fails if
/// the host is out of memory.
pub(crate) fn near_name(
    alloc: Global,
    entries: &[ListEntry],
    init: usize,
    written: &str,
) -> Result<Option<Name>, AllocError>
    ensures { IfOk result (λ near. near ≡ nearest (names_in init entries.now) written.now) }
{
    match name_away(alloc, entries, init, 1, written)? {
        Some(name) => Ok(Some(name)),
        None => name_away(alloc, entries, init, 2, written),
    }
}

// The first of these names that is so many edits away.
fn name_away(
    alloc: Global,
    entries: &[ListEntry],
    init: usize,
    count: usize,
    written: &str,
) -> Result<Option<Name>, AllocError>
    requires { count ≤ 2 }
    ensures { IfOk result
        (λ name. name ≡ find (is_away count written.now) (names_in init entries.now)) }
{
    for entry in entries {
        let name = entry.to_name();
        if entry.home() == init && is_away(alloc, count, written, name.as_str())? {
            return Ok(Some(name));
        }
    }
    Ok(None)
}

/// Returns the remark that a rule asks for a service that no server of the list has, if it differs from a service of the list in
/// case alone.
pub(crate) fn other_case(list: &StartList, service: Option<&Name>) -> Option<Remark>
    ensures { result ≡ other_case (services_of list.now.entries) (option_copied service.entry) }
{
    let written = service?;
    if is_service(list, written) {
        return None;
    }
    Some(Remark::OtherCase(written.copy(), meant_by(list, written)?))
}

// Whether a name is that of a service of a list.
fn is_service(list: &StartList, written: &Name) -> bool
    ensures { result ≡ list_any (bytes_eq written.now) (services_of list.now.entries) }
{
    for number in 0..list.service_count() {
        let service = list.service(number);
        if is_named(written, service) {
            return true;
        }
    }
    false
}

// Whether a service has a name.
fn is_named(written: &Name, service: ListService<'_>) -> bool
    ensures { result ≡ bytes_eq written.now (service_text service.entry) }
{
    written.as_bytes() == service.name().as_bytes()
}

// The first service of a list whose name differs from this in case alone.
fn meant_by(list: &StartList, written: &Name) -> Option<Name>
    ensures { result ≡ find (is_in_case written.now) (services_of list.now.entries) }
{
    for number in 0..list.service_count() {
        let service = list.service(number);
        if is_in_case(written, service) {
            return name_of(service);
        }
    }
    None
}

// Whether the name of a service differs from this in case alone.
fn is_in_case(written: &Name, service: ListService<'_>) -> bool
    ensures { result ≡ is_in_case written.now (service_text service.entry) }
{
    let name = service.name();
    written.as_str().eq_ignore_ascii_case(name) && written.as_bytes() != name.as_bytes()
}
