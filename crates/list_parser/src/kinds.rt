//! The readers of what a server declares: its service, and the kinds of its objects.
ghost use Rattle.std.specs.Prelude.{◌≡◌, ◌≢◌, ◌≤◌, [], false, is_some, length, map, IfOk, IfErr, Ok, Err};
ghost use Rattle.std.specs.List.{list_any};
ghost use Rattle.std.specs.Option.{option_map};
ghost use Rattle.serde_json.specs.View.{view};
ghost use Rattle.own_model.specs.ObjectKinds.{AreObjectKinds, IsObjectKind, is_kind, kind_named};
ghost use Rattle.list_parser.specs.DeclaredServers.{declarable, declared_in, is_built_in, kind_after, kind_of, kinds_declared, kinds_in, listed_in, service_declared};
ghost use Rattle.list_parser.specs.declared.fault.BootFault.TheVariants.{NoMemory};

use crate::fault::ConfigField;
use crate::list_fault::{ExpectedValue, FaultPart, Flaw, ListFault, ListMember};
use crate::member::{name_at, name_of, whole_at};
use crate::name::Name;
use object_kinds::{LEAST_BLOCK, MOST_KINDS, ObjectKind};
use serde_json::Value;
use std::alloc::Global;
use trade_base::SERVICES;

/// The most bytes of a kind's block, and the most bytes of a unit.
const MOST_BYTES: u32 = 65_535;

/// Returns the elements of a member, if it is a list.
#[tactic(auto, using(crate::proofs::MemberLemmas::elements_of_items))]
fn listed_in(member: Option<&Value>) -> Option<&[Value]>
    ensures { option_map (λ list. map view list.now) result
        ≡ listed_in (option_map (λ value. view value.now) member.entry) }
{
    Some(member?.as_array()?.as_slice())
}

/// Returns the name of the service that a server declares: exactly one text that is a name, and the name of no service that
/// the machine has built in. Returns `None` if the member is missing or is anything else.
pub(crate) fn service_declared(member: Option<&Value>) -> Option<Name>
    ensures { result ≡ service_declared (option_map (λ value. view value.now) member.entry) }
{
    declared_in(listed_in(member)?)
}

/// Reads the same from the elements of a list.
#[tactic(auto, using(crate::proofs::KindLemmas::declares_too_many))]
fn declared_in(services: &[Value]) -> Option<Name>
    ensures { result ≡ declared_in (map view services.now) }
{
    match services {
        [service] => declarable(name_of(service)?),
        _ => None,
    }
}

/// Returns a name, unless a service that the machine has built in has it.
fn declarable(name: Name) -> Option<Name>
    ensures { result ≡ declarable name }
{
    if is_built_in(name.as_bytes()) {
        None
    } else {
        Some(name)
    }
}

/// Returns whether a service that the machine has built in has a name.
pub(crate) fn is_built_in(name: &[u8]) -> bool
    ensures { result ≡ is_built_in name.now }
{
    SERVICES
        .iter()
        .any(|service| name == service.name().as_bytes())
}

/// Reads the kinds that a server declares. Refuses with the member unless it is a list of 0 to 16 elements, and else with the
/// first element that is no kind, or that has the name of an earlier one.
pub(crate) fn read_kinds(
    alloc: Global,
    member: Option<&Value>,
) -> Result<Vec<ObjectKind>, ListFault>
    ensures ok { IfOk result
        (λ kinds. kinds_declared (option_map (λ value. view value.now) member.entry)
        ≡ Ok kinds.items) }
    ensures are { IfOk result (λ kinds. AreObjectKinds kinds.items) }
    ensures err { IfErr result (λ fault. fault.fault ≢ NoMemory
        → kinds_declared (option_map (λ value. view value.now) member.entry) ≡ Err fault) }
{
    match listed_in(member) {
        Some(values) if values.len() <= MOST_KINDS => kinds_in(alloc, values),
        _ => Err(ListFault::bad(ConfigField::Kinds, ExpectedValue::Kinds)),
    }
}

/// Reads kinds with different names.
fn kinds_in(alloc: Global, values: &[Value]) -> Result<Vec<ObjectKind>, ListFault>
    requires { length values.now ≤ MOST_KINDS }
    ensures ok { IfOk result (λ kinds. kinds_in (map view values.now) ≡ Ok kinds.items) }
    ensures are { IfOk result (λ kinds. AreObjectKinds kinds.items) }
    ensures err { IfErr result
        (λ fault. fault.fault ≢ NoMemory → kinds_in (map view values.now) ≡ Err fault) }
{
    let mut kinds = Vec::new(alloc);
    for value in values {
        match read_kind(kinds.as_slice(), value) {
            Ok(kind) => kinds.push(kind)?,
            Err(flaw) => {
                let place = FaultPart::Kind(kinds.len());
                return Err(ListFault::bad_element(ConfigField::Kinds, place, flaw));
            }
        }
    }
    Ok(kinds)
}

/// Reads the kind in a JSON value. Refuses with the first bad member, which is its name if an earlier kind has it.
fn read_kind(before: &[ObjectKind], value: &Value) -> Result<ObjectKind, Flaw>
    ensures value { result ≡ kind_after before.now (view value.now) }
    ensures kind { IfOk result (λ kind. IsObjectKind kind) }
    ensures new { IfOk result (λ kind. is_some (kind_named kind.name before.now) ≡ false) }
{
    let kind = kind_of(value)?;
    if has_name_of(before, &kind) {
        Err(Flaw::of(ListMember::Kind, ExpectedValue::NewKind))
    } else {
        Ok(kind)
    }
}

/// Returns whether one of the kinds has the name of another kind.
fn has_name_of(kinds: &[ObjectKind], other: &ObjectKind) -> bool
    ensures { result ≡ is_some (kind_named other.now.name kinds.now) }
{
    has_name(kinds, other.name())
}

/// Returns whether one of the kinds has a name.
fn has_name(kinds: &[ObjectKind], name: &str) -> bool
    ensures { result ≡ list_any (is_kind name.now) kinds.now }
{
    kinds
        .iter()
        .any(|kind| kind.name().as_bytes() == name.as_bytes())
}

/// Reads the kind in a JSON value. Refuses with the whole value if it is no object, and else with the first bad member.
fn kind_of(value: &Value) -> Result<ObjectKind, Flaw>
    ensures value { result ≡ kind_of (view value.now) }
    ensures kind { IfOk result (λ kind. IsObjectKind kind) }
{
    if !value.is_object() {
        return Err(Flaw::whole(ExpectedValue::Object));
    }
    let Some(name) = name_at(value, "kind") else {
        return Err(Flaw::of(ListMember::Kind, ExpectedValue::Name));
    };
    let Some(block) = whole_at(value, "block", u32::from(LEAST_BLOCK), MOST_BYTES) else {
        return Err(Flaw::of(ListMember::Block, ExpectedValue::BlockBytes));
    };
    let Some(bytes) = whole_at(value, "bytes", 0, MOST_BYTES) else {
        return Err(Flaw::of(ListMember::Bytes, ExpectedValue::UnitBytes));
    };
    Ok(ObjectKind::new(name.as_str(), block as u16, bytes as u16))
}
