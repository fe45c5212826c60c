//! The review of a start list: the list with its findings, or its fault.
ghost use Rattle.std.specs.Prelude.{◌≡◌, ◌≢◌, ◌++◌, Err, IfErr, IfOk, None, Ok, Some};
ghost use Rattle.std.specs.Option.{option_map};
ghost use Rattle.serde_json.specs.View.{view};
ghost use Rattle.list_parser.specs.Quota.{quota_fault};
ghost use Rattle.list_parser.specs.StartText.{json_in, list_in, list_of, placed_list};
ghost use Rattle.list_parser.specs.declared.fault.BootFault.TheVariants.{BadJson, NoMemory};
ghost use Rattle.list_findings.specs.AllFindings.{all_findings};
ghost use Rattle.list_faults.specs.Places.{IsPlaced, fault_in, fault_of};
ghost use Rattle.list_findings.specs.Spare.{if_any, spare_of};

use list_faults::{FaultSite, JsonFlaw, PlacedFault, ValueFlaw};
use list_findings::{Advice, Finding, UnusedBudget, all_findings, spare_of};
use list_parser::{BootFault, ConfigField, JsonFault, LONGEST_TEXT, ListFault, StartList};
use list_parts::first_shortfall;
use serde_json::Value;
use std::alloc::{AllocError, Global};

/// A start list that boots, with its findings and the unused budgets of its servers.
#[derive(Drop)]
pub struct Review {
    list: StartList,
    findings: Vec<Finding>,
    spare: Vec<UnusedBudget>,
}

impl Review {
    /// Reviews the start list that a text is. Errors in order: a text longer than 65536 bytes; no JSON; no start list; an entry
    /// whose budget its init doesn't cover. At any point the host can be out of memory.
    pub fn read(alloc: Global, text: &[u8]) -> Result<Review, PlacedFault>
        ensures list { IfOk result (λ review. list_in text.now ≡ Ok review.list) }
        ensures boots { IfOk result (λ review. quota_fault review.list ≡ None) }
        ensures fault { IfErr result
            (λ fault. fault.fault ≢ NoMemory → fault_of text.now ≡ Some fault.fault) }
        ensures place { IfErr result (λ fault. fault.fault ≢ NoMemory
            → IsPlaced (json_in text.now) fault.fault fault.place) }
        ensures told { IfOk result (λ review. Some review.findings.items
            ≡ option_map
            (λ value. all_findings text.now value review.list)
            (json_in text.now)) }
        ensures advice { IfOk result (λ review. review.spare.items ≡ spare_of review.list) }
    {
        if text.len() > LONGEST_TEXT {
            return Err(PlacedFault {
                fault: BootFault::BadConfig(ConfigField::Size),
                place: FaultSite::Size(text.len()),
            });
        }
        let value = read_json(alloc, text)?;
        let list = read_list(alloc, &value)?;
        let findings = all_findings(alloc, text, &value, &list)?;
        let spare = spare_of(alloc, &list)?;
        Ok(Review {
            list,
            findings,
            spare,
        })
    }

    /// Returns the start list that was read from the text.
    pub fn list(&self) -> &StartList
        ensures { result.now ≡ self.now.list }
    {
        &self.list
    }

    /// Returns the findings. Duplicate members are first, in the order of the text. Members that nothing reads are next, then the
    /// rest, both in the order of the list's parts.
    pub fn findings(&self) -> &[Finding]
        ensures { result.now ≡ self.now.findings.items }
    {
        self.findings.as_slice()
    }

    /// Returns advice on the unused budgets of servers, or none if there is no unused budget.
    pub fn advice(&self) -> Option<Advice<'_>>
        ensures { option_map (λ advice. advice.servers.now) result ≡ if_any self.now.spare.items }
    {
        if self.spare.is_empty() {
            None
        } else {
            Some(Advice {
                servers: self.spare.as_slice(),
            })
        }
    }
}

/// Reads the start list that a text is, and computes no findings. Errors as those of `Review::read`.
pub fn bootable_list(alloc: Global, text: &[u8]) -> Result<StartList, PlacedFault>
    ensures list { IfOk result (λ list. list_in text.now ≡ Ok list) }
    ensures boots { IfOk result (λ list. quota_fault list ≡ None) }
    ensures fault { IfErr result
        (λ fault. fault.fault ≢ NoMemory → fault_of text.now ≡ Some fault.fault) }
    ensures place { IfErr result (λ fault. fault.fault ≢ NoMemory
        → IsPlaced (json_in text.now) fault.fault fault.place) }
{
    if text.len() > LONGEST_TEXT {
        return Err(PlacedFault {
            fault: BootFault::BadConfig(ConfigField::Size),
            place: FaultSite::Size(text.len()),
        });
    }
    let value = read_json(alloc, text)?;
    read_list(alloc, &value)
}

// The value that a text is.
fn read_json(alloc: Global, text: &[u8]) -> Result<Value, PlacedFault>
    ensures ok { IfOk result (λ value. json_in text.now ≡ Some (view value)) }
    ensures refused { IfErr result (λ fault.
        fault.fault ≢ NoMemory → fault.fault ≡ BadJson) }
    ensures none { IfErr result (λ fault. fault.fault ≢ NoMemory → json_in text.now ≡ None) }
    ensures place { IfErr result (λ fault. fault.fault ≢ NoMemory
        → IsPlaced (json_in text.now) fault.fault fault.place) }
{
    match list_parser::read_json(alloc, text) {
        Ok(value) => Ok(value),
        Err(JsonFault::Syntax(line, column, is_end)) => Err(PlacedFault {
            fault: BootFault::BadJson,
            place: FaultSite::Text(line, column, JsonFlaw::at(text, line, column, is_end)),
        }),
        Err(JsonFault::NoMemory) => Err(PlacedFault::from(AllocError)),
    }
}

// The list that a value is, if its inits cover each entry.
fn read_list(alloc: Global, value: &Value) -> Result<StartList, PlacedFault>
    ensures list { IfOk result (λ list. list_of (view value.now) ≡ Ok list) }
    ensures boots { IfOk result (λ list. quota_fault list ≡ None) }
    ensures fault { IfErr result (λ fault. fault.fault ≢ NoMemory
        → fault_in (list_of (view value.now)) ≡ Some fault.fault) }
    ensures place { IfErr result (λ fault. fault.fault ≢ NoMemory
        → IsPlaced (Some (view value.now)) fault.fault fault.place) }
{
    let list = match StartList::of_value_placed(alloc, value) {
        Ok(list) => list,
        Err(fault) => return Err(placed(alloc, value, fault)),
    };
    match first_shortfall(alloc, &list)? {
        Some(lack) => Err(PlacedFault {
            fault: BootFault::QuotaExceeded(lack.path.copy()),
            place: FaultSite::Budget(lack),
        }),
        None => Ok(list),
    }
}

// A fault of a value with what is found at its place.
fn placed(alloc: Global, value: &Value, fault: ListFault) -> PlacedFault
    requires { fault.fault ≢ NoMemory → placed_list (view value.now) ≡ Err fault }
    ensures fault { result.fault ≢ NoMemory → result.fault ≡ fault.fault }
    ensures place { result.fault ≢ NoMemory
        → IsPlaced (Some (view value.now)) result.fault result.place }
{
    let ListFault { fault, place } = fault;
    match ValueFlaw::at(alloc, value, place) {
        Ok(flaw) if !matches!(&fault, BootFault::NoMemory) => PlacedFault {
            fault,
            place: FaultSite::Value(flaw),
        },
        _ => PlacedFault::from(AllocError),
    }
}
