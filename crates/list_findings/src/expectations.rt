//! Findings that a start list expects: a member `_expected` of an object names them.
ghost use Rattle.std.specs.Prelude.{◌≡◌, ◌<◌, ◌++◌, ◌∷◌, [], List, flat_map, length, map, position, IfOk, IfSome, OnOk};
ghost use Rattle.std.specs.Option.{option_map};
ghost use Rattle.serde_json.specs.View.{view};
ghost use Rattle.list_findings.specs.Expectations.{acknowledges, expected_by, expected_in, judged, unmet};
ghost use Rattle.list_findings.specs.Objects.{seen_part};
ghost use Rattle.list_findings.specs.declared.finding.Finding.{Finding};

use crate::finding::{Finding, FindingText, Remark};
use crate::object_parts::ObjectPart;
use list_faults::{elements, member};
use list_parts::ListPart;
use serde_json::Value;
use std::alloc::{AllocError, Global};

/// A finding that is expected: the part that it is on, and its name.
#[derive(Drop)]
pub(crate) struct Expectation {
    pub(crate) part: ListPart,
    pub(crate) name: FindingText,
}

impl Expectation {
    // Returns the finding that the list has no such finding.
    fn unmet(self) -> Finding
        ensures { result ≡ unmet self }
    {
        let Expectation { part, name } = self;
        Finding {
            part,
            remark: Remark::Unmet(name),
        }
    }

    // Whether a finding is the one that is expected.
    fn acknowledges(&self, finding: &Finding) -> bool
        ensures { result ≡ acknowledges finding.now self.now }
    {
        finding.part.is_at(&self.part)
            && finding.remark.name().as_bytes() == self.name.as_str().as_bytes()
    }
}

/// Returns the findings that these objects expect. Fails if the host is out of memory.
pub(crate) fn expectations(
    alloc: Global,
    parts: &[ObjectPart<'_>],
) -> Result<Vec<Expectation>, AllocError>
    ensures { IfOk result
        (λ expected. expected.items ≡ flat_map expected_in (map seen_part parts.now)) }
{
    let mut expected = Vec::new(alloc);
    for part in parts {
        if let Some(names) = member(part.value, "_expected") {
            add_names(&mut expected, alloc, &part.part, names)?;
        }
    }
    Ok(expected)
}

// Adds the findings on a part that a list names. Without a list, or for an element that is no text, the name is empty.
fn add_names(
    expected: &mut Vec<Expectation>,
    alloc: Global,
    part: &ListPart,
    names: &Value,
) -> Result<(), AllocError>
    ensures { OnOk result
        (expected.new.items ≡ expected.old.items ++ expected_by part.now (view names.now)) }
{
    if !names.is_array() {
        return add_name(expected, alloc, part, "");
    }
    for name in elements(Some(names)) {
        add_name(expected, alloc, part, name.as_str().unwrap_or(""))?;
    }
    Ok(())
}

// Adds the finding of a name.
fn add_name(
    expected: &mut Vec<Expectation>,
    alloc: Global,
    part: &ListPart,
    name: &str,
) -> Result<(), AllocError>
    ensures { OnOk result (expected.new.items
        ≡ expected.old.items ++ record { part = part.now; name = name.now } ∷ []) }
{
    expected.push(Expectation {
        part: part.copy(alloc)?,
        name: FindingText::copy_of(alloc, name)?,
    })?;
    Ok(())
}

/// Returns the findings without those that are expected, and then a finding for each expected one that there isn't. Fails if the
/// host is out of memory.
pub(crate) fn judge(
    alloc: Global,
    found: Vec<Finding>,
    mut expected: Vec<Expectation>,
) -> Result<Vec<Finding>, AllocError>
    ensures { IfOk result (λ left. left.items ≡ judged expected.items found.items) }
{
    let mut left = Vec::new(alloc);
    for finding in found {
        judge_one(&mut left, &mut expected, finding)?;
    }
    for expectation in expected {
        left.push(expectation.unmet())?;
    }
    Ok(left)
}

// Removes the first expectation that a finding meets, or keeps the finding if it meets none.
fn judge_one(
    left: &mut Vec<Finding>,
    expected: &mut Vec<Expectation>,
    finding: Finding,
) -> Result<(), AllocError>
    ensures { OnOk result ((more : List Finding) → left.new.items ++ judged expected.new.items more
        ≡ left.old.items ++ judged expected.old.items (finding ∷ more)) }
{
    match place_of(expected.as_slice(), &finding) {
        Some(place) => {
            let _met = expected.remove(place);
        }
        None => left.push(finding)?,
    }
    Ok(())
}

// The place of the first expectation that a finding meets.
fn place_of(expected: &[Expectation], finding: &Finding) -> Option<usize>
    ensures place { result ≡ position (acknowledges finding.now) expected.now }
    ensures inside { IfSome result (λ place. place < length expected.now) }
{
    expected
        .iter()
        .position(|expectation| expectation.acknowledges(finding))
}
