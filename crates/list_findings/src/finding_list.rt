//! The findings of a start list.
ghost use Rattle.std.specs.Prelude.{◌≡◌, IfOk};
ghost use Rattle.serde_json.specs.View.{view};
ghost use Rattle.list_findings.specs.AllFindings.{all_findings};

use crate::duplicate_members::add_duplicates;
use crate::expectations::{expectations, judge};
use crate::finding::Finding;
use crate::findings::add_findings;
use crate::object_parts::object_parts;
use crate::unread_members::add_unread;
use list_parser::StartList;
use serde_json::Value;
use std::alloc::{AllocError, Global};

/// Returns the findings of a start list, of its value and of the text of this value. Duplicate members are first, in the order of
/// the text. Members that nothing reads are next, then the rest, both in the order of the list's parts. Findings that the list
/// expects are left out, and an expected one that there isn't is a finding. Fails if the host is out of memory.
pub fn all_findings(
    alloc: Global,
    text: &[u8],
    value: &Value,
    list: &StartList,
) -> Result<Vec<Finding>, AllocError>
    ensures { IfOk result
        (λ found. found.items ≡ all_findings text.now (view value.now) list.now) }
{
    let parts = object_parts(alloc, value)?;
    let mut found = Vec::new(alloc);
    add_duplicates(&mut found, alloc, text)?;
    add_unread(&mut found, alloc, parts.as_slice())?;
    add_findings(&mut found, alloc, list)?;
    judge(alloc, found, expectations(alloc, parts.as_slice())?)
}
