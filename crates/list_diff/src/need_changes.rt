//! Needs that aren't covered any more.
ghost use Rattle.std.specs.Prelude.{◌≡◌, ◌++◌, IfOk, OnOk};
ghost use Rattle.list_diff.specs.Needs.{need_of, shortfall, shortfall_from, shortfalls};

use std::alloc::{AllocError, Global};

/// An amount of quota: RAM in bytes, and a number of capabilities.
#[derive(Clone, Copy)]
pub struct QuotaAmounts {
    /// The RAM in bytes.
    pub ram: u64,
    /// The number of capabilities.
    pub caps: u64,
}

/// The need of a component: its budget, and the budget that its calls in a scenario need.
#[derive(Clone, Copy)]
pub struct ComponentNeed<'a> {
    /// The path of the component.
    pub name: &'a [u8],
    /// The budget of the component.
    pub has: QuotaAmounts,
    /// The minimum budget under which none of its calls is short of quota, if there is one.
    pub needs: Option<QuotaAmounts>,
    /// Whether no call is short of quota under the budget that the component has.
    pub is_covered: bool,
}

/// A component whose needs were covered and aren't any more.
#[derive(Clone, Copy)]
pub struct NeedChange<'a> {
    /// What the component has and needs after a change.
    pub now: ComponentNeed<'a>,
    /// The budget that the component had before.
    pub had: QuotaAmounts,
}

/// Returns the components whose needs were covered before and aren't after, in the order of those after. Fails if the host is out
/// of memory.
pub fn lacks<'a>(
    alloc: Global,
    before: &[ComponentNeed<'a>],
    after: &[ComponentNeed<'a>],
) -> Result<Vec<NeedChange<'a>>, AllocError>
    ensures { IfOk result (λ found. found.items ≡ shortfalls before.now after.now) }
{
    let mut found = Vec::new(alloc);
    for now in after {
        add_shortfall(&mut found, *now, need_of(before, now.name))?;
    }
    Ok(found)
}

// Adds a component if its need isn't covered and was covered before.
fn add_shortfall<'a>(
    found: &mut Vec<NeedChange<'a>>,
    now: ComponentNeed<'a>,
    was: Option<ComponentNeed<'a>>,
) -> Result<(), AllocError>
    ensures { OnOk result (found.new.items
        ≡ found.old.items ++ shortfall_from now.entry was.entry) }
{
    if let Some(was) = was {
        if was.is_covered && !now.is_covered {
            found.push(NeedChange { now, had: was.has })?;
        }
    }
    Ok(())
}

// The need of the component of a path.
fn need_of<'a>(needs: &[ComponentNeed<'a>], name: &[u8]) -> Option<ComponentNeed<'a>>
    ensures { result ≡ need_of needs.now name.now }
{
    for need in needs {
        if need.name == name {
            return Some(*need);
        }
    }
    None
}
