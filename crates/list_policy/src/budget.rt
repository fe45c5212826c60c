//! The budgets of components, and whether they are within a limit.
ghost use Rattle.std.specs.Prelude.{◌≡◌};
ghost use Rattle.list_policy.specs.Demand.{exceeds, exceeds_at, excess_at};
ghost use Rattle.list_policy.specs.Line.{line_at};

use crate::demand::{BudgetLimit, PolicyLine, names};
use list_parser::{ListEntry, StartList};

/// Returns whether a line names a component that has more than a limit.
pub(crate) fn excess_at(
    list: &StartList,
    line: &PolicyLine,
    limit: BudgetLimit,
    number: usize,
) -> bool
    ensures { result ≡ excess_at list.now (line_at line.now) limit number }
{
    names(line.from.as_slice(), number) && exceeds_at(list, limit, number)
}

// Whether the component of a number has more than a limit.
fn exceeds_at(list: &StartList, limit: BudgetLimit, number: usize) -> bool
    ensures { result ≡ exceeds_at list.now limit number }
{
    match list.entries().get(number) {
        Some(entry) => exceeds(limit, entry),
        None => false,
    }
}

// Whether an entry's budget and its reserve are together more than a limit.
fn exceeds(limit: BudgetLimit, entry: &ListEntry) -> bool
    ensures { result ≡ exceeds limit entry.now }
{
    let reserve = entry.reserve_at_start();
    let ram = u128::from(entry.ram()) + u128::from(reserve.ram.0);
    let caps = u64::from(entry.caps()) + u64::from(reserve.caps.0);
    u128::from(limit.ram) < ram || limit.caps < caps
}
