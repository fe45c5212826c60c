//! All differences between two start lists, and whether there are any.
ghost use Rattle.std.specs.Prelude.{◌≡◌};
ghost use Rattle.list_diff.specs.Differences.{nothing_differs, same_machine};

use crate::entry_changes::EntryChange;
use crate::need_changes::NeedChange;
use crate::policy_breaches::BreachChange;
use crate::reach_changes::ReachChange;
use crate::reply_changes::ReplyChange;
use list_parser::StartList;

/// The differences between two start lists, and between the runs of a scenario on both.
#[derive(Clone, Copy)]
pub struct ListDifferences<'a> {
    /// The start list before.
    pub before: &'a StartList,
    /// The start list after.
    pub after: &'a StartList,
    /// The changes of the entries.
    pub changes: &'a [EntryChange],
    /// The labels that are routed to a server on one list alone.
    pub leads: &'a [ReachChange<'a>],
    /// The breaches of a policy that one list alone has.
    pub breaches: &'a [BreachChange<'a>],
    /// The components whose budgets suffice for the scenario before and not after.
    pub lacks: &'a [NeedChange<'a>],
    /// The lines of the scenario whose replies differ.
    pub replies: &'a [ReplyChange<'a>],
}

impl ListDifferences<'_> {
    /// Returns whether there is no difference: the machine is the same, and each other part is empty.
    pub fn is_empty(&self) -> bool
        ensures { result ≡ nothing_differs self.now }
    {
        has_same_machine(self.before, self.after)
            && self.changes.is_empty()
            && self.leads.is_empty()
            && self.breaches.is_empty()
            && self.lacks.is_empty()
            && self.replies.is_empty()
    }
}

/// Returns whether two lists have the same pages and capabilities.
pub fn has_same_machine(before: &StartList, after: &StartList) -> bool
    ensures { result ≡ same_machine before.now after.now }
{
    before.pages() == after.pages() && before.caps() == after.caps()
}
