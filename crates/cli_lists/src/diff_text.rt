//! The differences of two start lists as text, and the exit status by them.
ghost use Rattle.std.specs.Prelude.{◌≡◌, [], not, IfOk};
ghost use Rattle.list_diff.specs.Differences.{nothing_differs};
ghost use Rattle.cli_base.specs.Statuses.{EndsAs};
ghost use Rattle.cli_lists.specs.Comparison.{AreSoFar, Differ, EndsChanged, EndsWith, IsSideOf, IsTextOf, changed_if, diff_status};

use crate::diff_files::JudgedPair;
use cli_base::{made_or_status, status_of};
use list_diff::{
    EntryChange, ListDifferences, NeedChange, ReachChange, ReachSide, ReplyChange, changes,
    difference_documents, difference_lines, leads,
};
use list_parser::StartList;
use list_reach::ReachTable;
use std::alloc::{AllocError, Global};
use std::io;
use std::io::Write;
use view_diagnostics::DiagnosticForm;

/// The exit status if something is changed.
pub(crate) const CHANGED: u8 = 4;

/// Prints all differences of two lists, with their breaches, these needs and replies. Returns the exit status: 4 if there is a difference,
/// 0 if there is none, else that of a failed write, or 1 if the host is out of memory.
pub(crate) fn print_differences<'a>(
    rt: &HostRuntime,
    pair: JudgedPair<'a>,
    lacks: &'a [NeedChange<'a>],
    replies: &'a [ReplyChange<'a>],
    form: DiagnosticForm,
) -> u8
    ensures { EndsAs ⊥ (EndsChanged (Differ pair.entry.lists.before.list.now pair.entry.lists.after.list.now
        pair.entry.breaches.now lacks.now replies.now)) result }
{
    let so_far = ListDifferences {
        before: pair.lists.before.list,
        after: pair.lists.after.list,
        changes: &[],
        leads: &[],
        breaches: pair.breaches,
        lacks,
        replies,
    };
    match made_or_status(rt, differences(rt.alloc(), so_far, form)) {
        Ok(text) => text.print(rt),
        Err(status) => status,
    }
}

// The text of all differences, and whether there are any.
#[derive(Drop)]
struct DiffText {
    text: Vec<u8>,
    is_changed: bool,
}

impl DiffText {
    // Returns differences as lines, or as documents of JSON. Fails if the host is out of memory.
    fn of(
        alloc: Global,
        found: &ListDifferences<'_>,
        form: DiagnosticForm,
    ) -> Result<DiffText, AllocError>
        ensures { IfOk result (λ made. made.is_changed ≡ not (nothing_differs found.now)) }
    {
        let is_changed = !found.is_empty();
        let text = if form == DiagnosticForm::Json {
            difference_documents(alloc, found)?
        } else {
            difference_lines(alloc, found)?
        };
        Ok(DiffText { text, is_changed })
    }

    // Prints the text, and returns the exit status.
    fn print(&self, rt: &HostRuntime) -> u8
        ensures { EndsAs ⊥ (EndsChanged (λ changed. changed ≡ changed_if self.now.is_changed)) result }
    {
        let printed = io::writer(rt).write_all(self.text.as_slice());
        end_status(rt, printed, self.is_changed)
    }
}

// Compares entries and reachability of two lists, in addition to the differences so far. Fails if the host is out of memory.
fn differences<'a>(
    alloc: Global,
    so_far: ListDifferences<'a>,
    form: DiagnosticForm,
) -> Result<DiffText, AllocError>
    ensures { IfOk result (IsTextOf so_far.entry) }
{
    let olds: ReachTable<'a> = ReachTable::of(alloc, so_far.before)?;
    let news: ReachTable<'a> = ReachTable::of(alloc, so_far.after)?;
    let was = side_of(so_far.before, &olds);
    let now = side_of(so_far.after, &news);
    compare_sides(alloc, so_far, was, now, form)
}

// Returns a start list with the cells of its table.
fn side_of<'a>(list: &'a StartList, table: &'a ReachTable<'a>) -> ReachSide<'a>
    ensures list { result.list.now ≡ list.now }
    ensures cells { result.cells.now ≡ table.now.cells.items }
{
    ReachSide {
        list,
        cells: table.cells(),
    }
}

// Compares entries and reachability of two lists by their tables, in addition to the differences so far. Fails if the host is out of
// memory.
fn compare_sides<'a>(
    alloc: Global,
    so_far: ListDifferences<'a>,
    was: ReachSide<'a>,
    now: ReachSide<'a>,
    form: DiagnosticForm,
) -> Result<DiffText, AllocError>
    requires was { IsSideOf so_far.before.now was }
    requires now { IsSideOf so_far.after.now now }
    ensures { IfOk result (IsTextOf so_far.entry) }
{
    let changes = changes(alloc, so_far.before, so_far.after)?;
    let leads = leads(alloc, was, now)?;
    let found = with_lists(so_far, changes.as_slice(), leads.as_slice());
    DiffText::of(alloc, &found, form)
}

// Returns the differences so far with those of entries and reachability.
fn with_lists<'a>(
    so_far: ListDifferences<'a>,
    changes: &'a [EntryChange],
    leads: &'a [ReachChange<'a>],
) -> ListDifferences<'a>
    ensures so_far { AreSoFar so_far.entry result }
    ensures changes { result.changes.now ≡ changes.now }
    ensures leads { result.leads.now ≡ leads.now }
{
    ListDifferences {
        changes,
        leads,
        ..so_far
    }
}

// Returns the exit status after a write: that of the write if it failed, else that of the comparison.
fn end_status(rt: &HostRuntime, printed: io::Result<()>, is_changed: bool) -> u8
    ensures { EndsWith printed is_changed result }
{
    match printed {
        Ok(()) => diff_status(is_changed),
        Err(error) => status_of(rt, Err(error)),
    }
}

// Returns the exit status of a comparison: 4 if something is changed, else 0.
fn diff_status(is_changed: bool) -> u8
    ensures { result ≡ diff_status (changed_if is_changed) }
{
    if is_changed { CHANGED } else { 0 }
}
