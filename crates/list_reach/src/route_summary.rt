//! The rules of a route path, on one line.
ghost use Rattle.std.specs.Prelude.{◌≡◌, Some};
ghost use Rattle.std.specs.Fmt.{WritesOnOk};
ghost use Rattle.list_reach.specs.RuleTexts.{step_text, summarized, summary_text};

use crate::route_path::RoutePath;
use crate::texts::{EntryRuleText, RuleText};
use list_labels::RouteStep;
use list_parser::ListEntry;
use std::fmt::{self, Display};

/// A summary of a route path: the rules by which a request is routed to a server or denied.
#[derive(Clone, Copy)]
pub struct RouteSummary<'a> {
    course: &'a RoutePath<'a>,
}

impl<'a> RouteSummary<'a> {
    /// Returns the summary of a route path, which it borrows.
    pub fn of(course: &'a RoutePath<'a>) -> RouteSummary<'a>
        ensures { summarized result ≡ course.now }
    {
        RouteSummary { course }
    }
}

/// Writes the rules from the client's own list outward, with the init that each later one is for.
impl fmt::Display for RouteSummary<'_> {
    ghost output = { λ summary. Some (summary_text (summarized summary)) };

    fn fmt<W: fmt::Write>(&self, f: &mut fmt::Formatter<W>) -> fmt::Result {
        let list = self.course.list();
        let hops = self.course.hops();
        let mut asks = list.entries().get(self.course.client());
        let mut is_first = true;
        for place in 0..hops.len() {
            let Some(entry) = asks else {
                return Ok(());
            };
            show_hop(f, entry, &hops[place], is_first)?;
            is_first = false;
            asks = list.init_entry(entry.home());
        }
        Ok(())
    }
}

// A rule by its place, or that there is none, with the path of the init that it is for.
fn show_hop<W: fmt::Write>(
    f: &mut fmt::Formatter<W>,
    entry: &ListEntry,
    hop: &RouteStep,
    is_first: bool,
) -> fmt::Result
    ensures { WritesOnOk W.write_str_gives f.old result (step_text entry.now hop.now.rule is_first) f.new }
{
    if is_first {
        RuleText::of(entry, hop.rule()).fmt(f)
    } else {
        write!(f, ", then {}", EntryRuleText::of(entry, hop.rule()))
    }
}
