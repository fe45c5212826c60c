//! Rows of coverage: events, and whether each is met.
ghost use Rattle.std.specs.Prelude.{◌≡◌, map};
ghost use Rattle.std.specs.List.{list_any};
ghost use Rattle.view_coverage.specs.Covered.{evidence_in, has_rule, is_request, row_with, shown_with};

use crate::event::{CoverageEvent, RulePlace, ScriptService};

/// A row of coverage: an event that a reply can show, and whether some reply showed it.
#[derive(Clone, Copy)]
pub struct CoverageRow {
    pub event: CoverageEvent,
    pub met: bool,
}

/// The evidence of an answered line: the rules that decided its session request, and the request's script and service, if the line
/// makes a request.
#[derive(Clone, Copy)]
pub(crate) struct CallEvidence<'a> {
    pub asked: Option<ScriptService>,
    pub rules: &'a [RulePlace],
}

impl CallEvidence<'_> {
    ghost use Rattle.std.specs.Prelude.{◌≡◌, map};
    ghost use Rattle.view_coverage.specs.Covered.{evidence_in, row_with, shown_with};

    // Returns whether it shows an event.
    fn shows(self, event: CoverageEvent) -> bool
        ensures { result ≡ shown_with (evidence_in self.entry) event }
    {
        match event {
            CoverageEvent::Decided(rule) => has_rule(self.rules, rule),
            CoverageEvent::Requested(asked) => is_request(asked, self.asked),
        }
    }

    // Returns a row after this evidence.
    fn noted_in(self, row: CoverageRow) -> CoverageRow
        ensures { result ≡ row_with (evidence_in self.entry) row }
    {
        CoverageRow {
            event: row.event,
            met: row.met || self.shows(row.event),
        }
    }

    /// Marks each row as met whose event this evidence shows.
    pub(crate) fn note(self, rows: &mut [CoverageRow])
        ensures { rows.new ≡ map (row_with (evidence_in self.entry)) rows.old }
    {
        for row in rows.iter_mut() {
            *row = self.noted_in(*row);
        }
    }
}

// Returns whether the script and the service of a session request, if there is one, are these.
fn is_request(asked: ScriptService, request: Option<ScriptService>) -> bool
    ensures { result ≡ is_request asked request }
{
    match request {
        Some(request) => asked.client == request.client && asked.service == request.service,
        None => false,
    }
}

// Returns whether a rule is one of these.
fn has_rule(rules: &[RulePlace], rule: RulePlace) -> bool
    ensures { result ≡ has_rule rules.now rule }
{
    rules.iter().any(|other| rule.is(*other))
}
