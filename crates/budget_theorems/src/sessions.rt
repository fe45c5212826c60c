//! The donation to a session: theorems on all that the session receives, its requests and later donations.
ghost use Rattle.budget_theorems.specs.RequestTheorems.{SameAnswersOfSession, SessionShortfallInACell, SessionShortfallBelowACell};

/// States that donations in one cell give the same answers to requests and leave the same session, except limits.
pub fn same_answers_of_a_session()
    ensures { SameAnswersOfSession }
{}

/// States which donations are insufficient, from one run with enough capabilities. The result holds for the run's whole
/// cell, and for all donations below it down to the maximum choice that passed.
pub fn session_shortfall_by_cells()
    ensures within { SessionShortfallInACell }
    ensures below { SessionShortfallBelowACell }
{}
