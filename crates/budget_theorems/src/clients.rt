//! The donation of a client to one of its sessions, over the whole run of the client. The theorems hold for a client
//! whose own account suffices.
ghost use Rattle.budget_theorems.specs.Opened.{OpeningsDonate, SameAnswersOfClient, ClientShortfallInACell, ClientShortfallBelowACell};

/// States that donations in one cell of a session's input cause the same input. The client's answers are the same, and so
/// is its own state, except limits.
pub fn same_answers_of_a_client()
    ensures opened { OpeningsDonate }
    ensures same { SameAnswersOfClient }
{}

/// States which donations are insufficient for a session, over all input that each of them causes, from one run with
/// enough capabilities.
pub fn client_shortfall_by_cells()
    ensures within { ClientShortfallInACell }
    ensures below { ClientShortfallBelowACell }
{}
