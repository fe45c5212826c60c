//! Theorems of the runs that are measured.
ghost use Rattle.budget_meter.specs.SessionRuns.{SessionRunsAreExact};

/// States which donations open a session and suffice for its run: exactly those that the intervals of a few runs cover. Each
/// of these runs ends at its first shortfall. A run is what a client requests of the session and donates to it, if the
/// client covers that.
pub fn session_runs_are_exact()
    ensures { SessionRunsAreExact }
{}
