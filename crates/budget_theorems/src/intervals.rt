//! All budgets that suffice, from a few runs.
ghost use Rattle.budget_theorems.specs.Intervals.{AccountIntervalsAreExact, EndingIntervalsAreExact, SessionStretchesAreExact};

/// States that the sufficient budgets, up to any number of bytes and capabilities, are those that the intervals of a few
/// runs contain. Each run starts one byte below the maximum choice that passed in the run before. A run may end at its
/// first shortfall.
pub fn intervals_are_exact()
    ensures account { AccountIntervalsAreExact }
    ensures ending { EndingIntervalsAreExact }
    ensures session { SessionStretchesAreExact }
{}
