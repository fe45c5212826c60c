//! Servers without guards.
ghost use Rattle.guard_theorems.specs.Debts.{NoDebtsNoDifference, AlikeTestsNoDebt};

/// States that servers without guards answer each line of a run without debts as servers with guards do, except the limits
/// that `STAT` prints, and leave the same machine. A request is no debt if its tests have the same outcomes with all that
/// the session's server doesn't use.
pub fn no_debts_no_difference()
    ensures run { NoDebtsNoDifference }
    ensures tests { AlikeTestsNoDebt }
{}
