//! Theorems on the account list.
ghost use Rattle.own_model.specs.AccountList.{TotalsAreTheMachine};

/// States that the account list of a balanced machine shows the machine's RAM and capabilities as the sums of all limits.
pub fn totals_are_the_machine()
    ensures { TotalsAreTheMachine }
{}
