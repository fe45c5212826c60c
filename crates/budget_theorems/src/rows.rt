//! Computed examples of budgets.
ghost use Rattle.budget_theorems.specs.Rows.{TwoCharges, BytesFirst, NothingAfterExit, FirstGrowth, Writes, Resizes};

/// States computed examples: cells and shortfalls of short runs at their boundaries, and the tests of a heap's first
/// growth, of file requests and of object requests.
pub fn budgets_are_worked()
    ensures two_charges { TwoCharges }
    ensures bytes_first { BytesFirst }
    ensures after_exit { NothingAfterExit }
    ensures first_growth { FirstGrowth }
    ensures writes { Writes }
    ensures resizes { Resizes }
{}
