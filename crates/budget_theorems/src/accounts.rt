//! The budget of a component's own account.
ghost use Rattle.budget_theorems.specs.Shortfall.{RepliesShowShortfalls};
ghost use Rattle.budget_theorems.specs.Theorems.{CellsAreExact, IsInItsOwn, SameAnswersInACell, ShortfallInACell, ShortfallBelowACell};

/// States that the cell of a budget is the rectangle of all budgets for which each test along the run has the same
/// result.
pub fn cells_are_exact()
    ensures exact { CellsAreExact }
    ensures own { IsInItsOwn }
{}

/// States that budgets in one cell give the same answers and leave the same own state, except limits.
pub fn same_answers_in_a_cell()
    ensures { SameAnswersInACell }
{}

/// States which budgets are insufficient, from one run with enough capabilities. The result holds for the run's whole
/// cell, and for all budgets below it down to the maximum choice that passed.
pub fn shortfall_by_cells()
    ensures within { ShortfallInACell }
    ensures below { ShortfallBelowACell }
{}

/// States that the text of a reply determines whether its call was refused for lack of quota.
pub fn replies_show_shortfalls()
    ensures { RepliesShowShortfalls }
{}
