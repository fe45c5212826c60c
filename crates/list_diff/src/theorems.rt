//! What the differences of two start lists report for certain.
ghost use Rattle.list_diff.specs.NewAccess.{LostAccessIsReported, NewAccessIsReported, NoRowsAreNoChange};
ghost use Rattle.list_diff.specs.NewBreaches.{GoneBreachIsReported, NewBreachIsReported, ReportedBreachIsGone, ReportedBreachIsNew, SameBreachesAreNone};

/// Proves which changes of reach are reported, for each cell of a table. Each label of a script's requests that reaches a server after
/// and didn't before is in the gained set of a row of both paths. Each label that reached it before and doesn't after is in a lost set.
/// The witness of the set is no longer than the label. Without a row each label reaches the same servers on both lists.
pub fn changed_access_is_reported()
    ensures gained { NewAccessIsReported }
    ensures lost { LostAccessIsReported }
    ensures same { NoRowsAreNoChange }
{}

/// Proves which breaches of a policy are reported: as new exactly those of the list after that the list before doesn't have, and as
/// gone exactly those of the list before that the list after doesn't have. The same breaches are no difference.
pub fn breaches_of_one_list_are_reported()
    ensures new { NewBreachIsReported }
    ensures is_new { ReportedBreachIsNew }
    ensures gone { GoneBreachIsReported }
    ensures is_gone { ReportedBreachIsGone }
    ensures same { SameBreachesAreNone }
{}
