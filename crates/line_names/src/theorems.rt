//! Theorems about names.
ghost use Rattle.line_names.specs.Theorems.{BoundNamesStand, GivenNamesCount, MarkedLinesStay, PlainLinesStay, RoundsAreForgotten};

/// States that a line without `$` is its own filling, for any values of names.
#[tactic(auto, using(crate::proofs::LawLemmas::plain_lines_stay))]
pub fn plain_lines_stay()
    ensures { PlainLinesStay }
{}

/// States that a line for the engine, which begins with `!`, is its own filling.
#[tactic(auto, using(crate::proofs::LawLemmas::marked_lines_stay))]
pub fn marked_lines_stay()
    ensures { MarkedLinesStay }
{}

/// States that a name that is bound has the value to which it was bound, unless the name is given.
#[tactic(auto, using(crate::proofs::LawLemmas::bound_names_stand))]
pub fn bound_names_stand()
    ensures { BoundNamesStand }
{}

/// States that a name that is given has the given value, for any bindings.
#[tactic(auto, using(crate::proofs::LawLemmas::given_names_count))]
pub fn given_names_count()
    ensures { GivenNamesCount }
{}

/// States that the bindings of a round are removed once the round is left.
#[tactic(auto, using(crate::proofs::LawLemmas::rounds_are_forgotten))]
pub fn rounds_are_forgotten()
    ensures { RoundsAreForgotten }
{}
