//! Theorems about every line of the friendly form.
ghost use Rattle.line_friendly.specs.Theorems.{CallsAreCalls};

/// States that the engine's line of a line without a leading `!` is a call of the engine's grammar, or has the expected reply
/// `Bad_line`.
#[tactic(auto, using(crate::proofs::LawLemmas::calls_are_calls))]
pub fn calls_are_calls()
    ensures { CallsAreCalls }
{}
