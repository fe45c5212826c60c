//! Theorems about every scenario.
ghost use Rattle.line_rounds.specs.Theorems.{PlainTextsStay};

/// States that a text in which no line begins with `@` is its own unfolding.
#[tactic(auto, using(crate::proofs::LawLemmas::plain_texts_stay))]
pub fn plain_texts_stay()
    ensures { PlainTextsStay }
{}
