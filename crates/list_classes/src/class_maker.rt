//! Classes, made of the texts that rules ask for and of the labels that rules distinguish.
ghost use Rattle.std.specs.Prelude.{◌≡◌, ◌<◌, ◌+◌, List, ℕ, length, true, false, IfOk, OnOk};
ghost use Rattle.list_labels.specs.Asked.{is_given};
ghost use Rattle.list_labels.specs.KnownLabels.{is_among};
ghost use Rattle.list_classes.specs.Making.{AreGiven, AreMade, AreMadeBefore, AreSingle, HaveSeveral, has_several, has_single};

use crate::class_parts::ClassParts;
use crate::label_class::LabelClass;
use crate::witness::TextPair;
use list_labels::ClientLabel;
use std::alloc::{AllocError, Global};

/// Returns the classes of known labels, after those of all other labels by their beginnings and endings. Fails if the host is out of
/// memory.
pub(crate) fn classes_of(
    alloc: Global,
    parts: ClassParts<'_>,
) -> Result<Vec<LabelClass>, AllocError>
    requires given { AreGiven parts.known.now }
    ensures made { IfOk result (λ classes.
        AreMade parts.entry.fronts.now parts.entry.ends.now parts.entry.known.now classes.items) }
    ensures several { IfOk result (λ classes.
        HaveSeveral parts.entry.fronts.now parts.entry.ends.now parts.entry.known.now classes.items) }
    ensures single { IfOk result (λ classes. AreSingle parts.entry.known.now classes.items) }
{
    let mut classes = several_of(alloc, parts)?;
    add_ones(&mut classes, parts)?;
    Ok(classes)
}

// The classes of several labels.
#[tactic(auto, using(crate::proofs::MakingLemmas::none_made, crate::proofs::MakingLemmas::all_made))]
fn several_of(alloc: Global, parts: ClassParts<'_>) -> Result<Vec<LabelClass>, AllocError>
    ensures made { IfOk result (λ classes.
        AreMade parts.entry.fronts.now parts.entry.ends.now parts.entry.known.now classes.items) }
    ensures several { IfOk result (λ classes.
        HaveSeveral parts.entry.fronts.now parts.entry.ends.now parts.entry.known.now classes.items) }
{
    let mut classes = Vec::new(alloc);
    for front in 0..parts.fronts.len() {
        add_row(&mut classes, parts, front)?;
    }
    Ok(classes)
}

// Adds the classes of a beginning with each ending.
#[tactic(auto, using(crate::proofs::MakingLemmas::row_done))]
fn add_row(
    classes: &mut Vec<LabelClass>,
    parts: ClassParts<'_>,
    front: usize,
) -> Result<(), AllocError>
    requires front { front < length parts.fronts.now.texts.items }
    requires made { AreMadeBefore parts.fronts.now parts.ends.now parts.known.now front 0
        classes.old.items }
    ensures { OnOk result (AreMadeBefore parts.entry.fronts.now parts.entry.ends.now
        parts.entry.known.now (front + 1) 0 classes.new.items) }
{
    for end in 0..parts.ends.len() {
        add_pair(classes, parts, front, end)?;
    }
    Ok(())
}

// Adds the class of a beginning with an ending, if it has a label.
#[tactic(auto, using(crate::proofs::MakingLemmas::pair_added, crate::proofs::MakingLemmas::pair_none))]
fn add_pair(
    classes: &mut Vec<LabelClass>,
    parts: ClassParts<'_>,
    front: usize,
    end: usize,
) -> Result<(), AllocError>
    requires front { front < length parts.fronts.now.texts.items }
    requires end { end < length parts.ends.now.texts.items }
    requires made { AreMadeBefore parts.fronts.now parts.ends.now parts.known.now front end
        classes.old.items }
    ensures { OnOk result (AreMadeBefore parts.entry.fronts.now parts.entry.ends.now
        parts.entry.known.now front (end + 1) classes.new.items) }
{
    let pair = TextPair { parts, front, end };
    if let Some(witness) = pair.witness() {
        classes.push(LabelClass {
            front,
            end,
            is_one: false,
            witness,
        })?;
    }
    Ok(())
}

// Adds the classes of known labels.
#[tactic(auto, using(crate::proofs::MakingLemmas::single_more, crate::proofs::MakingLemmas::single_all, crate::proofs::MakingLemmas::known_among))]
fn add_ones(classes: &mut Vec<LabelClass>, parts: ClassParts<'_>) -> Result<(), AllocError>
    requires given { AreGiven parts.known.now }
    requires made { AreMade parts.fronts.now parts.ends.now parts.known.now classes.old.items }
    ensures made { OnOk result (AreMade parts.entry.fronts.now parts.entry.ends.now
        parts.entry.known.now classes.new.items) }
    ensures several { OnOk result ((front end : ℕ) → has_several classes.old.items front end ≡ true
        → has_several classes.new.items front end ≡ true) }
    ensures single { OnOk result (AreSingle parts.entry.known.now classes.new.items) }
{
    for place in 0..parts.known.len() {
        add_one(classes, parts, &parts.known[place])?;
    }
    Ok(())
}

// Adds the class of a known label, unless it is there.
#[tactic(auto, using(crate::proofs::MakingLemmas::one_added, crate::proofs::MakingLemmas::several_stays, crate::proofs::MakingLemmas::single_stays, crate::proofs::MakingLemmas::single_there))]
fn add_one(
    classes: &mut Vec<LabelClass>,
    parts: ClassParts<'_>,
    label: &ClientLabel,
) -> Result<(), AllocError>
    requires known { is_among parts.known.now label.now ≡ true }
    requires given { is_given label.now ≡ true }
    requires made { AreMade parts.fronts.now parts.ends.now parts.known.now classes.old.items }
    ensures made { OnOk result (AreMade parts.entry.fronts.now parts.entry.ends.now
        parts.entry.known.now classes.new.items) }
    ensures several { OnOk result ((front end : ℕ) → has_several classes.old.items front end ≡ true
        → has_several classes.new.items front end ≡ true) }
    ensures stays { OnOk result ((other : List ℕ) → has_single classes.old.items other ≡ true
        → has_single classes.new.items other ≡ true) }
    ensures there { OnOk result (has_single classes.new.items label.now ≡ true) }
{
    if has_single(classes, label.as_bytes()) {
        return Ok(());
    }
    let Some(witness) = ClientLabel::read(label.as_bytes()) else {
        return Ok(());
    };
    classes.push(LabelClass {
        front: parts.fronts.place_of(label.as_bytes()),
        end: parts.ends.place_of(label.as_bytes()),
        is_one: true,
        witness,
    })?;
    Ok(())
}

// Whether a label is a class by itself.
fn has_single(classes: &[LabelClass], label: &[u8]) -> bool
    ensures { result ≡ has_single classes.now label.now }
{
    classes
        .iter()
        .any(|class| class.is_one && class.witness.as_bytes() == label)
}
