//! The places of classes, by the places of their beginnings and endings.
ghost use Rattle.std.specs.Prelude.{◌≡◌, ◌<◌, ◌&&◌, ℕ, IfOk};
ghost use Rattle.std.specs.List.{slice_get};
ghost use Rattle.list_classes.specs.Trees.{has_place, row_at};
ghost use Rattle.list_classes.specs.Classes.{is_between, places_at};
ghost use Rattle.list_classes.specs.Rows.{has_end, has_front};

use crate::label_class::LabelClass;
use std::alloc::{AllocError, Global};

/// Returns the places of classes by the place of a beginning, and then by that of an ending. Fails if the host is out of memory.
#[tactic(auto, using(crate::proofs::RowLemmas::rows_more))]
pub(crate) fn class_rows(
    alloc: Global,
    fronts: usize,
    ends: usize,
    classes: &[LabelClass],
) -> Result<Vec<Vec<Vec<usize>>>, AllocError>
    ensures { IfOk result (λ rows. (front end place : ℕ) → front < fronts → end < ends
        → has_place (places_at rows.items front end) place
        ≡ is_between (slice_get classes.now place) front end) }
{
    let mut rows = Vec::new(alloc);
    for front in 0..fronts {
        rows.push(class_row(alloc, ends, classes, front)?)?;
    }
    Ok(rows)
}

// The places of the classes of a beginning, by the place of an ending.
#[tactic(auto, using(crate::proofs::RowLemmas::row_more))]
fn class_row(
    alloc: Global,
    ends: usize,
    classes: &[LabelClass],
    front: usize,
) -> Result<Vec<Vec<usize>>, AllocError>
    ensures { IfOk result (λ row. (end place : ℕ) → end < ends
        → has_place (row_at row.items end) place ≡ is_between (slice_get classes.now place) front end) }
{
    let among = places_of_front(alloc, classes, front)?;
    let mut row = Vec::new(alloc);
    for end in 0..ends {
        row.push(places_of_end(alloc, classes, among.as_slice(), end)?)?;
    }
    Ok(row)
}

// The places of the classes of a beginning.
#[tactic(auto, using(crate::proofs::RowLemmas::those_more, crate::proofs::RowLemmas::those_stay, crate::proofs::RowLemmas::fronts_all))]
fn places_of_front(
    alloc: Global,
    classes: &[LabelClass],
    front: usize,
) -> Result<Vec<usize>, AllocError>
    ensures { IfOk result (λ places. (place : ℕ) → has_place places.items place
        ≡ has_front (slice_get classes.now place) front) }
{
    let mut places = Vec::new(alloc);
    for place in 0..classes.len() {
        if has_front(classes, place, front) {
            places.push(place)?;
        }
    }
    Ok(places)
}

// Whether the class at a place has a beginning.
fn has_front(classes: &[LabelClass], place: usize, front: usize) -> bool
    ensures { result ≡ has_front (slice_get classes.now place) front }
{
    match classes.get(place) {
        Some(class) => class.front == front,
        None => false,
    }
}

// Of some places those of the classes of an ending.
#[tactic(auto, using(crate::proofs::RowLemmas::ends_more, crate::proofs::RowLemmas::ends_stay, crate::proofs::RowLemmas::ends_all))]
fn places_of_end(
    alloc: Global,
    classes: &[LabelClass],
    among: &[usize],
    end: usize,
) -> Result<Vec<usize>, AllocError>
    ensures { IfOk result (λ places. (place : ℕ) → has_place places.items place
        ≡ (has_place among.now place && has_end (slice_get classes.now place) end)) }
{
    let mut places = Vec::new(alloc);
    for at in 0..among.len() {
        let place = among[at];
        if has_end(classes, place, end) {
            places.push(place)?;
        }
    }
    Ok(places)
}

// Whether the class at a place has an ending.
fn has_end(classes: &[LabelClass], place: usize, end: usize) -> bool
    ensures { result ≡ has_end (slice_get classes.now place) end }
{
    match classes.get(place) {
        Some(class) => class.end == end,
        None => false,
    }
}
