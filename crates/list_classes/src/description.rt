//! A set of classes in words: the fewest shapes that are found, the wider ones first.
ghost use Rattle.std.specs.Prelude.{◌≡◌, ℕ, ◌<◌, ◌≤◌, ◌&&◌, ◌||◌, ◌++◌, ◌∷◌, [], List, true, false, length, nat_eq, replicate, All, IfOk, OnOk};
ghost use Rattle.std.specs.List.{list_all, list_any};
ghost use Rattle.list_labels.specs.LabelSets.{has_label, is_in, set_has};
ghost use Rattle.list_classes.specs.Trees.{has_place};
ghost use Rattle.list_classes.specs.Parts.{AreExceptions, AreMarks, IsPart, ServeAll, covers, has_any_pattern, has_pattern_at, is_below, is_for_ends, is_in_part, is_inside, is_served, is_within, is_within_any};
ghost use Rattle.list_classes.specs.Described.{AreWhole, IsUnionOf};

use crate::class_part::ClassPart;
use crate::label_class::LabelClass;
use crate::label_classes::LabelClasses;
use list_labels::{ClientLabel, LabelSet, Pattern, Shape};
use std::alloc::{AllocError, Global};

/// Returns the set of the labels of some classes: those at whose places `inside` is true. Fails if the host is out of memory.
pub fn described(
    alloc: Global,
    classes: &LabelClasses,
    inside: &[bool],
) -> Result<LabelSet, AllocError>
    ensures { IfOk result (λ set. AreWhole classes.now → IsUnionOf classes.now inside.now set) }
{
    if is_whole(classes, inside) {
        return whole_set(alloc);
    }
    let set = ClassSet { classes, inside };
    let mut parts = set.search(alloc)?;
    set.complete(alloc, &mut parts)?;
    set.shapes(alloc, parts.as_slice())
}

// Whether all classes are inside.
fn is_whole(classes: &LabelClasses, inside: &[bool]) -> bool
    ensures { result ≡ true → (place : ℕ) → place < length classes.now.classes.items
        → is_inside inside.now place ≡ true }
{
    classes.as_slice().len() <= inside.len() && inside.iter().all(|one| *one)
}

// The set of all labels.
fn whole_set(alloc: Global) -> Result<LabelSet, AllocError>
    ensures { IfOk result (λ set. (label : List ℕ) → set_has set label ≡ true) }
{
    let mut shapes = Vec::new(alloc);
    let all = Pattern::Between(ClientLabel::empty(), ClientLabel::empty());
    shapes.push(Shape::new(all, Vec::new(alloc)))?;
    Ok(LabelSet::new(shapes))
}

// Classes, and which of them are inside.
#[derive(Clone, Copy)]
struct ClassSet<'a> {
    classes: &'a LabelClasses,
    inside: &'a [bool],
}

impl ClassSet<'_> {
    // Finds few parts that have the classes inside. Those without exceptions are first; one of them whose classes other parts
    // have is left out.
    fn search(&self, alloc: Global) -> Result<Vec<ClassPart>, AllocError>
        ensures { IfOk result (λ parts. All (IsPart self.now.classes.now self.now.inside.now) parts.items) }
    {
        let mut covers = vec![in alloc; 0; self.inside.len()]?;
        let pure = self.cover(alloc, &mut covers, false)?;
        let broken = self.cover(alloc, &mut covers, true)?;
        let mut parts = Vec::new(alloc);
        for place in pure.as_slice() {
            if !self.drop_if_covered(alloc, &mut covers, *place)? {
                self.add_own(alloc, &mut parts, *place)?;
            }
        }
        for place in broken.as_slice() {
            self.add_own(alloc, &mut parts, *place)?;
        }
        Ok(parts)
    }

    // Adds the part for a class.
    fn add_own(
        &self,
        alloc: Global,
        parts: &mut Vec<ClassPart>,
        place: usize,
    ) -> Result<(), AllocError>
        ensures { OnOk result (All (IsPart self.now.classes.now self.now.inside.now) parts.old.items
            → All (IsPart self.now.classes.now self.now.inside.now) parts.new.items) }
    {
        parts.push(self.part(alloc, place)?)?;
        Ok(())
    }

    // Adds a part for each class inside that no part has: for those of one label.
    #[tactic(auto, using(crate::proofs::PartLemmas::covers_serves))]
    fn complete(&self, alloc: Global, parts: &mut Vec<ClassPart>) -> Result<(), AllocError>
        ensures parts { OnOk result (All (IsPart self.now.classes.now self.now.inside.now) parts.old.items
            → All (IsPart self.now.classes.now self.now.inside.now) parts.new.items) }
        ensures all { OnOk result (ServeAll self.now.classes.now self.now.inside.now parts.new.items) }
    {
        let covered = self.covered(alloc, parts.as_slice())?;
        for place in 0..self.inside.len() {
            self.add_missing(alloc, parts, covered.as_slice(), place)?;
        }
        Ok(())
    }

    // Adds a part for a class if it is inside and no part has it.
    #[tactic(auto, using(crate::proofs::PartLemmas::serves_more, crate::proofs::PartLemmas::serves_last))]
    fn add_missing(
        &self,
        alloc: Global,
        parts: &mut Vec<ClassPart>,
        covered: &[bool],
        place: usize,
    ) -> Result<(), AllocError>
        ensures parts { OnOk result (All (IsPart self.now.classes.now self.now.inside.now) parts.old.items
            → All (IsPart self.now.classes.now self.now.inside.now) parts.new.items) }
        ensures stay { OnOk result ((other : ℕ) → is_served self.now.classes.now other parts.old.items ≡ true
            → is_served self.now.classes.now other parts.new.items ≡ true) }
        ensures served { OnOk result (is_inside self.now.inside.now place ≡ true
            → (is_inside covered.now place ≡ true
            → is_served self.now.classes.now place parts.old.items ≡ true)
            → is_served self.now.classes.now place parts.new.items ≡ true) }
    {
        if !is_true(self.inside, place) {
            return Ok(());
        }
        if is_true(covered, place) {
            return Ok(());
        }
        parts.push(self.part(alloc, place)?)?;
        Ok(())
    }

    // The part for a class, with the exceptions that it needs.
    fn part(&self, alloc: Global, place: usize) -> Result<ClassPart, AllocError>
        ensures part { IfOk result (IsPart self.now.classes.now self.now.inside.now) }
        ensures place { IfOk result (λ part. part.place ≡ place) }
    {
        let within = self.places_in(alloc, place)?;
        let except = self.exceptions(alloc, within.as_slice())?;
        Ok(ClassPart { place, except })
    }

    // Finds parts for the classes of several labels that no part has so far: parts without exceptions, or any. Returns the
    // places of the classes whose parts they are.
    fn cover(
        &self,
        alloc: Global,
        covers: &mut Vec<usize>,
        with_exceptions: bool,
    ) -> Result<Vec<usize>, AllocError> {
        let mut found = Vec::new(alloc);
        for (place, class) in self.classes.as_slice().iter().enumerate() {
            let has_part = class.is_one || number_at(covers.as_slice(), place) > 0;
            if is_true(self.inside, place) && !has_part {
                let within = self.places_in(alloc, place)?;
                let are_inside = within.iter().all(|other| is_true(self.inside, *other));
                if with_exceptions || are_inside {
                    let except = self.exceptions(alloc, within.as_slice())?;
                    self.count(alloc, covers, within.as_slice(), except.as_slice())?;
                    found.push(place)?;
                }
            }
        }
        Ok(found)
    }

    // The places of the classes with the beginning and the ending of a class, and of a class of one label its own.
    fn places_in(&self, alloc: Global, place: usize) -> Result<Vec<usize>, AllocError>
        ensures { IfOk result (λ places. (other : ℕ) → has_place places.items other
            ≡ is_within self.now.classes.now place other) }
    {
        let mut places = Vec::new(alloc);
        if let Some(class) = self.classes.as_slice().get(place) {
            if class.is_one {
                places.push(place)?;
            } else {
                self.add_below(&mut places, class)?;
            }
        }
        Ok(places)
    }

    // Adds the places of the classes with a beginning and an ending below those of a class.
    fn add_below(&self, places: &mut Vec<usize>, class: &LabelClass) -> Result<(), AllocError>
        ensures { OnOk result ((other : ℕ) → has_place places.new.items other
            ≡ (has_place places.old.items other || is_below self.now.classes.now class.now other)) }
    {
        let ends = self.classes.ends_below(class);
        for front in self.classes.fronts_below(class) {
            self.add_ends(places, *front, ends)?;
        }
        Ok(())
    }

    // Adds the places of the classes with a beginning and one of some endings.
    fn add_ends(
        &self,
        places: &mut Vec<usize>,
        front: usize,
        ends: &[usize],
    ) -> Result<(), AllocError>
        ensures { OnOk result ((other : ℕ) → has_place places.new.items other
            ≡ (has_place places.old.items other || is_for_ends self.now.classes.now front other ends.now)) }
    {
        for end in ends {
            places.extend_from_slice(self.classes.at(front, *end))?;
        }
        Ok(())
    }

    // Of some classes those that aren't inside, without those within earlier ones.
    #[tactic(auto, using(crate::proofs::PartLemmas::no_exceptions, crate::proofs::PartLemmas::no_marks, crate::proofs::PartLemmas::except_step))]
    fn exceptions(&self, alloc: Global, within: &[usize]) -> Result<Vec<usize>, AllocError>
        ensures { IfOk result (λ except. AreExceptions self.now.classes.now self.now.inside.now within.now
            except.items) }
    {
        let mut found = Vec::new(alloc);
        let mut marks = marks_of(alloc, self.inside.len())?;
        for place in within {
            self.add_exception(alloc, &mut found, &mut marks, *place)?;
        }
        Ok(found)
    }

    // Adds a class to exceptions, unless it is inside, or within one of these.
    #[tactic(auto, using(crate::proofs::PartLemmas::inside_known, crate::proofs::PartLemmas::marked_known, crate::proofs::PartLemmas::except_more, crate::proofs::PartLemmas::marks_more))]
    fn add_exception(
        &self,
        alloc: Global,
        found: &mut Vec<usize>,
        marks: &mut Vec<bool>,
        place: usize,
    ) -> Result<(), AllocError>
        ensures found { OnOk result ((seen : List ℕ)
            → AreExceptions self.now.classes.now self.now.inside.now seen found.old.items
            → AreMarks self.now.classes.now found.old.items marks.old.items
            → AreExceptions self.now.classes.now self.now.inside.now (seen ++ place ∷ []) found.new.items) }
        ensures marks { OnOk result (AreMarks self.now.classes.now found.old.items marks.old.items
            → AreMarks self.now.classes.now found.new.items marks.new.items) }
    {
        if is_true(self.inside, place) {
            return Ok(());
        }
        if is_true(marks.as_slice(), place) {
            return Ok(());
        }
        found.push(place)?;
        self.add_marks(alloc, marks, place)?;
        Ok(())
    }

    // Marks the classes within a class.
    fn add_marks(
        &self,
        alloc: Global,
        marks: &mut Vec<bool>,
        place: usize,
    ) -> Result<(), AllocError>
        ensures size { OnOk result (length marks.new.items ≡ length marks.old.items) }
        ensures marks { OnOk result ((other : ℕ) → other < length marks.old.items
            → is_inside marks.new.items other
            ≡ (is_inside marks.old.items other || is_within self.now.classes.now place other)) }
    {
        let within = self.places_in(alloc, place)?;
        for other in within.as_slice() {
            mark(marks, *other);
        }
        Ok(())
    }

    // Marks of the classes that parts have.
    fn covered(&self, alloc: Global, parts: &[ClassPart]) -> Result<Vec<bool>, AllocError>
        ensures { IfOk result (λ covered. (other : ℕ) → is_inside covered.items other ≡ true
            → list_any (covers self.now.classes.now other) parts.now ≡ true) }
    {
        let mut covered = marks_of(alloc, self.inside.len())?;
        for place in 0..parts.len() {
            self.add_part(alloc, &mut covered, &parts[place])?;
        }
        Ok(covered)
    }

    // Marks the classes that a part has.
    fn add_part(
        &self,
        alloc: Global,
        covered: &mut Vec<bool>,
        part: &ClassPart,
    ) -> Result<(), AllocError>
        ensures size { OnOk result (length covered.new.items ≡ length covered.old.items) }
        ensures marks { OnOk result ((other : ℕ) → is_inside covered.new.items other ≡ true
            → (is_inside covered.old.items other || covers self.now.classes.now other part.now) ≡ true) }
    {
        let within = self.places_in(alloc, part.place)?;
        let marks = self.marks(alloc, covered.len(), part.except.as_slice())?;
        for other in within.as_slice() {
            if !is_true(marks.as_slice(), *other) {
                mark(covered, *other);
            }
        }
        Ok(())
    }

    // Marks of the classes within some classes.
    fn marks(&self, alloc: Global, size: usize, places: &[usize]) -> Result<Vec<bool>, AllocError>
        ensures { IfOk result (λ marks. (other : ℕ) → other < size → is_inside marks.items other
            ≡ is_within_any self.now.classes.now places.now other) }
    {
        let mut marks = marks_of(alloc, size)?;
        for place in places {
            self.add_marks(alloc, &mut marks, *place)?;
        }
        Ok(marks)
    }

    // Counts a part of some classes with exceptions.
    fn count(
        &self,
        alloc: Global,
        covers: &mut Vec<usize>,
        within: &[usize],
        except: &[usize],
    ) -> Result<(), AllocError> {
        let marks = self.marks(alloc, self.inside.len(), except)?;
        for place in within {
            if let Some(number) = covers.get_mut(*place) {
                if !is_true(marks.as_slice(), *place) {
                    *number = number.saturating_add(1);
                }
            }
        }
        Ok(())
    }

    // Drops a part without exceptions if other parts have all its classes, and returns whether it did.
    fn drop_if_covered(
        &self,
        alloc: Global,
        covers: &mut Vec<usize>,
        place: usize,
    ) -> Result<bool, AllocError> {
        let within = self.places_in(alloc, place)?;
        for other in within.as_slice() {
            if number_at(covers.as_slice(), *other) < 2 {
                return Ok(false);
            }
        }
        for other in within.as_slice() {
            if let Some(number) = covers.get_mut(*other) {
                *number = number.saturating_sub(1);
            }
        }
        Ok(true)
    }

    // The set of the labels of some parts.
    fn shapes(&self, alloc: Global, parts: &[ClassPart]) -> Result<LabelSet, AllocError>
        ensures { IfOk result (λ set. (label : List ℕ) → set_has set label
            ≡ list_any (is_in_part self.now.classes.now label) parts.now) }
    {
        let mut shapes = Vec::new(alloc);
        for place in 0..parts.len() {
            self.add_shape(alloc, &mut shapes, &parts[place])?;
        }
        Ok(LabelSet::new(shapes))
    }

    // Adds the shape of a part: its pattern with exceptions.
    fn add_shape(
        &self,
        alloc: Global,
        shapes: &mut Vec<Shape>,
        part: &ClassPart,
    ) -> Result<(), AllocError>
        ensures { OnOk result ((label : List ℕ) → list_any (is_in label) shapes.new.items
            ≡ (list_any (is_in label) shapes.old.items || is_in_part self.now.classes.now label part.now)) }
    {
        if let Some(class) = self.classes.as_slice().get(part.place) {
            let except = self.patterns(alloc, class, part.except.as_slice())?;
            shapes.push(Shape::new(self.classes.pattern(class, 0, 0), except))?;
        }
        Ok(())
    }

    // The patterns of classes within a class.
    fn patterns(
        &self,
        alloc: Global,
        class: &LabelClass,
        places: &[usize],
    ) -> Result<Vec<Pattern>, AllocError>
        ensures { IfOk result (λ patterns. (label : List ℕ) → list_any (has_label label) patterns.items
            ≡ has_any_pattern self.now.classes.now class.now.front class.now.end label places.now) }
    {
        let mut patterns = Vec::new(alloc);
        for place in places {
            self.add_pattern(&mut patterns, class, *place)?;
        }
        Ok(patterns)
    }

    // Adds the pattern of a class within a class.
    fn add_pattern(
        &self,
        patterns: &mut Vec<Pattern>,
        class: &LabelClass,
        place: usize,
    ) -> Result<(), AllocError>
        ensures { OnOk result ((label : List ℕ) → list_any (has_label label) patterns.new.items
            ≡ (list_any (has_label label) patterns.old.items
            || has_pattern_at self.now.classes.now class.now.front class.now.end label place)) }
    {
        if let Some(other) = self.classes.as_slice().get(place) {
            patterns.push(self.classes.pattern(other, class.front, class.end))?;
        }
        Ok(())
    }
}

// Whether it is true at a place.
fn is_true(inside: &[bool], place: usize) -> bool
    ensures { result ≡ is_inside inside.now place }
{
    match inside.get(place) {
        Some(is_inside) => *is_inside,
        None => false,
    }
}

// Marks a place.
fn mark(marks: &mut Vec<bool>, place: usize)
    ensures size { length marks.new.items ≡ length marks.old.items }
    ensures marks { (other : ℕ) → other < length marks.old.items → is_inside marks.new.items other
        ≡ (is_inside marks.old.items other || nat_eq other place) }
{
    if place < marks.len() {
        marks[place] = true;
    }
}

// So many places without a mark.
fn marks_of(alloc: Global, size: usize) -> Result<Vec<bool>, AllocError>
    ensures { IfOk result (λ marks. marks.items ≡ replicate size false) }
{
    vec![in alloc; false; size]
}

// The number at a place, or 0.
fn number_at(numbers: &[usize], place: usize) -> usize {
    match numbers.get(place) {
        Some(number) => *number,
        None => 0,
    }
}
