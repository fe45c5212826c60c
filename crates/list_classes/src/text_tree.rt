//! Beginnings or endings of labels, each with those that contain it.
ghost use Rattle.std.specs.Prelude.{◌≡◌, ◌↔◌, ℕ, ◌<◌, ◌≤◌, ◌&&◌, List, [], true, false, not, length, nat_eq, slice_index_or, IfOk, OnOk};
ghost use Rattle.std.specs.List.{list_any};
ghost use Rattle.std.specs.Str.{bytes_eq};
ghost use Rattle.list_labels.specs.KnownLabels.{is_among};
ghost use Rattle.list_classes.specs.Trees.{AreBelow, AreTexts, IsLongest, IsTree, has_at, has_place, row_at, text_at};

use list_labels::{ClientLabel, LONGEST_GIVEN};
use std::alloc::{AllocError, Global};

/// Which end of a label a text is.
#[derive(Clone, Copy)]
pub(crate) enum LabelSide {
    /// A beginning.
    Front,
    /// An ending.
    End,
}

impl LabelSide {
    /// Returns whether a label has a text at this side.
    pub(crate) fn has(self, label: &[u8], text: &[u8]) -> bool
        ensures { result ≡ has_at self label.now text.now }
    {
        match self {
            LabelSide::Front => label.starts_with(text),
            LabelSide::End => label.ends_with(text),
        }
    }
}

/// Texts of one side, each once, the shorter ones first. The first one is empty.
#[derive(Drop)]
pub(crate) struct TextTree {
    side: LabelSide,
    texts: Vec<ClientLabel>,
    // Of each text the places of those that have it at the same side, and first of all its own.
    below: Vec<Vec<usize>>,
    ghost formed: { IsTree side texts.items below.items },
}

impl TextTree {
    /// Returns the tree of some texts at one side of labels. Fails if the host is out of memory.
    pub(crate) fn of(
        alloc: Global,
        side: LabelSide,
        given: &[ClientLabel],
    ) -> Result<TextTree, AllocError>
        ensures side { IfOk result (λ tree. tree.side ≡ side) }
        ensures given { IfOk result (λ tree. (k : ℕ) → k < length given.now
            → is_among tree.texts.items (slice_index_or given.now k []) ≡ true) }
    {
        let texts = texts_of(alloc, given)?;
        let below = rows_of(alloc, side, texts.as_slice())?;
        Ok(TextTree { side, texts, below })
    }

    /// Returns the number of texts, the empty one included.
    pub(crate) fn len(&self) -> usize
        ensures { result ≡ length self.now.texts.items }
    {
        self.texts.len()
    }

    /// Returns the text at a place, or the empty one.
    pub(crate) fn text(&self, place: usize) -> &[u8]
        ensures text { result.now ≡ text_at self.now.texts.items place }
        ensures short { length result.now ≤ 64 }
    {
        match self.texts.as_slice().get(place) {
            Some(text) => text.as_bytes(),
            None => &[],
        }
    }

    /// Returns a copy of the text at a place, or the empty one.
    pub(crate) fn label(&self, place: usize) -> ClientLabel
        ensures { result ≡ text_at self.now.texts.items place }
    {
        match self.texts.as_slice().get(place) {
            Some(text) => text.copy(),
            None => ClientLabel::empty(),
        }
    }

    /// Returns the places of the texts that have the text at a place at the same side, and first of all its own.
    pub(crate) fn below(&self, place: usize) -> &[usize]
        ensures { result.now ≡ row_at self.now.below.items place }
    {
        match self.below.as_slice().get(place) {
            Some(places) => places.as_slice(),
            None => &[],
        }
    }

    /// Returns whether a label has a longer text at this side that has the text at a place there.
    pub(crate) fn goes_below(&self, place: usize, label: &[u8]) -> bool
        ensures { result ≡ list_any (λ other. not (nat_eq other place)
            && has_at self.now.side label.now (text_at self.now.texts.items other))
            (row_at self.now.below.items place) }
    {
        self.below(place).iter().any(|other| *other != place
            && self.side.has(label, self.text(*other)))
    }

    /// Returns whether the text at a place is the longest one that a label has at this side.
    pub(crate) fn is_longest(&self, place: usize, label: &[u8]) -> bool
        ensures { (result ≡ true) ↔ IsLongest self.now.side self.now.texts.items label.now place }
    {
        if self.texts.len() <= place {
            return false;
        }
        self.side.has(label, self.text(place)) && !self.goes_below(place, label)
    }

    /// Returns the place of the longest text that a label has at this side.
    pub(crate) fn place_of(&self, label: &[u8]) -> usize
        ensures { IsLongest self.now.side self.now.texts.items label.now result }
    {
        let mut found = 0;
        for place in 0..self.texts.len() {
            let text = self.text(place);
            if self.side.has(label, text) && self.text(found).len() <= text.len() {
                found = place;
            }
        }
        found
    }
}

// The texts of some labels, each once, the shorter ones first, and first of all the empty one.
fn texts_of(alloc: Global, given: &[ClientLabel]) -> Result<Vec<ClientLabel>, AllocError>
    ensures once { IfOk result (λ texts. AreTexts texts.items) }
    ensures given { IfOk result (λ texts. (k : ℕ) → k < length given.now
        → is_among texts.items (slice_index_or given.now k []) ≡ true) }
{
    let mut texts = Vec::new(alloc);
    texts.push(ClientLabel::empty())?;
    for size in 1..LONGEST_GIVEN + 1 {
        add_new(&mut texts, given, size)?;
    }
    Ok(texts)
}

// Adds the texts of a length that aren't there.
fn add_new(
    texts: &mut Vec<ClientLabel>,
    given: &[ClientLabel],
    size: usize,
) -> Result<(), AllocError>
    ensures once { OnOk result (AreTexts texts.old.items → AreTexts texts.new.items) }
    ensures stays { OnOk result ((text : List ℕ) → is_among texts.old.items text ≡ true
        → is_among texts.new.items text ≡ true) }
    ensures short { OnOk result ((k : ℕ) → k < length given.now
        → length (slice_index_or given.now k []) ≤ 64) }
    ensures added { OnOk result ((k : ℕ) → k < length given.now
        → length (slice_index_or given.now k []) ≡ size
        → is_among texts.new.items (slice_index_or given.now k []) ≡ true) }
{
    for place in 0..given.len() {
        add_sized(texts, &given[place], size)?;
    }
    Ok(())
}

// Adds a text, if it has a length and isn't there.
#[tactic(auto, using(crate::proofs::TreeLemmas::texts_more, crate::proofs::TreeLemmas::among_more, crate::proofs::TreeLemmas::among_last))]
fn add_sized(
    texts: &mut Vec<ClientLabel>,
    text: &ClientLabel,
    size: usize,
) -> Result<(), AllocError>
    ensures once { OnOk result (AreTexts texts.old.items → AreTexts texts.new.items) }
    ensures stays { OnOk result ((other : List ℕ) → is_among texts.old.items other ≡ true
        → is_among texts.new.items other ≡ true) }
    ensures short { OnOk result (length text.now ≤ 64) }
    ensures added { OnOk result (length text.now ≡ size → is_among texts.new.items text.now ≡ true) }
{
    let bytes = text.as_bytes();
    if bytes.len() == size && !has_text(texts, bytes) {
        texts.push(text.copy())?;
    }
    Ok(())
}

/// Returns whether a text is one of some labels.
pub(crate) fn has_text(texts: &[ClientLabel], text: &[u8]) -> bool
    ensures { result ≡ is_among texts.now text.now }
{
    texts.iter().any(|other| other.as_bytes() == text)
}

// Of each text the places of those that have it at a side.
fn rows_of(
    alloc: Global,
    side: LabelSide,
    texts: &[ClientLabel],
) -> Result<Vec<Vec<usize>>, AllocError>
    ensures { IfOk result (λ rows. AreBelow side texts.now rows.items) }
{
    let mut rows = Vec::new(alloc);
    for place in 0..texts.len() {
        rows.push(places_below(alloc, side, texts, texts[place].as_bytes())?)?;
    }
    Ok(rows)
}

// The places of the texts that have a text at a side. Longer ones have later places.
fn places_below(
    alloc: Global,
    side: LabelSide,
    texts: &[ClientLabel],
    text: &[u8],
) -> Result<Vec<usize>, AllocError>
    ensures within { IfOk result (λ places. (other : ℕ) → has_place places.items other ≡ true
        → other < length texts.now) }
    ensures below { IfOk result (λ places. (other : ℕ) → other < length texts.now
        → has_place places.items other ≡ has_at side (slice_index_or texts.now other []) text.now) }
{
    let mut places = Vec::new(alloc);
    for place in 0..texts.len() {
        if side.has(texts[place].as_bytes(), text) {
            places.push(place)?;
        }
    }
    Ok(places)
}
