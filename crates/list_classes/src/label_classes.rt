//! Classes of labels: no rule separates two labels of a class. A class is one label that a rule distinguishes. Or it is all other
//! labels with the same longest beginning and the same longest ending that rules ask for.
ghost use Rattle.std.specs.Prelude.{◌≡◌, List, ℕ, Option, true, IfOk};
ghost use Rattle.list_labels.specs.KnownLabels.{is_among};
ghost use Rattle.list_labels.specs.LabelRanges.{AskedLabel};
ghost use Rattle.list_labels.specs.declared.session_requests.SessionRequests.{SessionRequests};
ghost use Rattle.list_classes.specs.Trees.{row_at};
ghost use Rattle.list_classes.specs.Classes.{places_at};
ghost use Rattle.list_classes.specs.Described.{AreWhole, KeepRange, RouteAlike};
ghost use Rattle.list_classes.specs.Making.{AreGiven, HaveAsked};
ghost use Rattle.list_classes.specs.Parts.{pattern_of, text_unless};

use crate::asked_texts::{AskedTexts, asked_texts};
use crate::class_maker::classes_of;
use crate::class_parts::ClassParts;
use crate::class_rows::class_rows;
use crate::label_class::LabelClass;
use crate::text_tree::{LabelSide, TextTree};
use list_labels::{ClientLabel, LabelCondition, Pattern, SessionRequests};
use std::alloc::{AllocError, Global};

/// The classes of all labels that can be given, each with a label.
#[derive(Drop)]
pub struct LabelClasses {
    fronts: TextTree,
    ends: TextTree,
    classes: Vec<LabelClass>,
    // By the place of a beginning, and then by that of an ending, the places of the classes.
    at: Vec<Vec<Vec<usize>>>,
}

impl LabelClasses {
    /// Returns the classes of labels that neither a rule for the requests on either list separates nor a range: on each list,
    /// requests with labels of one class are routed alike, all or none of the labels of a class match the range, and each label is
    /// of one class. Fails if the host is out of memory.
    pub fn of(
        alloc: Global,
        range: &LabelCondition,
        one: Option<SessionRequests<'_>>,
        other: Option<SessionRequests<'_>>,
    ) -> Result<LabelClasses, AllocError>
        ensures whole { IfOk result AreWhole }
        ensures one { IfOk result (RouteAlike one.entry) }
        ensures other { IfOk result (RouteAlike other.entry) }
        ensures range { IfOk result (KeepRange range.now) }
    {
        let texts = asked_texts(alloc, range, one, other)?;
        LabelClasses::of_texts(alloc, &texts)
    }

    // The classes of known labels, and of all others by some beginnings and endings.
    fn of_texts(alloc: Global, texts: &AskedTexts) -> Result<LabelClasses, AllocError>
        requires given { AreGiven texts.now.known.items }
        ensures whole { IfOk result AreWhole }
        ensures alike { IfOk result (λ classes. (wishes : Option SessionRequests)
            → HaveAsked wishes texts.now.fronts.items texts.now.ends.items texts.now.known.items
            → RouteAlike wishes classes) }
        ensures range { IfOk result (λ classes. (range : AskedLabel)
            → is_among texts.now.fronts.items range.front ≡ true
            → is_among texts.now.ends.items range.end ≡ true → KeepRange range classes) }
    {
        let fronts = tree_of(alloc, LabelSide::Front, texts.fronts.as_slice())?;
        let ends = tree_of(alloc, LabelSide::End, texts.ends.as_slice())?;
        let parts = ClassParts {
            fronts: &fronts,
            ends: &ends,
            known: texts.known.as_slice(),
        };
        let classes = classes_of(alloc, parts)?;
        let at = class_rows(alloc, fronts.len(), ends.len(), classes.as_slice())?;
        Ok(LabelClasses {
            fronts,
            ends,
            classes,
            at,
        })
    }

    /// Returns the classes. One of all labels of a beginning and an ending is after those of shorter ones.
    pub fn as_slice(&self) -> &[LabelClass]
        ensures { result.now ≡ self.now.classes.items }
    {
        self.classes.as_slice()
    }

    /// Returns the places of the beginnings that begin as a class does.
    pub(crate) fn fronts_below(&self, class: &LabelClass) -> &[usize]
        ensures { result.now ≡ row_at self.now.fronts.below.items class.now.front }
    {
        self.fronts.below(class.front)
    }

    /// Returns the places of the endings that end as a class does.
    pub(crate) fn ends_below(&self, class: &LabelClass) -> &[usize]
        ensures { result.now ≡ row_at self.now.ends.below.items class.now.end }
    {
        self.ends.below(class.end)
    }

    /// Returns the places of the classes of a beginning and an ending.
    pub(crate) fn at(&self, front: usize, end: usize) -> &[usize]
        ensures { result.now ≡ places_at self.now.at.items front end }
    {
        match self.at.as_slice().get(front) {
            Some(row) => match row.as_slice().get(end) {
                Some(places) => places.as_slice(),
                None => &[],
            },
            None => &[],
        }
    }

    /// Returns the pattern of a class, without the beginning and the ending at two places: of a class within another one those of
    /// the other one.
    pub(crate) fn pattern(&self, class: &LabelClass, front: usize, end: usize) -> Pattern
        ensures { result ≡ pattern_of self.now front end class.now }
    {
        if class.is_one {
            return Pattern::Exactly(class.witness.copy());
        }
        Pattern::Between(
            text_unless(&self.fronts, class.front, front),
            text_unless(&self.ends, class.end, end),
        )
    }
}

// The tree of some texts.
#[tactic(auto, using(crate::proofs::ClassLemmas::tree_has))]
fn tree_of(alloc: Global, side: LabelSide, given: &[ClientLabel]) -> Result<TextTree, AllocError>
    ensures side { IfOk result (λ tree. tree.side ≡ side) }
    ensures has { IfOk result (λ tree. (text : List ℕ) → is_among given.now text ≡ true
        → is_among tree.texts.items text ≡ true) }
{
    let tree = TextTree::of(alloc, side, given)?;
    Ok(tree)
}

// The text at a place of a tree, or the empty one if the place is the other one.
fn text_unless(tree: &TextTree, place: usize, other: usize) -> ClientLabel
    ensures { result ≡ text_unless tree.now.texts.items place other }
{
    if place == other {
        return ClientLabel::empty();
    }
    tree.label(place)
}
