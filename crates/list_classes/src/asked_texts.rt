//! The texts that rules for requests ask for, and the labels that these rules distinguish.
ghost use Rattle.std.specs.Prelude.{◌≡◌, ◌++◌, ◌∷◌, [], map, IfOk, OnOk};
ghost use Rattle.list_labels.specs.KnownLabels.{AddsLabels};
ghost use Rattle.list_labels.specs.LabelRanges.{AskedLabel};
ghost use Rattle.list_classes.specs.AskedTexts.{AreAsked};
ghost use Rattle.list_classes.specs.Making.{asked_for, known_for};

use list_labels::{ClientLabel, LabelCondition, SessionRequests, add_known, asked_of};
use std::alloc::{AllocError, Global};

/// The texts that rules ask for, and the labels that they distinguish.
#[derive(Drop)]
pub(crate) struct AskedTexts {
    /// The beginnings.
    pub(crate) fronts: Vec<ClientLabel>,
    /// The endings.
    pub(crate) ends: Vec<ClientLabel>,
    /// The labels, the empty one included.
    pub(crate) known: Vec<ClientLabel>,
}

/// Returns the texts of a range, those that the rules for requests on two lists ask for, and the labels that these rules
/// distinguish. Fails if the host is out of memory.
pub(crate) fn asked_texts(
    alloc: Global,
    range: &LabelCondition,
    one: Option<SessionRequests<'_>>,
    other: Option<SessionRequests<'_>>,
) -> Result<AskedTexts, AllocError>
    ensures { IfOk result (AreAsked range.now one.entry other.entry) }
{
    let mut texts = range_texts(alloc, range)?;
    add_texts(alloc, &mut texts, one)?;
    add_texts(alloc, &mut texts, other)?;
    Ok(texts)
}

// The texts of a range, and the empty label.
fn range_texts(alloc: Global, range: &LabelCondition) -> Result<AskedTexts, AllocError>
    ensures fronts { IfOk result (λ texts. texts.fronts.items ≡ range.now.front ∷ []) }
    ensures ends { IfOk result (λ texts. texts.ends.items ≡ range.now.end ∷ []) }
    ensures known { IfOk result (λ texts. texts.known.items ≡ [] ∷ []) }
{
    let mut fronts = Vec::new(alloc);
    let mut ends = Vec::new(alloc);
    let mut known = Vec::new(alloc);
    fronts.push(range.front.copy())?;
    ends.push(range.end.copy())?;
    known.push(ClientLabel::empty())?;
    Ok(AskedTexts {
        fronts,
        ends,
        known,
    })
}

// Adds the beginnings and the endings that the rules for requests ask for, and the labels that these rules distinguish.
fn add_texts(
    alloc: Global,
    texts: &mut AskedTexts,
    wishes: Option<SessionRequests<'_>>,
) -> Result<(), AllocError>
    ensures fronts { OnOk result (texts.new.fronts.items
        ≡ texts.old.fronts.items ++ map (λ (asked : AskedLabel). asked.front) (asked_for wishes.entry)) }
    ensures ends { OnOk result (texts.new.ends.items
        ≡ texts.old.ends.items ++ map (λ (asked : AskedLabel). asked.end) (asked_for wishes.entry)) }
    ensures known { OnOk result
        (AddsLabels (known_for wishes.entry) texts.old.known.items texts.new.known.items) }
{
    match wishes {
        Some(wishes) => {
            let asked = asked_of(alloc, wishes)?;
            add_conditions(&mut texts.fronts, &mut texts.ends, asked.as_slice())?;
            add_known(&mut texts.known, wishes)
        }
        None => Ok(()),
    }
}

// Adds the beginnings and the endings that conditions ask for.
fn add_conditions(
    fronts: &mut Vec<ClientLabel>,
    ends: &mut Vec<ClientLabel>,
    asked: &[LabelCondition],
) -> Result<(), AllocError>
    ensures fronts { OnOk result (fronts.new.items
        ≡ fronts.old.items ++ map (λ (asked : AskedLabel). asked.front) asked.now) }
    ensures ends { OnOk result (ends.new.items
        ≡ ends.old.items ++ map (λ (asked : AskedLabel). asked.end) asked.now) }
{
    for one in asked {
        fronts.push(one.front.copy())?;
        ends.push(one.end.copy())?;
    }
    Ok(())
}
