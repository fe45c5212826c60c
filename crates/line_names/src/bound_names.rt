//! Names that a reply binds.
ghost use Rattle.std.specs.Prelude.{◌≡◌, ◌-◌, map};
ghost use Rattle.std.specs.Option.{option_copied};
ghost use Rattle.line_names.specs.Filling.{is_among, made_length, with_bound_name};
ghost use Rattle.line_names.specs.Views.{hole_view, holes_seen, made_view, zone_view};

use crate::fault::NameReason;
use arrayvec::ArrayVec;
use line_friendly::LineBuffer;

/// The most names that one reply binds.
pub(crate) const MOST_HOLES: usize = 16;

/// A name that the reply binds, and the place of its star in the expected reply.
#[derive(Clone, Copy)]
pub struct BoundName<'a> {
    /// The name.
    pub name: &'a [u8],
    /// The number of bytes of the expected reply before the star.
    pub place: usize,
}

impl Default for BoundName<'_> {
    fn default() -> Self {
        BoundName {
            name: b"",
            place: 0,
        }
    }
}

/// The names that a reply binds.
pub(crate) type BoundNames<'a> = ArrayVec<BoundName<'a>, MOST_HOLES>;

/// The part of a line that may bind names: its bytes before `limit`. The expected reply begins after `start` bytes of the filled
/// line.
#[derive(Clone, Copy)]
pub(crate) struct BindingZone {
    pub limit: usize,
    pub start: usize,
}

/// Keeps the name of a piece at a place of a line, if the reply binds it. The error is that the name can't be bound there, is
/// bound twice, or is one too many.
pub(crate) fn keep_bound_name<'a>(
    holes: &mut BoundNames<'a>,
    zone: BindingZone,
    place: usize,
    line: &LineBuffer,
    hole: Option<&'a [u8]>,
) -> Result<(), NameReason>
    ensures { holes_seen result holes.new.items ≡ with_bound_name (zone_view zone) place
        (made_view line.now holes.old.items) (option_copied hole.entry) }
{
    let Some(name) = hole else {
        return Ok(());
    };
    if place >= zone.limit {
        return Err(NameReason::UnknownName);
    }
    if is_among(name, holes.as_slice()) {
        return Err(NameReason::Twice);
    }
    if holes.is_full() {
        return Err(NameReason::TooMany);
    }
    holes.push(BoundName {
        name,
        place: made_length(line).saturating_sub(zone.start),
    });
    Ok(())
}

/// Returns the number of bytes of a line so far.
pub(crate) fn made_length(line: &LineBuffer) -> usize
    ensures { result ≡ made_length line.now }
{
    match line.text() {
        Some(text) => text.len(),
        None => 0,
    }
}

// Returns whether a name is among those that the reply binds.
#[tactic(auto, using(crate::proofs::KnownLemmas::among))]
fn is_among(name: &[u8], holes: &[BoundName<'_>]) -> bool
    ensures { result ≡ is_among name.now (map hole_view holes.now) }
{
    for hole in holes {
        if hole.name == name {
            return true;
        }
    }
    false
}
