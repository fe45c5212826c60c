//! A label of minimum length with a longest beginning, a longest ending, and nothing that a rule distinguishes.
ghost use Rattle.std.specs.Prelude.{◌≡◌, ◌↔◌, ◌+◌, ◌<◌, ◌≤◌, ◌++◌, ◌∷◌, [], true, length, MatchOption};
ghost use Rattle.list_labels.specs.Asked.{is_given};
ghost use Rattle.list_labels.specs.GivenLabels.{IsGiven};
ghost use Rattle.list_classes.specs.Witnesses.{AreLonger, HasNone, HasNoWitness, IsFound, IsLeastWitness, IsWitness, Shows, head_with, tail_with};

use crate::class_parts::ClassParts;
use crate::text_tree::{LabelSide, has_text};
use arrayvec::ArrayVec;
use list_labels::{ClientLabel, LONGEST_GIVEN};

/// The bytes of labels, small letters first, and the space last.
static BYTES: [u8; 93] =
    *b"abcdefghijklmnopqrstuvwxyz{|}~!#$%&'()*+,-./0123456789:;<=>?@ABCDEFGHIJKLMNOPQRSTUVWXYZ[]^_` ";

/// Labels with a longest beginning and a longest ending, by their places, that are none of the known ones.
#[derive(Clone, Copy)]
pub(crate) struct TextPair<'a> {
    pub(crate) parts: ClassParts<'a>,
    pub(crate) front: usize,
    pub(crate) end: usize,
}

/// What a search for a label of some length has found.
#[derive(Drop)]
enum GapSearch {
    /// This label.
    Found(ClientLabel),
    /// No label of this length.
    Missing,
    /// No label of this length or longer.
    Closed,
}

impl TextPair<'_> {
    /// Returns one of the shortest labels, or none if there is no label.
    pub(crate) fn witness(&self) -> Option<ClientLabel>
        ensures { MatchOption result (HasNoWitness self.now) (IsLeastWitness self.now) }
    {
        let front = self.parts.fronts.text(self.front);
        let end = self.parts.ends.text(self.end);
        match self.overlapping(front, end) {
            Some(label) => Some(label),
            None => self.apart(front, end),
        }
    }

    // One of the shortest in which the beginning and the ending share bytes or touch.
    fn overlapping(&self, front: &[u8], end: &[u8]) -> Option<ClientLabel>
        requires { length end.now ≤ 64 }
        ensures { MatchOption result
            (AreLonger self.now front.now end.now (length front.now + (1 + length end.now)))
            (λ label. IsFound self.now (length label) label
            × AreLonger self.now front.now end.now (length label)) }
    {
        for rest in 0..end.len() + 1 {
            if let Some(label) = self.sharing(front, end, rest) {
                return Some(label);
            }
        }
        None
    }

    // The one in which so many bytes of the ending follow the beginning.
    fn sharing(&self, front: &[u8], end: &[u8], rest: usize) -> Option<ClientLabel>
        requires { rest ≤ length end.now }
        ensures { MatchOption result (HasNone self.now front.now end.now (length front.now + rest))
            (IsFound self.now (length front.now + rest)) }
    {
        let cut = end.len() - rest;
        if front.ends_with(&end[..cut]) {
            self.label_of(front, &end[cut..])
        } else {
            None
        }
    }

    // One of the shortest with bytes between the beginning and the ending.
    fn apart(&self, front: &[u8], end: &[u8]) -> Option<ClientLabel>
        requires front { length front.now ≤ 64 }
        requires end { length end.now ≤ 64 }
        requires longer { AreLonger self.now front.now end.now (length front.now + (1 + length end.now)) }
        ensures { MatchOption result
            (AreLonger self.now front.now end.now 65)
            (λ label. IsFound self.now (length label) label
            × AreLonger self.now front.now end.now (length label)) }
    {
        for between in 1..LONGEST_GIVEN + 1 {
            if front.len() + between + end.len() > LONGEST_GIVEN {
                return None;
            }
            match self.filled(front, end, between) {
                GapSearch::Found(label) => return Some(label),
                GapSearch::Missing => {}
                GapSearch::Closed => return None,
            }
        }
        None
    }

    // The label of two parts, if it is one of these.
    fn label_of(&self, head: &[u8], tail: &[u8]) -> Option<ClientLabel>
        ensures { MatchOption result
            (IsGiven (head.now ++ tail.now) → IsWitness self.now (head.now ++ tail.now) → ⊥)
            (λ label. (label ≡ head.now ++ tail.now) × (is_given label ≡ true)
            × IsWitness self.now label) }
    {
        let text = joined(head, tail)?;
        let label = ClientLabel::read(text.as_slice())?;
        if self.has(label.as_bytes()) {
            Some(label)
        } else {
            None
        }
    }

    // Whether a label is one of these.
    fn has(&self, label: &[u8]) -> bool
        ensures { (result ≡ true) ↔ IsWitness self.now label.now }
    {
        self.parts.fronts.is_longest(self.front, label)
            && self.parts.ends.is_longest(self.end, label)
            && !has_text(self.parts.known, label)
    }

    // The search for a label with so many bytes between two parts. If their number is odd, the first of them follows the first
    // part. Otherwise the last of them is before the last part.
    #[cycle(filled)]
    fn filled(&self, head: &[u8], tail: &[u8], between: usize) -> GapSearch
        ensures { Shows self.now head.now tail.now
            (length head.now + (between + length tail.now)) result }
    {
        if between == 0 {
            return match self.label_of(head, tail) {
                Some(label) => GapSearch::Found(label),
                None => GapSearch::Missing,
            };
        }
        let side = side_of(between);
        let mut is_closed = true;
        for place in 0..BYTES.len() {
            match self.filled_with(head, tail, between - 1, side, BYTES[place]) {
                GapSearch::Found(label) => return GapSearch::Found(label),
                GapSearch::Missing => is_closed = false,
                GapSearch::Closed => {}
            }
        }
        if is_closed {
            GapSearch::Closed
        } else {
            GapSearch::Missing
        }
    }

    // The same with a byte between them at one side, and so many other bytes.
    #[cycle(filled)]
    fn filled_with(
        &self,
        head: &[u8],
        tail: &[u8],
        rest: usize,
        side: LabelSide,
        byte: u8,
    ) -> GapSearch
        ensures { Shows self.now (head_with side byte head.now) (tail_with side byte tail.now)
            (length head.now + (rest + 1 + length tail.now)) result }
    {
        match side {
            LabelSide::Front => self.filled_after(head, tail, rest, byte),
            LabelSide::End => self.filled_before(head, tail, rest, byte),
        }
    }

    // The same with the byte after the first part, unless that gives a longer beginning.
    #[cycle(filled)]
    fn filled_after(&self, head: &[u8], tail: &[u8], rest: usize, byte: u8) -> GapSearch
        ensures { Shows self.now (head.now ++ byte ∷ []) tail.now
            (length head.now + (rest + 1 + length tail.now)) result }
    {
        let Some(longer) = joined(head, &[byte]) else {
            return GapSearch::Closed;
        };
        if self.parts.fronts.goes_below(self.front, longer.as_slice()) {
            return GapSearch::Closed;
        }
        self.filled(longer.as_slice(), tail, rest)
    }

    // The same with the byte before the last part, unless that gives a longer ending.
    #[cycle(filled)]
    fn filled_before(&self, head: &[u8], tail: &[u8], rest: usize, byte: u8) -> GapSearch
        ensures { Shows self.now head.now (byte ∷ tail.now)
            (length head.now + (rest + 1 + length tail.now)) result }
    {
        let Some(longer) = joined(&[byte], tail) else {
            return GapSearch::Closed;
        };
        if self.parts.ends.goes_below(self.end, longer.as_slice()) {
            return GapSearch::Closed;
        }
        self.filled(head, longer.as_slice(), rest)
    }
}

// At which side of a gap of so many bytes the next byte is tried.
fn side_of(between: usize) -> LabelSide {
    if between % 2 == 1 {
        LabelSide::Front
    } else {
        LabelSide::End
    }
}

// Both parts, unless they are too long for a label.
fn joined(head: &[u8], tail: &[u8]) -> Option<ArrayVec<u8, LONGEST_GIVEN>>
    ensures { MatchOption result (64 < length (head.now ++ tail.now))
        (λ text. text.items ≡ head.now ++ tail.now) }
{
    let mut text = ArrayVec::<u8, LONGEST_GIVEN>::new();
    text.try_extend_from_slice(head).ok()?;
    text.try_extend_from_slice(tail).ok()?;
    Some(text)
}
