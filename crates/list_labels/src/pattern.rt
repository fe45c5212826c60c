//! Sets of labels: one label, or all labels with a beginning and an ending, with exceptions, and several of these.
ghost use Rattle.std.specs.Prelude.{◌≡◌};
ghost use Rattle.std.specs.List.{list_any};
ghost use Rattle.list_labels.specs.LabelSets.{has_label, is_in, set_has};

use crate::label::ClientLabel;
use std::fmt::{self, Display};

/// A pattern of labels.
#[derive(Drop)]
pub enum Pattern {
    /// This label alone.
    Exactly(ClientLabel),
    /// All labels that begin with the first text and end with the second one; an empty text excludes no label.
    Between(ClientLabel, ClientLabel),
}

impl Pattern {
    /// Returns whether the bytes of a label match the pattern.
    pub fn has(&self, label: &[u8]) -> bool
        ensures { result ≡ has_label label.now self.now }
    {
        match self {
            Pattern::Exactly(one) => one.as_bytes() == label,
            Pattern::Between(front, end) => {
                label.starts_with(front.as_bytes()) && label.ends_with(end.as_bytes())
            }
        }
    }

    // Whether the pattern is the one of all labels.
    fn is_wide(&self) -> bool {
        match self {
            Pattern::Exactly(_) => false,
            Pattern::Between(front, end) => {
                front.as_bytes().is_empty() && end.as_bytes().is_empty()
            }
        }
    }
}

/// `all`, `exactly "L"`, `beginning "L"`, `ending "L"` or `beginning "L" and ending "L"`.
impl fmt::Display for Pattern {
    fn fmt<W: fmt::Write>(&self, f: &mut fmt::Formatter<W>) -> fmt::Result {
        match self {
            Pattern::Exactly(one) => write!(f, "exactly \"{one}\""),
            Pattern::Between(front, end) => match (front.as_bytes(), end.as_bytes()) {
                ([], []) => f.write_str("all"),
                (_, []) => write!(f, "beginning \"{front}\""),
                ([], _) => write!(f, "ending \"{end}\""),
                _ => write!(f, "beginning \"{front}\" and ending \"{end}\""),
            },
        }
    }
}

/// The labels of a pattern, without those of other patterns.
#[derive(Drop)]
pub struct Shape {
    pattern: Pattern,
    except: Vec<Pattern>,
}

impl Shape {
    /// Returns the labels of a pattern, without those of the exceptions.
    pub fn new(pattern: Pattern, except: Vec<Pattern>) -> Shape
        ensures pattern { result.pattern ≡ pattern }
        ensures except { result.except ≡ except }
    {
        Shape { pattern, except }
    }

    /// Returns the pattern that the labels of the shape have.
    pub fn pattern(&self) -> &Pattern
        ensures { result.now ≡ self.now.pattern }
    {
        &self.pattern
    }

    /// Returns the patterns whose labels aren't of the shape.
    pub fn except(&self) -> &[Pattern]
        ensures { result.now ≡ self.now.except.items }
    {
        self.except.as_slice()
    }

    /// Returns whether a label is of the shape.
    pub fn has(&self, label: &[u8]) -> bool
        ensures { result ≡ is_in label.now self.now }
    {
        self.pattern.has(label) && !has_any(self.except.as_slice(), label)
    }
}

// Whether a label has one of these patterns.
fn has_any(patterns: &[Pattern], label: &[u8]) -> bool
    ensures { result ≡ list_any (has_label label.now) patterns.now }
{
    patterns.iter().any(|pattern| pattern.has(label))
}

/// The pattern, and after `but` or `but not` the exceptions.
impl fmt::Display for Shape {
    fn fmt<W: fmt::Write>(&self, f: &mut fmt::Formatter<W>) -> fmt::Result {
        self.pattern.fmt(f)?;
        let mut before = if self.pattern.is_wide() {
            " but "
        } else {
            " but not "
        };
        for pattern in self.except.as_slice() {
            write!(f, "{before}{pattern}")?;
            before = ", ";
        }
        Ok(())
    }
}

/// A set of labels: those of some shapes.
#[derive(Drop)]
pub struct LabelSet {
    shapes: Vec<Shape>,
}

impl LabelSet {
    /// Returns the set of the labels of these shapes.
    pub fn new(shapes: Vec<Shape>) -> LabelSet
        ensures { result.shapes ≡ shapes }
    {
        LabelSet { shapes }
    }

    /// Returns the shapes whose labels the set has, in order.
    pub fn shapes(&self) -> &[Shape]
        ensures { result.now ≡ self.now.shapes.items }
    {
        self.shapes.as_slice()
    }

    /// Returns whether the label is in one of the set's shapes.
    pub fn contains(&self, label: &[u8]) -> bool
        ensures { result ≡ set_has self.now label.now }
    {
        let shapes = self.shapes.as_slice();
        shapes.iter().any(|shape| shape.has(label))
    }

    /// Returns whether the set is shown as one label.
    pub fn is_one(&self) -> bool {
        match self.shapes.as_slice() {
            [shape] => matches!(&shape.pattern, Pattern::Exactly(_)),
            _ => false,
        }
    }
}

/// The shapes with `; ` between two of them, and `none` if there is no shape.
impl fmt::Display for LabelSet {
    fn fmt<W: fmt::Write>(&self, f: &mut fmt::Formatter<W>) -> fmt::Result {
        if self.shapes.is_empty() {
            return f.write_str("none");
        }
        let mut before = "";
        for shape in self.shapes.as_slice() {
            write!(f, "{before}{shape}")?;
            before = "; ";
        }
        Ok(())
    }
}
