//! Places in a text.
ghost use Rattle.std.specs.Prelude.{◌≡◌};
ghost use Rattle.view_diagnostics.specs.Diagnostics.{column_of, line_of};

/// A place in a text. Lines, and bytes in a line, count from 1.
#[derive(Clone, Copy, PartialEq, Eq)]
pub enum FilePlace {
    /// The whole text.
    Whole,
    /// The line of a number.
    Line(u64),
    /// A byte of a line: the line's number, then the byte's.
    Byte(u64, u64),
}

impl FilePlace {
    /// Returns the number of the line, if the place has one.
    #[tactic(auto, unfolding(crate::specs::Diagnostics::line_of))]
    pub fn line(self) -> Option<u64>
        ensures { result ≡ line_of self }
    {
        match self {
            FilePlace::Whole => None,
            FilePlace::Line(line) | FilePlace::Byte(line, _) => Some(line),
        }
    }

    /// Returns the number of the byte in its line, if the place has one.
    #[tactic(auto, unfolding(crate::specs::Diagnostics::column_of))]
    pub fn column(self) -> Option<u64>
        ensures { result ≡ column_of self }
    {
        match self {
            FilePlace::Whole | FilePlace::Line(_) => None,
            FilePlace::Byte(_, column) => Some(column),
        }
    }
}
