//! Numbers of diagnostics.
ghost use Rattle.std.specs.Prelude.{◌≡◌, ◌==◌, ◌&&◌, Some};
ghost use Rattle.std.specs.Fmt.{WritesOnOk};
ghost use Rattle.view_diagnostics.specs.Counts.{counts_text, some_text};

use std::fmt;

/// How many errors and how many warnings a command has printed.
#[derive(Clone, Copy, PartialEq, Eq)]
pub struct Counts {
    /// The number of errors.
    pub errors: u64,
    /// The number of warnings.
    pub warnings: u64,
}

impl Counts {
    /// Returns whether there is neither an error nor a warning.
    pub fn is_nothing(self) -> bool
        ensures { result ≡ (self.errors == 0 && self.warnings == 0) }
    {
        self.errors == 0 && self.warnings == 0
    }
}

/// The summary, as `3 errors, 1 warning`. A number of 0 isn't shown.
impl fmt::Display for Counts {
    ghost output = { λ counts. Some (counts_text counts) };

    fn fmt<W: fmt::Write>(&self, f: &mut fmt::Formatter<W>) -> fmt::Result {
        show(f, self.errors, "error")?;
        f.write_str(if self.errors > 0 && self.warnings > 0 {
            ", "
        } else {
            ""
        })?;
        show(f, self.warnings, "warning")
    }
}

// Writes a number of things of one kind, unless it is 0.
fn show<W: fmt::Write>(f: &mut fmt::Formatter<W>, number: u64, kind: &str) -> fmt::Result
    ensures { WritesOnOk W.write_str_gives f.old result (some_text number kind.now) f.new }
{
    if number == 0 {
        return Ok(());
    }
    let plural = if number == 1 { "" } else { "s" };
    write!(f, "{number} {kind}{plural}")
}
