//! The colours of lines.
ghost use Rattle.std.specs.Prelude.{◌≡◌, if◌then◌else◌};
ghost use Rattle.view_colors.specs.ColorSink.{refuses, reply_in, shade_of};
ghost use Rattle.view_colors.specs.declared.shade.Shade.TheVariants.{Plain};

use line_friendly::meets;
use text_codec::split_first_word;

/// The colour of a line.
#[derive(Clone, Copy, PartialEq, Eq)]
pub enum Shade {
    /// None.
    Plain,
    /// Red.
    Red,
    /// Bold.
    Bold,
}

/// The kind of lines that are coloured.
#[derive(Clone, Copy, PartialEq, Eq)]
pub enum Lines {
    /// The lines of a transcript: those of refusals are red.
    Replies,
    /// The errors of lines, which are bold.
    Complaints,
    /// The lines of tests: one that failed is red, and its report is bold.
    Tests,
}

impl Shade {
    ghost use Rattle.std.specs.Prelude.{◌≡◌};
    ghost use Rattle.view_colors.specs.ColorSink.{code_of, end_of};

    /// Returns the bytes before a line that begin the colour.
    pub(crate) fn code(self) -> &'static [u8]
        ensures { result.now ≡ code_of self }
    {
        match self {
            Shade::Plain => b"",
            Shade::Red => b"\x1b[31m",
            Shade::Bold => b"\x1b[1m",
        }
    }

    /// Returns the bytes after a line that end the colour.
    pub(crate) fn end(self) -> &'static [u8]
        ensures { result.now ≡ end_of self }
    {
        match self {
            Shade::Plain => b"",
            Shade::Red | Shade::Bold => b"\x1b[0m",
        }
    }
}

impl Lines {
    ghost use Rattle.std.specs.Prelude.{◌≡◌};
    ghost use Rattle.view_colors.specs.ColorSink.{shade_of};

    /// Returns the colour of a line of this kind.
    pub(crate) fn shade_of(self, line: &[u8]) -> Shade
        ensures { result ≡ shade_of self line.now }
    {
        match self {
            Lines::Replies => shade_if(refuses(line), Shade::Red),
            Lines::Complaints => Shade::Bold,
            Lines::Tests => {
                if line.starts_with(b"not ok") {
                    Shade::Red
                } else {
                    shade_if(line.starts_with(b"# "), Shade::Bold)
                }
            }
        }
    }
}

// Returns a colour if it is wanted, and else none.
fn shade_if(wanted: bool, shade: Shade) -> Shade
    ensures { result ≡ (if wanted then shade else Plain) }
{
    if wanted { shade } else { Shade::Plain }
}

// Returns whether a line of a transcript is that of a reply that refuses.
fn refuses(line: &[u8]) -> bool
    ensures { result ≡ refuses line.now }
{
    meets(reply_in(line), b"refused")
}

// Returns the text after the name and a colon of a transcript's line. A log line has no name.
fn reply_in(line: &[u8]) -> &[u8]
    ensures { result.now ≡ reply_in line.now }
{
    let (name, rest) = split_first_word(line);
    if name.ends_with(b":") {
        rest.unwrap_or(b"")
    } else {
        b""
    }
}
