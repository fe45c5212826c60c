//! Texts in quotes, as diagnostics and graphs have them.
ghost use Rattle.std.specs.Prelude.{◌≡◌, ◌++◌, Some, false};
ghost use Rattle.std.specs.Fmt.{DisplaysOnOk, WritesOnOk};
ghost use Rattle.std.specs.List.{flat_map};
ghost use Rattle.std.specs.Option.{option_map};
ghost use Rattle.std.specs.Str.{chars};
ghost use Rattle.list_parts.specs.QuotedTexts.{backslash_in, escaped_text, other_sign, quote_in, quoted_text, sign_text};

use std::fmt;

/// A text in quotes, on one line.
#[derive(Clone, Copy)]
pub struct QuotedText<'a> {
    /// The text.
    pub text: &'a str,
    /// Whether the text is within a quoted text of a graph, so that quotes and backslashes have one more backslash before them.
    pub in_graph: bool,
}

impl fmt::Display for QuotedText<'_> {
    ghost output = { λ quoted. Some (quoted_text quoted.in_graph quoted.text.now) };

    fn fmt<W: fmt::Write>(&self, f: &mut fmt::Formatter<W>) -> fmt::Result {
        f.write_str(quote_in(self.in_graph))?;
        show_signs(f, self.in_graph, self.text)?;
        f.write_str(quote_in(self.in_graph))
    }
}

// A quote, as it is written.
fn quote_in(in_graph: bool) -> &'static str
    ensures { result.now ≡ quote_in in_graph }
{
    if in_graph { "\\\"" } else { "\"" }
}

// A backslash, as it is written.
fn backslash_in(in_graph: bool) -> &'static str
    ensures { result.now ≡ backslash_in in_graph }
{
    if in_graph { "\\\\" } else { "\\" }
}

// The characters of a text.
fn show_signs<W: fmt::Write>(f: &mut fmt::Formatter<W>, in_graph: bool, text: &str) -> fmt::Result
    ensures { WritesOnOk W.write_str_gives f.old result (escaped_text in_graph text.now) f.new }
{
    for sign in text.chars() {
        show_sign(f, in_graph, sign)?;
    }
    Ok(())
}

// A character of a text.
fn show_sign<W: fmt::Write>(f: &mut fmt::Formatter<W>, in_graph: bool, sign: char) -> fmt::Result
    ensures { WritesOnOk W.write_str_gives f.old result (sign_text in_graph sign) f.new }
{
    let behind = match sign {
        '"' => quote_in(in_graph),
        '\\' => backslash_in(in_graph),
        '\n' => "n",
        '\t' => "t",
        sign => return show_other(f, in_graph, sign),
    };
    f.write_str(backslash_in(in_graph))?;
    f.write_str(behind)
}

// A character that has no short form after a backslash.
fn show_other<W: fmt::Write>(f: &mut fmt::Formatter<W>, in_graph: bool, sign: char) -> fmt::Result
    ensures { WritesOnOk W.write_str_gives f.old result (other_sign in_graph sign) f.new }
{
    if sign.is_control() {
        let number = sign as u32;
        write!(
            f,
            "{}u00{:x}{:x}",
            backslash_in(in_graph),
            number / 16,
            number % 16
        )
    } else {
        write!(f, "{sign}")
    }
}

/// Writes a text in quotes, on one line, with escapes.
pub fn show_quoted<W: fmt::Write>(f: &mut fmt::Formatter<W>, text: &str) -> fmt::Result
    ensures { WritesOnOk W.write_str_gives f.old result (quoted_text false text.now) f.new }
{
    let quoted = QuotedText {
        text,
        in_graph: false,
    };
    write!(f, "{quoted}")
}

/// Writes a text with the escapes of a quoted text, without the quotes.
pub fn show_escaped<W: fmt::Write>(f: &mut fmt::Formatter<W>, text: &str) -> fmt::Result
    ensures { WritesOnOk W.write_str_gives f.old result (escaped_text false text.now) f.new }
{
    show_signs(f, false, text)
}

/// Writes a value, with a text before it and a text after it.
pub fn show_within<W: fmt::Write, T: fmt::Display>(
    f: &mut fmt::Formatter<W>,
    before: &str,
    value: &T,
    behind: &str,
) -> fmt::Result
    ensures { DisplaysOnOk W.write_str_gives f.old result
        (option_map (λ text. before.now ++ text ++ behind.now) (T.output value.now)) f.new }
{
    f.write_str(before)?;
    write!(f, "{value}")?;
    f.write_str(behind)
}
