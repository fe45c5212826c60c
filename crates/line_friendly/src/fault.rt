//! The faults of lines.
ghost use Rattle.std.specs.Prelude.{◌≡◌, Some};
ghost use Rattle.line_friendly.specs.Messages.{first_words, form_words, line_message, shows_text, text_if, token_text};

use line_grammar::CallForm;
use std::fmt;

/// The fault of a line.
#[derive(Clone, Copy, PartialEq, Eq)]
pub enum LineReason {
    /// A quote is not closed.
    OpenQuote,
    /// `=>` is no arrow: a blank before it, or a blank and a reply after it, is missing.
    StrayArrow,
    /// A backslash in quotes begins no escape.
    BadEscape,
    /// The text of the line is no call, since it is too long.
    NoCall,
    /// The first token is no component's path.
    NoName,
    /// Nothing follows the name.
    NoForm,
    /// The token after the name is no call's.
    UnknownCall,
    /// The token after the name is no call's, but one edit makes it this call's.
    Misspelt(CallForm),
    /// A token of this call is missing.
    Missing(CallForm),
    /// A token follows those of this call.
    TooMany(CallForm),
    /// The unit of a size is a small letter.
    SmallUnit,
    /// A token is no number.
    NoNumber,
    /// A token is no size.
    NoSize,
    /// An address has more than 16 digits.
    LongAddress,
    /// A token is no address.
    NoAddress,
    /// A token is no hexadecimal digits.
    NoHex,
    /// A token is no service's name.
    NoService,
}

impl LineReason {
    /// Returns the message about this text of the line, which begins at the fault's column and may be empty.
    pub fn about(self, text: &str) -> LineMessage<'_>
        ensures reason { result.reason ≡ self }
        ensures text { result.text.now ≡ text.now }
    {
        LineMessage { reason: self, text }
    }

    // Returns the first words of the message.
    fn first_words(self) -> &'static str
        ensures { result.now ≡ first_words self }
    {
        match self {
            LineReason::OpenQuote => "unclosed quote",
            LineReason::StrayArrow => {
                "expected a blank before `=>`, and a blank and a reply after it"
            }
            LineReason::BadEscape => "unknown escape; expected \\n, \\t, \\\", \\\\ or \\xNN",
            LineReason::NoCall => "line of more than 8192 bytes",
            LineReason::NoName => "expected a component, found",
            LineReason::NoForm => "expected a call after the component",
            LineReason::UnknownCall | LineReason::Misspelt(_) => "unknown call",
            LineReason::Missing(_) => "missing argument",
            LineReason::TooMany(_) => "unexpected argument",
            LineReason::SmallUnit => "expected unit K, M or G, found",
            LineReason::NoNumber => "expected a number, found",
            LineReason::NoSize => "expected a size, found",
            LineReason::LongAddress => "expected an address of at most 16 digits, found",
            LineReason::NoAddress => "expected an address of 0x and hexadecimal digits, found",
            LineReason::NoHex => {
                "expected bytes as two hexadecimal digits each or as text in quotes, found"
            }
            LineReason::NoService => "expected a service, found",
        }
    }

    // Returns whether the text of the line follows the first words.
    fn shows_text(self) -> bool
        ensures { result ≡ shows_text self }
    {
        match self {
            LineReason::OpenQuote
            | LineReason::StrayArrow
            | LineReason::BadEscape
            | LineReason::NoCall
            | LineReason::NoForm
            | LineReason::Missing(_) => false,
            _ => true,
        }
    }
}

/// The fault of a line, as text for people.
#[derive(Clone, Copy)]
pub struct LineMessage<'a> {
    reason: LineReason,
    text: &'a str,
}

impl fmt::Display for LineMessage<'_> {
    ghost output = { λ message. Some (line_message message.reason message.text.now) };

    fn fmt<W: fmt::Write>(&self, f: &mut fmt::Formatter<W>) -> fmt::Result {
        f.write_str(self.reason.first_words())?;
        write!(
            f,
            "{}",
            LineToken {
                text: self.text,
                is_shown: self.reason.shows_text(),
            }
        )?;
        write!(f, "{}", FormWords(self.reason))
    }
}

// A text of the line in backquotes, or that there is none; nothing if it isn't shown.
#[derive(Clone, Copy)]
struct LineToken<'a> {
    text: &'a str,
    is_shown: bool,
}

impl fmt::Display for LineToken<'_> {
    ghost output = { λ token. Some (text_if token.is_shown token.text.now) };

    fn fmt<W: fmt::Write>(&self, f: &mut fmt::Formatter<W>) -> fmt::Result {
        if !self.is_shown {
            Ok(())
        } else if self.text.is_empty() {
            f.write_str(" nothing")
        } else {
            write!(f, " `{}`", self.text)
        }
    }
}

// The form that is expected, or that may be meant.
#[derive(Clone, Copy)]
struct FormWords(LineReason);

impl fmt::Display for FormWords {
    ghost output = { λ words. Some (form_words words.0) };

    fn fmt<W: fmt::Write>(&self, f: &mut fmt::Formatter<W>) -> fmt::Result {
        match self.0 {
            LineReason::Misspelt(form) => write!(f, "; did you mean `{form}`?"),
            LineReason::Missing(form) | LineReason::TooMany(form) => write!(
                f,
                "; expected `{form}`"
            ),
            _ => Ok(()),
        }
    }
}

/// The fault of a line, and its place.
#[derive(Clone, Copy, PartialEq, Eq)]
pub struct FriendlyFault {
    /// The fault.
    pub reason: LineReason,
    /// The byte of the line at which the fault is, from 1 on: the quote, the backslash, or the token.
    pub column: usize,
}
