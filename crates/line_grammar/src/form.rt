//! The forms of calls, each by the token that names it in a line.
ghost use Rattle.std.specs.Prelude.{◌≡◌, Some};
ghost use Rattle.line_grammar.specs.Forms.{form_named, form_text, forms, word_of};

use std::fmt;

/// A form of calls, which prints as its token.
#[derive(Clone, Copy, PartialEq, Eq)]
pub enum CallForm {
    /// Allocates a dataspace.
    Alloc,
    /// Frees a dataspace.
    Free,
    /// Attaches a dataspace at the first gap.
    Attach,
    /// Attaches a dataspace at an address.
    AttachAt,
    /// Detaches a region.
    Detach,
    /// Reads bytes.
    Peek,
    /// Writes bytes.
    Poke,
    /// Allocates an RPC object.
    Capalloc,
    /// Frees an RPC object.
    Capfree,
    /// Allocates a block of the heap.
    New,
    /// Frees a block of the heap.
    Del,
    /// Allocates a sliced block.
    Snew,
    /// Frees a sliced block.
    Sdel,
    /// Opens a session.
    Open,
    /// Upgrades the donation of a session.
    Upgrade,
    /// Sends a request to a session.
    Call,
    /// Closes a session.
    Close,
    /// Ends the component.
    Exit,
    /// Reads use and limits of the account.
    Quota,
    /// Reads the amounts of the reserve.
    Reserve,
    /// Moves limits from the reserve to the account.
    Request,
    /// Moves limits from the account to the reserve.
    Yield,
}

impl fmt::Display for CallForm {
    ghost output = { λ form. Some (form_text form) };

    fn fmt<W: fmt::Write>(&self, f: &mut fmt::Formatter<W>) -> fmt::Result {
        f.write_str(self.text())
    }
}

impl CallForm {
    /// Returns all forms of calls, in the order of the variants.
    pub fn all() -> &'static [CallForm]
        ensures { result.now ≡ forms }
    {
        &[
            CallForm::Alloc,
            CallForm::Free,
            CallForm::Attach,
            CallForm::AttachAt,
            CallForm::Detach,
            CallForm::Peek,
            CallForm::Poke,
            CallForm::Capalloc,
            CallForm::Capfree,
            CallForm::New,
            CallForm::Del,
            CallForm::Snew,
            CallForm::Sdel,
            CallForm::Open,
            CallForm::Upgrade,
            CallForm::Call,
            CallForm::Close,
            CallForm::Exit,
            CallForm::Quota,
            CallForm::Reserve,
            CallForm::Request,
            CallForm::Yield,
        ]
    }

    /// Returns the token that names the form in a line.
    pub fn word(self) -> &'static [u8]
        ensures { result.now ≡ word_of self }
    {
        match self {
            CallForm::Alloc => b"alloc",
            CallForm::Free => b"free",
            CallForm::Attach => b"attach",
            CallForm::AttachAt => b"attach_at",
            CallForm::Detach => b"detach",
            CallForm::Peek => b"peek",
            CallForm::Poke => b"poke",
            CallForm::Capalloc => b"capalloc",
            CallForm::Capfree => b"capfree",
            CallForm::New => b"new",
            CallForm::Del => b"del",
            CallForm::Snew => b"snew",
            CallForm::Sdel => b"sdel",
            CallForm::Open => b"open",
            CallForm::Upgrade => b"upgrade",
            CallForm::Call => b"call",
            CallForm::Close => b"close",
            CallForm::Exit => b"exit",
            CallForm::Quota => b"quota",
            CallForm::Reserve => b"reserve",
            CallForm::Request => b"request",
            CallForm::Yield => b"yield",
        }
    }

    /// Returns the form that a token names, or `None` if no form has it.
    pub fn named(word: &[u8]) -> Option<CallForm>
        ensures { result ≡ form_named word.now }
    {
        CallForm::all()
            .iter()
            .copied()
            .find(|form| word == form.word())
    }

    // Returns the token of the form and its arguments.
    fn text(self) -> &'static str
        ensures { result.now ≡ form_text self }
    {
        match self {
            CallForm::Alloc => "alloc N",
            CallForm::Free => "free S",
            CallForm::Attach => "attach S",
            CallForm::AttachAt => "attach_at S A",
            CallForm::Detach => "detach A",
            CallForm::Peek => "peek A LEN",
            CallForm::Poke => "poke A HEX",
            CallForm::Capalloc => "capalloc",
            CallForm::Capfree => "capfree S",
            CallForm::New => "new N",
            CallForm::Del => "del A",
            CallForm::Snew => "snew N",
            CallForm::Sdel => "sdel A",
            CallForm::Open => "open SERVICE ARGS",
            CallForm::Upgrade => "upgrade S ARGS",
            CallForm::Call => "call S REQUEST",
            CallForm::Close => "close S",
            CallForm::Exit => "exit",
            CallForm::Quota => "quota",
            CallForm::Reserve => "reserve",
            CallForm::Request => "request ARGS",
            CallForm::Yield => "yield ARGS",
        }
    }
}
