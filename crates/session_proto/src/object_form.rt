//! The forms of a declared server's requests, by their keywords.
ghost use Rattle.std.specs.Prelude.{◌≡◌, find};
ghost use Rattle.std.specs.Str.{bytes_eq};
ghost use Rattle.text_codec.specs.Firsts.{with_first};
ghost use Rattle.session_proto.specs.ObjectForms.{form_named, forms, word_of};

/// The form of a request, denoted by its keyword.
#[derive(Clone, Copy)]
pub(crate) enum ObjectForm {
    /// Create an object of a kind.
    Make,
    /// Give an object other units.
    Resize,
    /// Delete an object.
    Drop,
    /// Return the number of objects.
    Count,
    /// Return kind, name and units of an object.
    Name,
    /// Return use and limit of the account.
    Stat,
    /// Create the buffer.
    Buffer,
    /// Release the buffer.
    Unbuffer,
}

impl ObjectForm {
    /// Returns the form's keyword.
    fn word(self) -> &'static [u8]
        ensures { result.now ≡ word_of self }
    {
        match self {
            ObjectForm::Make => b"MAKE",
            ObjectForm::Resize => b"RESIZE",
            ObjectForm::Drop => b"DROP",
            ObjectForm::Count => b"COUNT",
            ObjectForm::Name => b"NAME",
            ObjectForm::Stat => b"STAT",
            ObjectForm::Buffer => b"BUFFER",
            ObjectForm::Unbuffer => b"UNBUFFER",
        }
    }

    /// Returns the form with this keyword, or `None` if there is none.
    pub(crate) fn named(word: &[u8]) -> Option<ObjectForm>
        ensures { result ≡ form_named word.now }
    {
        match word.first() {
            Some(first) => form_among(word, ObjectForm::beginning_with(*first)),
            None => None,
        }
    }

    /// Returns the forms whose keywords begin with a byte.
    fn beginning_with(first: u8) -> &'static [ObjectForm]
        ensures { result.now ≡ with_first word_of first forms }
    {
        match first {
            b'B' => &[ObjectForm::Buffer],
            b'C' => &[ObjectForm::Count],
            b'D' => &[ObjectForm::Drop],
            b'M' => &[ObjectForm::Make],
            b'N' => &[ObjectForm::Name],
            b'R' => &[ObjectForm::Resize],
            b'S' => &[ObjectForm::Stat],
            b'U' => &[ObjectForm::Unbuffer],
            _ => &[],
        }
    }
}

// Returns the first of these forms with this keyword.
fn form_among(word: &[u8], forms: &[ObjectForm]) -> Option<ObjectForm>
    ensures { result ≡ find (λ form. bytes_eq word.now (word_of form)) forms.now }
{
    forms.iter().copied().find(|form| word == form.word())
}
