//! The forms of the file service's requests, by their keywords.
ghost use Rattle.std.specs.Prelude.{◌≡◌, find};
ghost use Rattle.std.specs.Str.{bytes_eq};
ghost use Rattle.text_codec.specs.Firsts.{with_first};
ghost use Rattle.session_proto.specs.Forms.{form_named, forms, word_of};

/// The form of a request, denoted by its keyword.
#[derive(Clone, Copy)]
pub(crate) enum FileForm {
    /// Create a file.
    Create,
    /// Write bytes to a file.
    Write,
    /// Read bytes of a file.
    Read,
    /// Return the size of a file.
    Size,
    /// Free the bytes of a file.
    Clear,
    /// Delete a file.
    Drop,
    /// Return the name of a file.
    Name,
    /// Return use and limit of the account.
    Stat,
    /// Create the buffer.
    Buffer,
    /// Release the buffer.
    Unbuffer,
    /// Write bytes of the buffer to a file.
    Put,
    /// Copy bytes of a file into the buffer.
    Get,
}

impl FileForm {
    /// Returns the form's keyword.
    fn word(self) -> &'static [u8]
        ensures { result.now ≡ word_of self }
    {
        match self {
            FileForm::Create => b"CREATE",
            FileForm::Write => b"WRITE",
            FileForm::Read => b"READ",
            FileForm::Size => b"SIZE",
            FileForm::Clear => b"CLEAR",
            FileForm::Drop => b"DROP",
            FileForm::Name => b"NAME",
            FileForm::Stat => b"STAT",
            FileForm::Buffer => b"BUFFER",
            FileForm::Unbuffer => b"UNBUFFER",
            FileForm::Put => b"PUT",
            FileForm::Get => b"GET",
        }
    }

    /// Returns the form with this keyword, or `None` if there is none.
    pub(crate) fn named(word: &[u8]) -> Option<FileForm>
        ensures { result ≡ form_named word.now }
    {
        match word.first() {
            Some(first) => form_among(word, FileForm::beginning_with(*first)),
            None => None,
        }
    }

    /// Returns the forms whose keywords begin with a byte.
    fn beginning_with(first: u8) -> &'static [FileForm]
        ensures { result.now ≡ with_first word_of first forms }
    {
        match first {
            b'B' => &[FileForm::Buffer],
            b'C' => &[FileForm::Create, FileForm::Clear],
            b'D' => &[FileForm::Drop],
            b'G' => &[FileForm::Get],
            b'N' => &[FileForm::Name],
            b'P' => &[FileForm::Put],
            b'R' => &[FileForm::Read],
            b'S' => &[FileForm::Size, FileForm::Stat],
            b'U' => &[FileForm::Unbuffer],
            b'W' => &[FileForm::Write],
            _ => &[],
        }
    }
}

// Returns the first of these forms with this keyword.
fn form_among(word: &[u8], forms: &[FileForm]) -> Option<FileForm>
    ensures { result ≡ find (λ form. bytes_eq word.now (word_of form)) forms.now }
{
    forms.iter().copied().find(|form| word == form.word())
}
