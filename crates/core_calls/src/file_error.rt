//! The errors of services.
ghost use Rattle.std.specs.Prelude.{◌≡◌};
ghost use Rattle.own_model.specs.FileText.{error_name};
ghost use Rattle.core_calls.specs.FileError.{model_error};

/// An error with which a service refuses a request. The log service uses the first variant alone.
#[derive(Clone, Copy, PartialEq, Eq)]
pub enum FileError {
    /// The text is not a request.
    BadRequest,
    /// The argument for the file is not a valid name.
    BadName,
    /// A file of this name exists, or the session has a buffer already.
    Exists,
    /// No file of this name exists.
    NotFound,
    /// The offset is above the file's size.
    Gap,
    /// The request asks for more bytes than a reply can have.
    TooLong,
    /// There are no more files.
    End,
    /// The heap needs another chunk and has the most chunks already.
    TooManyChunks,
    /// The session's RAM does not cover the request.
    OutOfRam,
    /// The session's capabilities do not cover the request.
    OutOfCaps,
    /// A buffer of 0 bytes, or of more bytes than any machine has.
    InvalidSize,
    /// The session has no buffer.
    NoBuffer,
    /// The buffer does not have the whole range.
    BadRange,
}

impl FileError {
    /// Returns the name of the error, as a reply prints it.
    pub fn name(self) -> &'static str
        ensures { result.now ≡ error_name (model_error self) }
    {
        match self {
            FileError::BadRequest => "BAD_REQUEST",
            FileError::BadName => "BAD_NAME",
            FileError::Exists => "EXISTS",
            FileError::NotFound => "NOT_FOUND",
            FileError::Gap => "GAP",
            FileError::TooLong => "TOO_LONG",
            FileError::End => "END",
            FileError::TooManyChunks => "TOO_MANY_CHUNKS",
            FileError::OutOfRam => "OUT_OF_RAM",
            FileError::OutOfCaps => "OUT_OF_CAPS",
            FileError::InvalidSize => "INVALID_SIZE",
            FileError::NoBuffer => "NO_BUFFER",
            FileError::BadRange => "BAD_RANGE",
        }
    }
}
