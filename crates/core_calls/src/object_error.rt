//! The errors of requests of declared servers.
ghost use Rattle.std.specs.Prelude.{◌≡◌};
ghost use Rattle.own_model.specs.ObjectText.{object_error_name};
ghost use Rattle.core_calls.specs.ObjectError.{model_object_error};

use crate::file_error::FileError;

/// An error with which a declared server refuses a request.
#[derive(Clone, Copy, PartialEq, Eq)]
pub enum ObjectError {
    /// The server offers no kind of this name.
    BadKind,
    /// The request is refused as one of the file service is.
    Shared(FileError),
}

impl ObjectError {
    /// Returns the name of the error, as a reply prints it.
    pub fn name(self) -> &'static str
        ensures { result.now ≡ object_error_name (model_object_error self) }
    {
        match self {
            ObjectError::BadKind => "BAD_KIND",
            ObjectError::Shared(error) => error.name(),
        }
    }
}
