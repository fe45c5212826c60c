//! The requests of a declared server.
ghost use Rattle.std.specs.Prelude.{◌≡◌, Some, None};
ghost use Rattle.std.specs.Option.{option_map};
ghost use Rattle.own_model.specs.FileText.{of_file};
ghost use Rattle.own_model.specs.ObjectSession.{holding_request};
ghost use Rattle.own_model.specs.ObjectSession.HoldingRequest.{OfObjects};
ghost use Rattle.own_model.specs.ObjectText.{make_of, resize_of};
ghost use Rattle.session_proto.specs.ObjectForms.{made_of};
ghost use Rattle.session_proto.specs.Objects.{model_request};

use crate::file::file_word;
use crate::log::LONGEST_REQUEST;
use crate::object_form::ObjectForm;
use text_codec::split_first_word;
use trade_base::read_number;

/// A request for the objects or the buffer of a session of a declared server. A kind and a name have one or more bytes and no
/// space.
#[derive(Clone, Copy)]
pub enum ObjectRequest<'a> {
    /// Create an object of a kind with this name.
    Make { kind: &'a [u8], name: &'a [u8] },
    /// Give an object so many units.
    Resize { name: &'a [u8], units: u64 },
    /// Delete an object and its node.
    Drop(&'a [u8]),
    /// Return the number of all objects.
    Count,
    /// Return the number of objects of a kind.
    CountKind(&'a [u8]),
    /// Return kind, name and units of the object at an index.
    Name(u64),
    /// Return use and limit of the session's account.
    Stat,
    /// Create the session's buffer, of this many bytes, rounded up to whole pages.
    Buffer(u64),
    /// Release the session's buffer.
    Unbuffer,
}

impl<'a> ObjectRequest<'a> {
    /// Parses a request, or returns `None` if the text is longer than 8192 bytes or has another form.
    pub fn read(text: &'a [u8]) -> Option<ObjectRequest<'a>>
        ensures { option_map model_request result ≡ holding_request text.now }
    {
        if text.len() > LONGEST_REQUEST {
            return None;
        }
        let (word, arguments) = split_first_word(text);
        let Some(form) = ObjectForm::named(word) else {
            return None;
        };
        match arguments {
            Some(arguments) => request_with(form, arguments),
            None => bare_request(form),
        }
    }
}

/// Parses the arguments of a request with this keyword: the text after the keyword and a space.
fn request_with(form: ObjectForm, arguments: &[u8]) -> Option<ObjectRequest<'_>>
    ensures { option_map model_request result ≡ made_of form (Some arguments.now) }
{
    match form {
        ObjectForm::Make => read_make(arguments),
        ObjectForm::Resize => read_resize(arguments),
        ObjectForm::Drop => match file_word(arguments) {
            Some(name) => Some(ObjectRequest::Drop(name)),
            None => None,
        },
        ObjectForm::Count => match file_word(arguments) {
            Some(kind) => Some(ObjectRequest::CountKind(kind)),
            None => None,
        },
        ObjectForm::Name => match read_number(arguments) {
            Some(index) => Some(ObjectRequest::Name(index)),
            None => None,
        },
        ObjectForm::Buffer => match read_number(arguments) {
            Some(bytes) => Some(ObjectRequest::Buffer(bytes)),
            None => None,
        },
        ObjectForm::Stat | ObjectForm::Unbuffer => None,
    }
}

/// Returns the request of a form without arguments.
fn bare_request<'a>(form: ObjectForm) -> Option<ObjectRequest<'a>>
    ensures { option_map model_request result ≡ made_of form None }
{
    match form {
        ObjectForm::Count => Some(ObjectRequest::Count),
        ObjectForm::Stat => Some(ObjectRequest::Stat),
        ObjectForm::Unbuffer => Some(ObjectRequest::Unbuffer),
        _ => None,
    }
}

/// Parses a kind and a name, separated by a space.
fn read_make(arguments: &[u8]) -> Option<ObjectRequest<'_>>
    ensures { option_map model_request result
        ≡ option_map OfObjects (of_file make_of arguments.now) }
{
    let (kind, Some(name)) = split_first_word(arguments) else {
        return None;
    };
    let (Some(kind), Some(name)) = (file_word(kind), file_word(name)) else {
        return None;
    };
    Some(ObjectRequest::Make { kind, name })
}

/// Parses a name and a number of units, separated by a space.
fn read_resize(arguments: &[u8]) -> Option<ObjectRequest<'_>>
    ensures { option_map model_request result
        ≡ option_map OfObjects (of_file resize_of arguments.now) }
{
    let (name, Some(units)) = split_first_word(arguments) else {
        return None;
    };
    let (Some(name), Some(units)) = (file_word(name), read_number(units)) else {
        return None;
    };
    Some(ObjectRequest::Resize { name, units })
}
