//! The requests of the file service.
ghost use Rattle.std.specs.Prelude.{◌≡◌, ◌==◌, not, IfSome, Some, None};
ghost use Rattle.std.specs.Option.{option_copied, option_map};
ghost use Rattle.std.specs.List.{list_all};
ghost use Rattle.own_model.specs.BufferService.{session_request};
ghost use Rattle.own_model.specs.BufferService.SessionRequest.{OfFiles};
ghost use Rattle.own_model.specs.FileText.{file_word, of_file, read_of, write_of};
ghost use Rattle.session_proto.specs.File.{model_request, HasHex};
ghost use Rattle.session_proto.specs.Forms.{made_of, made_of_word};

use crate::buffer::{read_get, read_put};
use crate::form::FileForm;
use crate::hex_text::hex_or_nothing;
use crate::log::LONGEST_REQUEST;
use text_codec::split_first_word;
use trade_base::read_number;

/// A request for the files or the buffer of a session. A file name has one or more bytes and no space. Bytes are
/// hexadecimal digits, two for each byte.
#[derive(Clone, Copy)]
pub enum FileRequest<'a> {
    /// Create a file with this name.
    Create(&'a [u8]),
    /// Write bytes to a file at an offset.
    Write {
        file: &'a [u8],
        offset: u64,
        hex: &'a [u8],
    },
    /// Read `len` bytes of a file at an offset.
    Read {
        file: &'a [u8],
        offset: u64,
        len: u64,
    },
    /// Return the size of a file.
    Size(&'a [u8]),
    /// Free the bytes of a file.
    Clear(&'a [u8]),
    /// Delete a file and its node.
    Drop(&'a [u8]),
    /// Return the name of the file at an index.
    Name(u64),
    /// Return use and limit of the session's account.
    Stat,
    /// Create the session's buffer, of this many bytes, rounded up to whole pages.
    Buffer(u64),
    /// Release the session's buffer.
    Unbuffer,
    /// Write `len` bytes of the buffer from `place` on to a file at an offset.
    Put {
        file: &'a [u8],
        offset: u64,
        place: u64,
        len: u64,
    },
    /// Copy at most `len` bytes of a file at an offset into the buffer from `place` on.
    Get {
        file: &'a [u8],
        offset: u64,
        place: u64,
        len: u64,
    },
}

impl<'a> FileRequest<'a> {
    /// Parses a request, or returns `None` if the text is longer than 8192 bytes or has another form.
    pub fn read(text: &'a [u8]) -> Option<FileRequest<'a>>
        ensures request { option_map model_request result ≡ session_request text.now }
        ensures hex { IfSome result HasHex }
    {
        if text.len() > LONGEST_REQUEST {
            return None;
        }
        let (word, arguments) = split_first_word(text);
        let Some(form) = FileForm::named(word) else {
            return None;
        };
        match arguments {
            Some(arguments) => request_with(form, arguments),
            None => bare_request(form),
        }
    }
}

/// Parses the arguments of a request with this keyword: the text after the keyword and a space.
fn request_with(form: FileForm, arguments: &[u8]) -> Option<FileRequest<'_>>
    ensures request { option_map model_request result ≡ made_of form (Some arguments.now) }
    ensures hex { IfSome result HasHex }
{
    match form {
        FileForm::Create | FileForm::Size | FileForm::Clear | FileForm::Drop => {
            match file_word(arguments) {
                Some(file) => word_request(form, file),
                None => None,
            }
        }
        FileForm::Write => read_write(arguments),
        FileForm::Read => read_read(arguments),
        FileForm::Name => match read_number(arguments) {
            Some(index) => Some(FileRequest::Name(index)),
            None => None,
        },
        FileForm::Buffer => match read_number(arguments) {
            Some(bytes) => Some(FileRequest::Buffer(bytes)),
            None => None,
        },
        FileForm::Put => read_put(arguments),
        FileForm::Get => read_get(arguments),
        FileForm::Stat | FileForm::Unbuffer => None,
    }
}

/// Returns the request of a form whose argument is one file name.
fn word_request(form: FileForm, file: &[u8]) -> Option<FileRequest<'_>>
    ensures request { option_map model_request result ≡ made_of_word form file.now }
    ensures hex { IfSome result HasHex }
{
    match form {
        FileForm::Create => Some(FileRequest::Create(file)),
        FileForm::Size => Some(FileRequest::Size(file)),
        FileForm::Clear => Some(FileRequest::Clear(file)),
        FileForm::Drop => Some(FileRequest::Drop(file)),
        _ => None,
    }
}

/// Returns the request of a form without arguments.
fn bare_request<'a>(form: FileForm) -> Option<FileRequest<'a>>
    ensures request { option_map model_request result ≡ made_of form None }
    ensures hex { IfSome result HasHex }
{
    match form {
        FileForm::Stat => Some(FileRequest::Stat),
        FileForm::Unbuffer => Some(FileRequest::Unbuffer),
        _ => None,
    }
}

/// Returns a file name if the text is one: one or more bytes without a space.
pub(crate) fn file_word(text: &[u8]) -> Option<&[u8]>
    ensures { option_copied result ≡ file_word text.now }
{
    if !text.is_empty() && has_no_space(text) {
        Some(text)
    } else {
        None
    }
}

/// Returns whether no byte of a text is a space.
fn has_no_space(text: &[u8]) -> bool
    ensures { result ≡ list_all (λ b. not (b == 32)) text.now }
{
    text.iter().all(|byte| *byte != b' ')
}

/// Parses a file name, an offset, and hexadecimal digits or nothing, separated by spaces.
fn read_write(arguments: &[u8]) -> Option<FileRequest<'_>>
    ensures request { option_map model_request result
        ≡ option_map OfFiles (of_file write_of arguments.now) }
    ensures hex { IfSome result HasHex }
{
    let (file, Some(rest)) = split_first_word(arguments) else {
        return None;
    };
    let (offset, hex) = split_first_word(rest);
    let (Some(file), Some(offset), Some(hex)) = (
        file_word(file),
        read_number(offset),
        hex_or_nothing(hex),
    ) else {
        return None;
    };
    Some(FileRequest::Write { file, offset, hex })
}

/// Parses a file name, an offset and a length, separated by spaces.
fn read_read(arguments: &[u8]) -> Option<FileRequest<'_>>
    ensures request { option_map model_request result
        ≡ option_map OfFiles (of_file read_of arguments.now) }
    ensures hex { IfSome result HasHex }
{
    let (file, Some(rest)) = split_first_word(arguments) else {
        return None;
    };
    let (offset, Some(len)) = split_first_word(rest) else {
        return None;
    };
    let (Some(file), Some(offset), Some(len)) = (
        file_word(file),
        read_number(offset),
        read_number(len),
    ) else {
        return None;
    };
    Some(FileRequest::Read { file, offset, len })
}
