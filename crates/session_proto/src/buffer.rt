//! The file service's requests for a session's buffer.
ghost use Rattle.std.specs.Prelude.{◌≡◌, ℕ, List, IfSome};
ghost use Rattle.std.specs.Option.{option_map};
ghost use Rattle.own_model.specs.BufferService.{BufferRequest, move_of};
ghost use Rattle.own_model.specs.BufferService.BufferRequest.{Put, Get};
ghost use Rattle.own_model.specs.BufferService.SessionRequest.{OfBuffer};
ghost use Rattle.own_model.specs.FileText.{of_file};
ghost use Rattle.session_proto.specs.File.{model_request, request_of_move, HasHex};

use crate::file::{FileRequest, file_word};
use text_codec::split_first_word;
use trade_base::read_number;

/// Parses the arguments of `PUT`, which writes bytes of the buffer to a file.
pub(crate) fn read_put(arguments: &[u8]) -> Option<FileRequest<'_>>
    ensures request { option_map model_request result
        ≡ option_map OfBuffer (of_file (move_of Put) arguments.now) }
    ensures hex { IfSome result HasHex }
{
    let Some(
        BufferTransfer {
            file,
            offset,
            place,
            len,
        },
    ) = read_move(arguments)
    else {
        return None;
    };
    Some(FileRequest::Put {
        file,
        offset,
        place,
        len,
    })
}

/// Parses the arguments of `GET`, which copies bytes of a file into the buffer.
pub(crate) fn read_get(arguments: &[u8]) -> Option<FileRequest<'_>>
    ensures request { option_map model_request result
        ≡ option_map OfBuffer (of_file (move_of Get) arguments.now) }
    ensures hex { IfSome result HasHex }
{
    let Some(
        BufferTransfer {
            file,
            offset,
            place,
            len,
        },
    ) = read_move(arguments)
    else {
        return None;
    };
    Some(FileRequest::Get {
        file,
        offset,
        place,
        len,
    })
}

/// The arguments of a copy of `len` bytes between an offset of a file and a place in the buffer.
struct BufferTransfer<'a> {
    file: &'a [u8],
    offset: u64,
    place: u64,
    len: u64,
}

/// Parses a file name, an offset, a place and a length, separated by spaces.
fn read_move(arguments: &[u8]) -> Option<BufferTransfer<'_>>
    ensures { (request : List ℕ → ℕ → ℕ → ℕ → BufferRequest) →
        option_map (request_of_move request) result ≡ of_file (move_of request) arguments.now }
{
    let (file, Some(rest)) = split_first_word(arguments) else {
        return None;
    };
    let (offset, Some(rest)) = split_first_word(rest) else {
        return None;
    };
    let (place, Some(len)) = split_first_word(rest) else {
        return None;
    };
    let (Some(file), Some(offset)) = (file_word(file), read_number(offset)) else {
        return None;
    };
    let (Some(place), Some(len)) = (read_number(place), read_number(len)) else {
        return None;
    };
    Some(BufferTransfer {
        file,
        offset,
        place,
        len,
    })
}
