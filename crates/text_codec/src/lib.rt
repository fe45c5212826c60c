//! Parsing of bytes, arguments, names, addresses and hexadecimal digits, and printing of numbers.
//!
//! The parsers of calls, start lists and service requests call these functions. For example, `read_address(b"0x10")`
//! returns `Some(16)`.
#![tactic(auto)]

mod address;
mod byte_kinds;
mod bytes;
mod digits;
mod fixed_text;
mod hex_pairs;
mod hex_text;
mod words;

pub use address::read_address;
pub use byte_kinds::{is_key_byte, is_name_byte, is_quotable};
pub use bytes::{find_byte, find_either, skip_bytes};
pub use digits::{MOST_HEX_DIGITS, write_hex, write_number};
pub use fixed_text::{add, add_number};
pub use hex_pairs::{decode_hex, decode_hex_from, encode_hex};
pub use hex_text::read_hex;
pub use words::{
    LONGEST_NAME, MOST_NAMES, has_name_bytes, is_name, is_path, split_first_word, split_name,
    split_path,
};
