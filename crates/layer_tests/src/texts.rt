//! Parsers of texts: each on texts that it accepts and on others.

use session_proto::{FileRequest, SessionArgs};
use std::process::Abort;
use text_codec::{
    decode_hex, encode_hex, find_byte, has_name_bytes, is_name, is_path, read_address, read_hex,
    split_first_word,
};
use trade_base::{read_amount, read_number};

/// Texts, and the numbers of bytes that they denote as an amount.
const AMOUNTS: &str = "0 => 0
0042 => 42
4K => 4096
16M => 16777216
00G => 0
18446744073709551615 => 18446744073709551615
17179869183G => 18446744072635809792
 => none
K => none
4k => none
4KK => none
4K  => none
+4 => none
-4 => none
4K4 => none
18446744073709551616 => none
17179869184G => none
18446744073709551616K => none";

/// Texts, and the addresses that they denote.
const ADDRESSES: &str = "0x0000000000000010 => 16
0xffffFFFFffffFFFF => 18446744073709551615
0x => none
10 => none
0X10 => none
0x1g => none
0x00000000000000010 => none";

/// Checks that each row's text is parsed as the number after it, or as none.
fn check_numbers(rt: &impl Abort, rows: &str, amounts: bool) {
    for line in rows.lines() {
        let (text, want) = line.split_once(" => ").expect(rt, "a row has a number");
        let read = if amounts {
            read_amount(text.as_bytes())
        } else {
            read_address(text.as_bytes())
        };
        assert!(rt; is_number(read, want), "of {text}");
    }
}

/// Whether a text is that of a number, or none's.
fn is_number(read: Option<u64>, text: &str) -> bool {
    read == text.parse::<u64>().ok()
}

#[test]
fn amounts_and_addresses_are_read(rt: HostRuntime) {
    check_numbers(&rt, AMOUNTS, true);
    check_numbers(&rt, ADDRESSES, false);
    assert!(rt; read_number(b"007") == Some(7) && read_number(b"7K").is_none());
}

/// The kind that a text is tested for.
#[derive(Clone, Copy)]
enum TextKind {
    Name,
    Path,
    NameBytes,
    Hex,
}

impl TextKind {
    /// Whether a text is that.
    fn is(self, text: &[u8]) -> bool {
        match self {
            TextKind::Name => is_name(text),
            TextKind::Path => is_path(text),
            TextKind::NameBytes => has_name_bytes(text),
            TextKind::Hex => read_hex(text).is_some(),
        }
    }
}

/// Texts that are names.
const NAMES: &str = "A-0_z.9
abcdefghijklmnopqrstuvwxyz012345";

/// Texts that are no names.
const NO_NAMES: &str = "abcdefghijklmnopqrstuvwxyz0123456

a/b";

/// Texts that aren't pairs of hexadecimal digits.
const NO_HEX: &str = "
0
000
0g
00\x20";

/// Checks that each line is of a kind, or that none is.
fn check_each(rt: &impl Abort, asked: TextKind, lines: &str, want: bool) {
    for text in lines.lines() {
        assert!(rt; asked.is(text.as_bytes()) == want, "of {text}");
    }
}

#[test]
fn names_and_hexadecimal_digits_are_told(rt: HostRuntime) {
    check_each(&rt, TextKind::Name, NAMES, true);
    check_each(&rt, TextKind::Path, NAMES, true);
    check_each(&rt, TextKind::Name, NO_NAMES, false);
    check_each(&rt, TextKind::Path, "a/b", true);
    check_each(&rt, TextKind::Path, "a//b", false);
    check_each(
        &rt,
        TextKind::NameBytes,
        "abcdefghijklmnopqrstuvwxyz0123456",
        true,
    );
    check_each(&rt, TextKind::Hex, "00fF", true);
    check_each(&rt, TextKind::Hex, NO_HEX, false);
}

/// A text, its first word, and the text after the space, if there is one.
type SplitText = (&'static [u8], &'static [u8], Option<&'static [u8]>);

const PARTED: &[SplitText] = &[
    (b"quota  1", b"quota", Some(b" 1")),
    (b"quota", b"quota", None),
    (b" quota", b"", Some(b"quota")),
];

/// Checks that each text is split at its first space.
fn check_parted(rt: &impl Abort, rows: &[SplitText]) {
    for (text, word, rest) in rows {
        assert!(rt; split_first_word(text) == (*word, *rest));
    }
}

#[test]
fn bytes_are_found_and_parted(rt: HostRuntime) {
    assert!(rt; find_byte(b'=', b"a=b=c") == Some(1));
    assert!(rt; find_byte(b'=', b"abc").is_none() && find_byte(b'=', b"").is_none());
    check_parted(&rt, PARTED);
}

#[test]
#[tactic(auto, unfolding(hex::proofs::OnLiterals::hex_on_literals))]
fn bytes_are_decoded_and_encoded(rt: HostRuntime) {
    let mut bytes = [0; 11];
    decode_hex(b"00fF0aA96f9B7e80c35D1b", &mut bytes);
    assert!(rt; bytes == [0, 255, 10, 169, 111, 155, 126, 128, 195, 93, 27]);
    let mut hex = [0; 22];
    encode_hex(&bytes, &mut hex);
    assert!(rt; hex == *b"00ff0aa96f9b7e80c35d1b");
    decode_hex(b"", &mut bytes[..0]);
    encode_hex(b"", &mut hex[..0]);
    assert!(rt; hex == *b"00ff0aa96f9b7e80c35d1b");
}

/// Texts of a session's arguments, and after ` => ` the RAM, the capabilities and the label, if there is one.
const ARGUMENTS: &str = r#" => 0 0
    => 0 0
ram_quota=4K, cap_quota=2, label="main" => 4096 2 main
  cap_quota=003  ,ram_quota=7  => 7 3
label="a, b = c",x="" => 0 0 a, b = c
label="" => 0 0
_k9=., ram_quota=17179869183G => 18446744072635809792 0
ram_quota=1, ram_quota="x", ram_quota=2 => 1 0
cap_quota=4294967295 => 0 4294967295"#;

/// Texts that are no arguments.
const NO_ARGUMENTS: &str = "ram_quota=18446744073709551616, cap_quota=2
ram_quota=17179869184G, cap_quota=2
ram_quota=x
ram_quota =1
ram_quota= 1
ram_quota=\"1\"
cap_quota=1K
cap_quota=4294967296
label=main
label=\"a\\b\"
label=\"a
label=a\"
label=\"a\" b
label=\"
label=\"\x7f\"
ram_quota=1,
,ram_quota=1
ram_quota=1,,cap_quota=1
ram_quota=1 cap_quota=1
ram_quota
=1
9a=1
a=
a\t=1
\tram_quota=1
ram_quota=1, x
ram_quota=1, ram_quota=a b
label=\".................................................................\"";

/// A label of 64 bytes.
const LONGEST: &str = "label=\"................................................................\"";

/// Whether a text is arguments with this RAM, these capabilities and this label, if there is one.
fn are_arguments(text: &str, want: &str) -> bool {
    let (ram, rest) = want.split_once(' ').unwrap_or((want, ""));
    let (caps, label) = rest.split_once(' ').unwrap_or((rest, ""));
    match SessionArgs::read(text.as_bytes()) {
        Ok(args) => {
            is_number(Some(args.ram().0), ram)
                && is_number(Some(u64::from(args.caps().0)), caps)
                && args.label() == label.as_bytes()
        }
        Err(_) => false,
    }
}

#[test]
fn session_arguments_are_read(rt: HostRuntime) {
    for line in ARGUMENTS.lines() {
        let (text, want) = line.split_once(" => ").expect(&rt, "a row has arguments");
        assert!(rt; are_arguments(text, want), "of {text}");
    }
    for text in NO_ARGUMENTS.lines() {
        assert!(rt; SessionArgs::read(text.as_bytes()).is_err(), "of {text}");
    }
    assert!(rt; SessionArgs::read(LONGEST.as_bytes()).is_ok());
}

#[test]
fn requests_have_8192_bytes_at_most(rt: HostRuntime) {
    let mut text = [b'0'; 8193];
    text[..5].copy_from_slice(b"SIZE ");
    assert!(rt; FileRequest::read(&text[..8192]).is_some());
    assert!(rt; FileRequest::read(&text).is_none());
}
