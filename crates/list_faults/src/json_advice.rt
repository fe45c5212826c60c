//! What is expected at the place where a text is no JSON.
use text_codec::skip_bytes;

/// Returns what JSON expects at the column of a line of a text, both from 1 on, or which part the text has there that other formats
/// allow. The flag states that the text ends there.
pub(crate) fn json_advice(text: &[u8], line: usize, column: usize, is_end: bool) -> &'static str {
    let mut place = column.saturating_sub(1);
    for line in text
        .split(|byte| *byte == b'\n')
        .take(line.saturating_sub(1))
    {
        place = place.saturating_add(line.len()).saturating_add(1);
    }
    let rest = skip_bytes(text, place);
    if place == 0 && rest.starts_with(b"\xef\xbb\xbf") {
        return "JSON has no byte order mark";
    }
    if rest.starts_with(b"//") || rest.starts_with(b"/*") {
        return "JSON has no comments";
    }
    let mut scan = JsonScan {
        objects: 1,
        next: NextToken::Value,
    };
    for byte in text.iter().take(place) {
        scan.pass(*byte);
    }
    let is_closed = rest.starts_with(b"}") || rest.starts_with(b"]");
    match (scan.next, scan.container()) {
        (NextToken::Value | NextToken::Name, Some(_)) if is_closed && scan.objects > 1 => {
            "JSON has no comma after the last element"
        }
        (NextToken::Scalar, _) if !is_end && follows_number(text, place) => {
            "expected a number that a double can hold"
        }
        (NextToken::Value | NextToken::Scalar, _) => "expected a value",
        (NextToken::FirstValue, _) => "expected a value or `]`",
        (NextToken::Name, _) => "expected a name in quotes",
        (NextToken::FirstName, _) => "expected a name in quotes or `}`",
        (NextToken::Colon, _) => "expected `:`",
        (NextToken::Quoted(_, _), _) => "expected the rest of a text and its second quote",
        (NextToken::Behind, Some(true)) => "expected `,` or `}`",
        (NextToken::Behind, Some(false)) => "expected `,` or `]`",
        (NextToken::Behind, None) => "expected the end of the text",
    }
}

// Whether a number ends before a place.
fn follows_number(text: &[u8], place: usize) -> bool {
    let before = text.get(place.saturating_sub(1)).copied().unwrap_or(0);
    let after = text.get(place).copied().unwrap_or(0);
    before.is_ascii_digit()
        && !(after.is_ascii_alphanumeric() || after == b'.' || after == b'+' || after == b'-')
}

// What comes next in a JSON text.
#[derive(Clone, Copy)]
enum NextToken {
    Value,
    // A value, or the end of a list.
    FirstValue,
    // The name of a member.
    Name,
    // The name of a member, or the end of an object.
    FirstName,
    Colon,
    // The rest of a number or a word.
    Scalar,
    // The rest of a text: whether it is a name, and whether its next character is escaped.
    Quoted(bool, bool),
    // What follows a value.
    Behind,
}

// The front of a JSON text. `objects` has a bit for each list and each object that is open, set for an object, after a first bit.
#[derive(Drop)]
struct JsonScan {
    objects: u128,
    next: NextToken,
}

impl JsonScan {
    // Whether the innermost part that is open is an object and no list, if one is open.
    fn container(&self) -> Option<bool> {
        if self.objects > 1 {
            Some(self.objects % 2 == 1)
        } else {
            None
        }
    }

    // Passes the next byte.
    fn pass(&mut self, byte: u8) {
        let is_object = self.container() == Some(true);
        self.next = match (self.next, byte) {
            (NextToken::Quoted(name, true), _) => NextToken::Quoted(name, false),
            (NextToken::Quoted(name, false), b'\\') => NextToken::Quoted(name, true),
            (NextToken::Quoted(true, false), b'"') => NextToken::Colon,
            (NextToken::Quoted(false, false), b'"') => NextToken::Behind,
            (NextToken::Quoted(name, false), _) => NextToken::Quoted(name, false),
            (NextToken::Scalar, b' ' | b'\t' | b'\n' | b'\r') => NextToken::Behind,
            (next, b' ' | b'\t' | b'\n' | b'\r') => next,
            (NextToken::Name | NextToken::FirstName, b'"') => NextToken::Quoted(true, false),
            (_, b'"') => NextToken::Quoted(false, false),
            (_, b'{') => {
                self.objects = self.objects.wrapping_mul(2) | 1;
                NextToken::FirstName
            }
            (_, b'[') => {
                self.objects = self.objects.wrapping_mul(2);
                NextToken::FirstValue
            }
            (_, b'}' | b']') => {
                self.objects /= 2;
                NextToken::Behind
            }
            (_, b':') => NextToken::Value,
            (_, b',') if is_object => NextToken::Name,
            (_, b',') => NextToken::Value,
            (_, _) => NextToken::Scalar,
        };
    }
}
