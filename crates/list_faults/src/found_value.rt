//! The values that are found in place of expected ones, as far as diagnostics print them.
use arrayvec::ArrayString;
use list_parts::QuotedText;
use serde_json::Value;
use std::fmt;

/// The maximum number of bytes of a text that is printed whole.
const MOST_TOLD: usize = 40;

/// The value that is found at a place, as far as diagnostics print it.
#[derive(Clone, Copy)]
pub enum FoundValue {
    /// No value.
    Missing,
    /// `null`.
    Null,
    /// `true`, or `false`.
    Boolean(bool),
    /// A whole number.
    Whole(u64),
    /// A whole number below 0.
    Negative(i64),
    /// Another number.
    Number,
    /// A text.
    Text(ArrayString<MOST_TOLD>),
    /// A longer text, of so many bytes.
    LongText(usize),
    /// A list of so many elements.
    List(usize),
    /// An object.
    Object,
}

impl FoundValue {
    /// Returns what is found of a value that may be missing.
    pub(crate) fn of(value: Option<&Value>) -> FoundValue {
        match value {
            None => FoundValue::Missing,
            Some(Value::Null) => FoundValue::Null,
            Some(Value::Bool(value)) => FoundValue::Boolean(*value),
            Some(Value::Number(number)) => match (number.as_u64(), number.as_i64()) {
                (Some(whole), _) => FoundValue::Whole(whole),
                (None, Some(below)) => FoundValue::Negative(below),
                (None, None) => FoundValue::Number,
            },
            Some(Value::String(text)) => match ArrayString::from(text.as_str()) {
                Ok(short) => FoundValue::Text(short),
                Err(_) => FoundValue::LongText(text.len()),
            },
            Some(Value::Array(list)) => FoundValue::List(list.len()),
            Some(Value::Object(_)) => FoundValue::Object,
        }
    }
}

impl fmt::Display for FoundValue {
    fn fmt<W: fmt::Write>(&self, f: &mut fmt::Formatter<W>) -> fmt::Result {
        match self {
            FoundValue::Missing => f.write_str("missing"),
            FoundValue::Null => f.write_str("null"),
            FoundValue::Boolean(value) => write!(f, "{value}"),
            FoundValue::Whole(number) => write!(f, "{number}"),
            FoundValue::Negative(number) => write!(f, "{number}"),
            FoundValue::Number => f.write_str("a number that isn't whole"),
            FoundValue::Text(text) => {
                let quoted = QuotedText {
                    text: text.as_str(),
                    in_graph: false,
                };
                write!(f, "{quoted}")
            }
            FoundValue::LongText(length) => write!(f, "a text of {length} bytes"),
            FoundValue::List(count) => write!(f, "a list of {count}"),
            FoundValue::Object => f.write_str("an object"),
        }
    }
}
