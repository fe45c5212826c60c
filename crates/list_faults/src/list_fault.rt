//! Why a start list isn't read, or doesn't boot, and the place of the fault.
ghost use Rattle.std.specs.Prelude.{◌≡◌};
ghost use Rattle.list_parser.specs.declared.fault.BootFault.TheVariants.{NoMemory};

use crate::json_advice::json_advice;
use crate::value_flaw::ValueFlaw;
use list_parser::BootFault;
use list_parts::EntryShortfall;
use std::alloc::AllocError;
use std::fmt;
use std::fmt::Display;

/// The reason for which a text is no JSON: whether the text ends too early, and what is expected there or what the text has that
/// other formats allow.
#[derive(Clone, Copy)]
pub struct JsonFlaw {
    is_end: bool,
    advice: &'static str,
}

impl JsonFlaw {
    /// Returns the reason for which a text is no JSON from a line and a column on, which may be its end.
    pub fn at(text: &[u8], line: usize, column: usize, is_end: bool) -> JsonFlaw {
        JsonFlaw {
            is_end,
            advice: json_advice(text, line, column, is_end),
        }
    }
}

impl Display for JsonFlaw {
    fn fmt<W: fmt::Write>(&self, f: &mut fmt::Formatter<W>) -> fmt::Result {
        let reason = if self.is_end {
            "EOF while parsing"
        } else {
            "invalid JSON"
        };
        write!(f, "{reason}; {}", self.advice)
    }
}

/// The place of a fault, with what diagnostics print of it.
#[derive(Drop)]
pub enum FaultSite {
    /// In the JSON text: the line and the column, from 1 on, and the reason.
    Text(usize, usize, JsonFlaw),
    /// In the value of the text.
    Value(ValueFlaw),
    /// At the entry that isn't covered.
    Budget(EntryShortfall),
    /// In the whole text, which has so many bytes.
    Size(usize),
    /// Nowhere: the host is out of memory.
    Nowhere,
}

/// A fault of a start list: the engine's own fault, and its place.
#[derive(Drop)]
pub struct PlacedFault {
    /// The fault.
    pub fault: BootFault,
    /// The place of the fault.
    pub place: FaultSite,
}

impl From<AllocError> for PlacedFault {
    ghost from_gives = { λ _ fault. fault.fault ≡ NoMemory };

    fn from(_want: AllocError) -> PlacedFault {
        PlacedFault {
            fault: BootFault::NoMemory,
            place: FaultSite::Nowhere,
        }
    }
}

/// Writes the fault, and what is expected at its place; without a line and a column, which are printed before it.
impl Display for PlacedFault {
    fn fmt<W: fmt::Write>(&self, f: &mut fmt::Formatter<W>) -> fmt::Result {
        write!(f, "{}", self.fault)?;
        match &self.place {
            FaultSite::Text(_, _, flaw) => write!(f, ": {flaw}"),
            FaultSite::Value(flaw) => write!(f, ": {flaw}"),
            FaultSite::Budget(lack) => write!(f, ": {lack}"),
            FaultSite::Size(size) => write!(f, ": expected at most 65536 bytes, found {size}"),
            FaultSite::Nowhere => Ok(()),
        }
    }
}
