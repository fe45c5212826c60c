//! The places at which the keys of a JSON text begin.
ghost use Rattle.std.specs.Prelude.{◌≡◌, ◌<◌, ◌^◌, IfOk};
ghost use Rattle.list_findings.specs.KeyPlaces.{ends_key, first, key_places, scan_behind, start};

use std::alloc::{AllocError, Global};

/// A place in a text, from 1 on: the number of the line, and that of the byte in the line.
#[derive(Clone, Copy)]
pub(crate) struct KeyPlace {
    pub(crate) line: usize,
    pub(crate) column: usize,
}

impl KeyPlace {
    /// Returns the place at which a text begins: line 1, column 1.
    pub(crate) fn first() -> KeyPlace
        ensures { result ≡ first }
    {
        KeyPlace { line: 1, column: 1 }
    }
}

/// The relation of a place to the texts in quotes.
#[derive(Clone, Copy)]
pub(crate) enum QuoteMode {
    /// Outside of texts in quotes.
    Outside,
    /// Within a text in quotes.
    Inside,
    /// Within a text in quotes, after a backslash.
    Escaped,
}

/// The state of a scan of a text, byte by byte: where the next byte is, and where the last text in quotes begins.
#[derive(Clone, Copy)]
pub(crate) struct KeyScan {
    pub(crate) mode: QuoteMode,
    pub(crate) here: KeyPlace,
    pub(crate) begun: KeyPlace,
}

impl KeyScan {
    // The state at the first byte.
    fn start() -> KeyScan
        ensures { result ≡ start }
    {
        KeyScan {
            mode: QuoteMode::Outside,
            here: KeyPlace::first(),
            begun: KeyPlace::first(),
        }
    }

    // Whether the text that began last is a key, by the byte that is here.
    fn ends_key(self, byte: u8) -> bool
        ensures { result ≡ ends_key self byte }
    {
        matches!(self.mode, QuoteMode::Outside) && byte == b':'
    }

    // The state after the byte that is here.
    fn behind(self, byte: u8) -> KeyScan
        requires line { self.here.line < 2 ^ 63 }
        requires column { self.here.column < 2 ^ 63 }
        ensures { result ≡ scan_behind self byte }
    {
        let here = if byte == b'\n' {
            KeyPlace {
                line: self.here.line + 1,
                column: 1,
            }
        } else {
            KeyPlace {
                line: self.here.line,
                column: self.here.column + 1,
            }
        };
        let (mode, begun) = match (self.mode, byte) {
            (QuoteMode::Outside, b'"') => (QuoteMode::Inside, self.here),
            (QuoteMode::Outside, _) | (QuoteMode::Inside, b'"') => (QuoteMode::Outside, self.begun),
            (QuoteMode::Inside, b'\\') => (QuoteMode::Escaped, self.begun),
            (QuoteMode::Inside, _) | (QuoteMode::Escaped, _) => (QuoteMode::Inside, self.begun),
        };
        KeyScan { mode, here, begun }
    }
}

/// Returns the places at which the keys of a JSON text begin, in order. Fails if the host is out of memory.
pub(crate) fn key_places(alloc: Global, text: &[u8]) -> Result<Vec<KeyPlace>, AllocError>
    ensures { IfOk result (λ places. places.items ≡ key_places text.now) }
{
    let mut places = Vec::new(alloc);
    let mut scan = KeyScan::start();
    for byte in text {
        if scan.ends_key(*byte) {
            places.push(scan.begun)?;
        }
        scan = scan.behind(*byte);
    }
    Ok(places)
}
