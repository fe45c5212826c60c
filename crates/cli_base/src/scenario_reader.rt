//! The reader of a scenario: its bytes, and on a terminal how many of its lines are read.
ghost use Rattle.std.specs.Prelude.{◌≡◌, false};
ghost use Rattle.cli_base.specs.Origins.{origin_bytes};

use crate::streams::Origin;
use run_devices::{Input, Source};
use std::io;
use std::io::{IsTerminal, Read};
use std::time::Instant;

/// How many seconds a run takes before it reports its progress.
const SECONDS_BEFORE: u64 = 2;

/// When a command prints what it computes.
#[derive(Clone, Copy, PartialEq, Eq)]
pub enum Printing {
    /// While it reads lines.
    Meanwhile,
    /// After the last line.
    Afterwards,
}

/// The source of a scenario's bytes, which reports the progress of a long run.
#[derive(Drop)]
pub struct ScenarioBytes<'a, F> {
    origin: Origin<'a, F>,
    progress: Option<Progress<'a>>,
}

/// The reader of a scenario's lines.
pub type Reader<'a, F> = Input<ScenarioBytes<'a, F>>;

/// Returns a reader of a scenario. If standard error is a terminal, a run of over two seconds reports on it every second how many lines
/// are read, unless the command prints meanwhile on a terminal.
pub fn watched_reader<'a, F: Read>(
    rt: &'a HostRuntime,
    origin: Origin<'a, F>,
    printing: Printing,
) -> Reader<'a, F>
    ensures bytes { ⟦<Reader<'a, F> as Source>⟧.remaining result ≡ origin_bytes F.remaining origin.entry }
    ensures fresh { ⟦<Reader<'a, F> as Source>⟧.has_failed result ≡ false }
{
    let is_seen = printing == Printing::Meanwhile && rt.stdout().is_terminal();
    let progress = if is_seen || !rt.stderr().is_terminal() {
        None
    } else {
        Progress::start(rt)
    };
    Input::new(ScenarioBytes { origin, progress })
}

/// Returns a reader of a scenario that reports no progress.
pub fn silent_reader<'a, F: Read>(origin: Origin<'a, F>) -> Reader<'a, F>
    ensures bytes { ⟦<Reader<'a, F> as Source>⟧.remaining result ≡ origin_bytes F.remaining origin.entry }
    ensures fresh { ⟦<Reader<'a, F> as Source>⟧.has_failed result ≡ false }
{
    Input::new(ScenarioBytes {
        origin,
        progress: None,
    })
}

impl<F: Read> Read for ScenarioBytes<'_, F> {
    ghost use Rattle.cli_base.specs.Origins.{origin_bytes};

    ghost remaining = { λ source. origin_bytes F.remaining source.origin };

    fn read(&mut self, buffer: &mut [u8]) -> io::Result<usize> {
        let count = self.origin.read(buffer)?;
        if let Some(progress) = &mut self.progress {
            progress.report(&buffer[..count]);
        }
        Ok(count)
    }
}

// The progress of a run.
#[derive(Drop)]
struct Progress<'a> {
    rt: &'a HostRuntime,
    start: Instant,
    lines: u64,
    // The second since the start in which the last report was printed, or 0.
    reported: u64,
}

impl<'a> Progress<'a> {
    // Returns the progress of a run that begins now, or none if the host has no clock.
    fn start(rt: &'a HostRuntime) -> Option<Progress<'a>> {
        Some(Progress {
            rt,
            start: Instant::now(rt).ok()?,
            lines: 0,
            reported: 0,
        })
    }

    // Counts the lines that end in a block, and prints how many have ended. Clears the report at the end of the input.
    fn report(&mut self, block: &[u8]) {
        self.count(block);
        let Ok(elapsed) = self.start.elapsed(self.rt) else {
            return;
        };
        let second = elapsed.as_secs();
        if block.is_empty() {
            self.clear();
        } else if SECONDS_BEFORE <= second && self.reported < second {
            self.reported = second;
            let lines = self.lines;
            let _ = eprint!(self.rt; "{lines} lines\r");
        }
    }

    // Counts the lines that end in a block.
    fn count(&mut self, block: &[u8]) {
        for byte in block {
            if *byte == b'\n' {
                self.lines = self.lines.saturating_add(1);
            }
        }
    }

    // Clears what was reported.
    fn clear(&mut self) {
        if 0 < self.reported {
            self.reported = 0;
            let _ = eprint!(self.rt; "\x1b[K");
        }
    }
}
