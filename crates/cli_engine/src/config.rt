//! The bytes of CONFIG, the text of a start list.
ghost use Rattle.std.specs.Prelude.{◌≡◌, ◌≤◌, IfOk, IfSome, Some, false, length, take};
ghost use Rattle.cli_engine.specs.Config.{is_unreadable};
ghost use Rattle.cli_engine.specs.Texts.{config_fault_text};
ghost use Rattle.cli_engine.specs.declared.config.ConfigFault.TheVariants.{Unreadable as CantRead, NoMemory as NoRoom};

use run_lines::{DeviceFault, Input, Source};
use std::alloc::{AllocError, Global};
use std::fmt::{Display, Formatter};
use std::rt::Files;
use std::{fmt, fs};
use thiserror::Error;

/// The most bytes of CONFIG that are read: one more than a start list may have, so that the length shows a text that is too
/// long.
pub const LONGEST_CONFIG_READ: usize = 65_537;

/// The number of bytes that one read asks for.
const BLOCK: usize = 4096;

/// The error with which CONFIG is not read.
#[derive(Clone, Copy, Debug, PartialEq, Eq, Error)]
pub enum ConfigFault {
    /// The file cannot be opened, or a read of it failed.
    Unreadable,
    /// The host is out of memory for the bytes.
    NoMemory,
}

impl Display for ConfigFault {
    ghost output = { λ fault. Some (config_fault_text fault) };

    fn fmt<W: fmt::Write>(&self, f: &mut Formatter<W>) -> fmt::Result {
        match self {
            ConfigFault::Unreadable => f.write_str("Unreadable_config"),
            ConfigFault::NoMemory => f.write_str("No_memory"),
        }
    }
}

impl From<DeviceFault> for ConfigFault {
    ghost from_gives = { λ _ fault. fault ≡ CantRead };

    fn from(_fault: DeviceFault) -> ConfigFault {
        ConfigFault::Unreadable
    }
}

impl From<AllocError> for ConfigFault {
    ghost from_gives = { λ _ fault. fault ≡ NoRoom };

    fn from(_want: AllocError) -> ConfigFault {
        ConfigFault::NoMemory
    }
}

/// Reads a source to its end, or at most `LONGEST_CONFIG_READ` bytes. Returns `NoMemory` if the host is out of memory, and
/// `Unreadable` if a read fails.
pub fn read_config<S: Source>(alloc: Global, source: &mut S) -> Result<Vec<u8>, ConfigFault>
    requires { S.has_failed source.old ≡ false }
    ensures text { IfOk result (λ text. IfSome (S.remaining source.old) (λ bytes.
        text.items ≡ take LONGEST_CONFIG_READ bytes)) }
    ensures fits { IfOk result (λ text. length text.items ≤ LONGEST_CONFIG_READ) }
    ensures failing { S.has_failed source.new ≡ is_unreadable result }
{
    let mut text = Vec::new(alloc);
    let mut block = [0; BLOCK];
    while text.len() < LONGEST_CONFIG_READ {
        let room = BLOCK.min(LONGEST_CONFIG_READ - text.len());
        let count = source.read(&mut block[..room])?;
        if count == 0 {
            break;
        }
        text.extend_from_slice(&block[..count])?;
    }
    Ok(text)
}

/// Reads the file at a path as `read_config` does. Returns `Unreadable` if the path cannot be opened or is a folder, and
/// otherwise the errors of `read_config`.
pub fn read_config_at<R: Files + AllocGlobal>(rt: &R, path: &str) -> Result<Vec<u8>, ConfigFault>
    ensures text { IfOk result (λ text. (file : R.File) × IfSome (R.File.remaining file) (λ bytes.
        text.items ≡ take LONGEST_CONFIG_READ bytes)) }
    ensures fits { IfOk result (λ text. length text.items ≤ LONGEST_CONFIG_READ) }
{
    match fs::open(rt, path) {
        Ok(file) => read_config(rt.alloc(), &mut Input::new(file)),
        Err(_) => Err(ConfigFault::Unreadable),
    }
}
