//! The host of a command: its streams, clock and memory, and the files that the command reads.
ghost use Rattle.std.specs.Prelude.{◌≡◌, ◌∷◌, ℕ, List, [], map, string_bytes, Option, Some, None, Ok, IfErr, IfOk, IfSome, false, is_ok, true};
ghost use Rattle.std.specs.Option.{option_copied};
ghost use Rattle.clap.specs.Words.{HasKind, kind_of};
ghost use Rattle.clap.specs.declared.error.kind.ErrorKind.TheVariants.{InvalidValue, OutOfMemory};
ghost use Rattle.cli_base.specs.Files.{front_of};
ghost use Rattle.cli_base.specs.declared.host.FileKind.TheVariants.{Regular};
ghost use Rattle.cli_base.specs.declared.host.ReadFailure.TheVariants.{NoMemory as NoRoom};

use clap::Error;
use cli_options::words_given;
use run_devices::{Input, Source};
use std::alloc::{AllocError, Global};
use std::fs::File;
use std::io::Read;
use std::{fs, io};

/// The path that denotes standard input.
pub const STANDARD_INPUT: &str = "-";

/// The number of bytes that one read asks for.
const BLOCK: usize = 4096;

/// The reason for which a file can't be read.
#[derive(Clone, Copy)]
pub enum ReadFailure {
    /// The file can't be opened.
    Closed(io::Error),
    /// A read failed.
    Broken,
    /// The host is out of memory.
    NoMemory,
}

/// What is at a path.
#[derive(Clone, Copy, PartialEq, Eq)]
pub enum FileKind {
    /// A folder.
    Folder,
    /// A regular file.
    Regular,
    /// A device, a pipe or a socket.
    Other,
}

impl From<AllocError> for ReadFailure {
    fn from(_fault: AllocError) -> ReadFailure {
        ReadFailure::NoMemory
    }
}

/// The host of a command: it has the arguments of the program, and files. The path `-` denotes standard input.
pub trait Host {
    /// An open file.
    type File: Read + Drop;

    // The bytes of the file at a path, if they are known: then the file is there, and its bytes are read.
    ghost text_at: { Self → List ℕ → Option (List ℕ) } = { λ _ _. None };

    // The arguments that the program is started with, its name first, if they are known.
    ghost arguments_of: { Self → Option (List (List ℕ)) } = { λ _. None };

    /// Returns the streams, the clock and the memory.
    fn rt(&self) -> &HostRuntime;

    /// Returns the arguments that the program is started with, its name first. Errors in order: an argument isn't UTF-8; the host
    /// is out of memory.
    fn arguments(&self) -> Result<Vec<String>, Error>
        ensures arguments { IfOk result (λ given. IfSome (arguments_of self.now) (λ texts.
            map string_bytes given.items ≡ texts)) }
        ensures failed { IfErr result (HasKind (InvalidValue ∷ [])) }
        ensures memory { IfErr result (λ error. IfSome (arguments_of self.now) (λ _.
            kind_of error ≡ OutOfMemory)) };

    /// Reads the file of a path to its end, or at most `most` bytes if it is some. Errors in order: `Closed` if the file can't be
    /// opened; `Broken` if a read fails. At any point the host can be out of memory.
    fn read(&self, path: &str, most: Option<usize>) -> Result<Vec<u8>, ReadFailure>
        ensures text { IfOk result (λ text. IfSome (text_at self.now path.now) (λ bytes.
            text.items ≡ front_of most bytes)) }
        ensures failed { IfErr result (λ why. IfSome (text_at self.now path.now) (λ _. why ≡ NoRoom)) };

    /// Opens the file of a path. Returns the operating system's error if that fails.
    fn open(&self, path: &str) -> io::Result<Self::File>
        ensures opened { IfSome (text_at self.now path.now) (λ _. is_ok result ≡ true) }
        ensures bytes { IfOk result (λ file. IfSome (text_at self.now path.now) (λ bytes.
            Self.File.remaining file ≡ Some bytes)) };

    /// Returns what is at a path, or the operating system's error if nothing is.
    fn kind_at(&self, path: &str) -> io::Result<FileKind>
        ensures { IfSome (text_at self.now path.now) (λ _. result ≡ Ok Regular) };

    /// Returns whether two paths are those of one file. What is at no path, or can't be resolved, is no file.
    fn is_same(&self, path: &str, other: &str) -> bool
        ensures { result ≡ true → text_at self.now path.now ≡ text_at self.now other.now };

    /// Returns whether there is a file at a path, or the operating system's error if that isn't known.
    fn exists(&self, path: &str) -> io::Result<bool>
        ensures { IfSome (text_at self.now path.now) (λ _. result ≡ Ok true) };
}

// What a file holds isn't known, nor what the arguments are.
impl Host for HostRuntime {
    type File = File;

    fn rt(&self) -> &HostRuntime {
        self
    }

    fn arguments(&self) -> Result<Vec<String>, Error> {
        words_given(self)
    }

    fn read(&self, path: &str, most: Option<usize>) -> Result<Vec<u8>, ReadFailure> {
        let most = most.unwrap_or(usize::MAX);
        if path == STANDARD_INPUT {
            return read_all(self.alloc(), &mut Input::new(self.reader()), most);
        }
        match fs::open(self, path) {
            Ok(file) => read_all(self.alloc(), &mut Input::new(file), most),
            Err(error) => Err(ReadFailure::Closed(error)),
        }
    }

    fn open(&self, path: &str) -> io::Result<File> {
        fs::open(self, path)
    }

    fn kind_at(&self, path: &str) -> io::Result<FileKind> {
        let found = fs::metadata(self, path)?;
        Ok(if found.is_dir() {
            FileKind::Folder
        } else if found.is_file() {
            FileKind::Regular
        } else {
            FileKind::Other
        })
    }

    fn is_same(&self, path: &str, other: &str) -> bool {
        match (fs::canonicalize(self, path), fs::canonicalize(self, other)) {
            (Ok(path), Ok(other)) => path.as_str() == other.as_str(),
            _ => false,
        }
    }

    fn exists(&self, path: &str) -> io::Result<bool> {
        fs::exists(self, path)
    }
}

// Reads a source to its end, or at most `most` bytes. Errors: `Broken` after a failed read, and `NoMemory`.
fn read_all<S: Source>(alloc: Global, source: &mut S, most: usize) -> Result<Vec<u8>, ReadFailure> {
    let mut text = Vec::new(alloc);
    let mut block = [0; BLOCK];
    for _ in 0..u64::MAX {
        let room = BLOCK.min(most.saturating_sub(text.len()));
        if room == 0 {
            return Ok(text);
        }
        if source.failed() {
            break;
        }
        match source.read(&mut block[..room]) {
            Ok(0) => return Ok(text),
            Ok(count) => text.extend_from_slice(&block[..count])?,
            Err(_) => break,
        }
    }
    Err(ReadFailure::Broken)
}
