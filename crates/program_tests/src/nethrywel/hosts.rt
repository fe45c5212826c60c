//! A host that states its arguments and the bytes of its file.
ghost use Rattle.std.specs.Prelude.{◌∷◌, [], codes, if◌then◌else◌, Some, None};
ghost use Rattle.std.specs.Str.{bytes_eq};

use clap::Error;
use cli_base::{FileKind, Host, ReadFailure, scenario_text};
use std::io;
use std::process::Abort;
use view_diagnostics::DiagnosticForm;

/// A host with one file, and no argument except the program's name.
#[derive(Drop)]
struct StatedHost<'a> {
    rt: &'a HostRuntime,
    path: &'a str,
    bytes: &'a [u8],
}

impl<'a> Host for StatedHost<'a> {
    type File = &'a [u8];

    ghost text_at = { λ host path. if bytes_eq path host.path.now then Some host.bytes.now else None };

    ghost arguments_of = { λ _. Some (codes "nethrywel" ∷ []) };

    fn rt(&self) -> &HostRuntime {
        self.rt
    }

    fn arguments(&self) -> Result<Vec<String>, Error> {
        let alloc = self.rt.alloc();
        let mut arguments = Vec::new(alloc);
        arguments.push(String::from_str(alloc, "nethrywel")?)?;
        Ok(arguments)
    }

    fn read(&self, path: &str, most: Option<usize>) -> Result<Vec<u8>, ReadFailure> {
        if path != self.path {
            return Err(ReadFailure::Closed(io::Error::from(io::ErrorKind::NotFound)));
        }
        let count = match most {
            Some(most) => most.min(self.bytes.len()),
            None => self.bytes.len(),
        };
        match Vec::from_slice(self.rt.alloc(), &self.bytes[..count]) {
            Ok(text) => Ok(text),
            Err(_) => Err(ReadFailure::NoMemory),
        }
    }

    fn open(&self, path: &str) -> io::Result<&'a [u8]> {
        if path == self.path {
            Ok(self.bytes)
        } else {
            Err(io::Error::from(io::ErrorKind::NotFound))
        }
    }

    fn kind_at(&self, path: &str) -> io::Result<FileKind> {
        if path == self.path {
            Ok(FileKind::Regular)
        } else {
            Err(io::Error::from(io::ErrorKind::NotFound))
        }
    }

    fn is_same(&self, _path: &str, _other: &str) -> bool {
        false
    }

    fn exists(&self, path: &str) -> io::Result<bool> {
        Ok(path == self.path)
    }
}

#[test]
fn a_stated_scenario_is_read(rt: HostRuntime) {
    let host = StatedHost {
        rt: &rt,
        path: "a.scenario",
        bytes: b"alice quota\n",
    };
    match scenario_text(&host, DiagnosticForm::Text, "a.scenario") {
        Ok(text) => assert!(rt; text.as_slice() == b"alice quota\n".as_slice()),
        Err(_) => assert!(rt; false),
    }
    assert!(rt; scenario_text(&host, DiagnosticForm::Text, "b.scenario").is_err());
}
