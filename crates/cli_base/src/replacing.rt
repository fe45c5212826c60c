//! Files that are written whole or not at all.
use std::fs::{File, OpenOptions, Permissions};
use std::io::{ErrorKind, Write};
use std::os::unix::fs::OpenOptionsExt;
use std::path::PathBuf;
use std::{fs, io};

/// The number of names that are tried for a new file.
const MOST_NAMES: usize = 100;

/// The rights of a new file until it is written: only its owner reads and writes it.
const OWN: u32 = 0o600;

/// Replaces the content `old` of a regular file, and keeps its rights. The old content stays until the new content is complete. The
/// same content isn't written. Errors: the path can't be resolved, the file isn't regular, its content is another one by now, a write
/// fails.
pub fn replace_file(rt: &HostRuntime, path: &str, old: &[u8], new: &[u8]) -> io::Result<()> {
    let (path, rights) = regular_file(rt, path)?;
    if fs::read(rt, path.as_str())?.as_slice() != old {
        return Err(io::Error::new(ErrorKind::Other, "it was changed meanwhile"));
    }
    if old == new {
        return Ok(());
    }
    write_by_new(rt, path.as_str(), new, Some(rights))
}

/// Writes a file: a regular or a new file whole or not at all, a device or a pipe directly. Returns the error of the step that
/// fails.
pub fn write_file(rt: &HostRuntime, path: &str, text: &[u8]) -> io::Result<()> {
    match fs::metadata(rt, path) {
        Ok(found) if found.is_file() => {
            let (path, rights) = regular_file(rt, path)?;
            write_by_new(rt, path.as_str(), text, Some(rights))
        }
        Ok(_) => fs::write(rt, path, text),
        Err(error) if error.kind() == ErrorKind::NotFound => write_by_new(rt, path, text, None),
        Err(error) => Err(error),
    }
}

// Returns the resolved path of a regular file, and its rights.
fn regular_file(rt: &HostRuntime, path: &str) -> io::Result<(PathBuf, Permissions)> {
    let path = fs::canonicalize(rt, path)?;
    let found = fs::metadata(rt, path.as_str())?;
    if !found.is_file() {
        return Err(io::Error::new(ErrorKind::Other, "not a regular file"));
    }
    Ok((path, found.permissions()))
}

// Writes a text into a new file with these rights, and renames it to the path. A write that fails removes the new file.
fn write_by_new(
    rt: &HostRuntime,
    path: &str,
    text: &[u8],
    rights: Option<Permissions>,
) -> io::Result<()> {
    let (name, mut file) = new_file(rt, path, rights.is_some())?;
    let written = fill(rt, &mut file, name.as_str(), path, text, rights);
    if written.is_err() {
        let _ = fs::remove_file(rt, name.as_str());
    }
    written
}

// Creates a new file next to a path, under the first name that isn't taken.
fn new_file(rt: &HostRuntime, path: &str, is_own: bool) -> io::Result<(String, File)> {
    let mut options = OpenOptions::new();
    options.write(true).create_new(true);
    if is_own {
        options.mode(OWN);
    }
    let mut taken = io::Error::from(ErrorKind::AlreadyExists);
    for number in 0..MOST_NAMES {
        let name = format!(in rt.alloc(); "{path}.new{number}")?;
        match options.open(rt, name.as_str()) {
            Ok(file) => return Ok((name, file)),
            Err(error) if error.kind() == ErrorKind::AlreadyExists => taken = error,
            Err(error) => return Err(error),
        }
    }
    Err(taken)
}

// Writes a new file, sets its rights, and renames it to its path.
fn fill(
    rt: &HostRuntime,
    file: &mut File,
    name: &str,
    path: &str,
    text: &[u8],
    rights: Option<Permissions>,
) -> io::Result<()> {
    file.write_all(text)?;
    if let Some(rights) = rights {
        file.set_permissions(rights)?;
    }
    file.sync_all()?;
    fs::rename(rt, name, path)?;
    let _ = sync_folder(rt, path);
    Ok(())
}

// Writes the folder of a path to the disk, so that the file's new name lasts. Some file systems can't do this.
fn sync_folder(rt: &HostRuntime, path: &str) -> io::Result<()> {
    let folder = match path.rsplit_once('/') {
        Some(("", _)) => "/",
        Some((folder, _)) => folder,
        None => ".",
    };
    File::open(rt, folder)?.sync_all()
}
