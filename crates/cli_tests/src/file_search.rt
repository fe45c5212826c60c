//! The files of paths: a file itself, and all scenarios and policies of a folder and the folders below it.
ghost use Rattle.std.specs.Prelude.{◌≡◌, ◌++◌, false, IfErr, IfOk, IfSome, OnOk};
ghost use Rattle.cli_tests.specs.Outcome.{IsNoTest, LacksPath, search_lacks_memory};
ghost use Rattle.cli_tests.specs.Plan.{AreFiles, AreFilesAt};

use crate::other_files::OtherFiles;
use cli_base::{
    FileKind, Host, REFUSED, ReadFailure, Spot, is_list, is_policy, is_scenario, no_memory,
    refuse_unread, report_error,
};
use std::alloc::{AllocError, AllocFailed};
use std::fs::DirEntry;
use std::io::ErrorKind;
use std::{fmt, fs, io};
use view_diagnostics::DiagnosticForm;

/// The most folders that are searched for one path.
const MOST_FOLDERS: usize = 100_000;

/// The reason for which the files of paths aren't found.
#[derive(Drop)]
pub(crate) enum SearchFailure<'a> {
    /// The file or folder of this path can't be read.
    Unreadable(&'a str, io::Error),
    /// The path is that of a start list.
    List(&'a str),
    /// The file of this path isn't regular.
    Irregular(String),
    /// The JUnit document of this path would replace a file that a test reads.
    Replaced(&'a str),
    /// Neither this folder nor a folder below it has a scenario or a policy.
    Nothing(&'a str),
    /// The path of no test has one of these texts.
    Unselected(&'a [&'a str]),
    /// No test reads the name of this argument of `--set`.
    Unread(&'a str),
    /// The host is out of memory.
    NoMemory,
}

impl<'a> From<AllocError> for SearchFailure<'a> {
    ghost use Rattle.std.specs.Prelude.{◌≡◌};
    ghost use Rattle.cli_tests.specs.declared.file_search.SearchFailure.TheVariants.{NoMemory};

    ghost from_gives = { λ _ failure. failure ≡ NoMemory };

    fn from(_fault: AllocError) -> SearchFailure<'a> {
        SearchFailure::NoMemory
    }
}

impl<'a, T: Drop> From<AllocFailed<T>> for SearchFailure<'a> {
    ghost use Rattle.std.specs.Prelude.{◌≡◌};
    ghost use Rattle.cli_tests.specs.declared.file_search.SearchFailure.TheVariants.{NoMemory};

    ghost from_gives = { λ _ failure. failure ≡ NoMemory };

    fn from(_fault: AllocFailed<T>) -> SearchFailure<'a> {
        SearchFailure::NoMemory
    }
}

impl SearchFailure<'_> {
    ghost use Rattle.std.specs.Prelude.{◌≡◌, if◌then◌else◌};
    ghost use Rattle.cli_tests.specs.Outcome.{search_lacks_memory};

    /// Prints the reason, and returns the exit status: 2, or 1 if the host is out of memory.
    pub(crate) fn report(self, rt: &HostRuntime, form: DiagnosticForm) -> u8
        ensures { result ≡ (if search_lacks_memory self.entry then 1 else 2) }
    {
        match self {
            SearchFailure::Unreadable(path, error) => {
                let unread = ReadFailure::Closed(error);
                report_error(rt, form, Spot::nowhere(), &unread.about(path));
                REFUSED
            }
            SearchFailure::List(path) => {
                let message = "expected a scenario, a policy or a folder, found a start list";
                report_error(rt, form, Spot::file(path), &message);
                REFUSED
            }
            SearchFailure::Irregular(path) => {
                report_error(
                    rt,
                    form,
                    Spot::file(path.as_str()),
                    &"expected a regular file",
                );
                REFUSED
            }
            SearchFailure::Replaced(path) => {
                let message = format_args!(
                    "--junit: expected a file that no test reads, found `{path}`"
                );
                report_error(rt, form, Spot::nowhere(), &message);
                REFUSED
            }
            SearchFailure::Nothing(path) => {
                let message = "no file in this folder ends with .scenario or .policy";
                report_error(rt, form, Spot::file(path), &message);
                REFUSED
            }
            SearchFailure::Unselected(texts) => {
                report_error(rt, form, Spot::nowhere(), &UnselectedMessage(texts));
                REFUSED
            }
            SearchFailure::Unread(argument) => refuse_unread(rt, form, argument),
            SearchFailure::NoMemory => no_memory(rt),
        }
    }
}

// The message that the paths of the tests have none of these texts.
#[derive(Clone, Copy)]
struct UnselectedMessage<'a>(&'a [&'a str]);

impl fmt::Display for UnselectedMessage<'_> {
    fn fmt<W: fmt::Write>(&self, f: &mut fmt::Formatter<W>) -> fmt::Result {
        f.write_str("--filter: expected a part of a test's path, found ")?;
        let mut parted = "";
        for text in self.0 {
            write!(f, "{parted}`{text}`")?;
            parted = ", ";
        }
        Ok(())
    }
}

/// Returns the scenarios and policies of paths in their order, those of a folder sorted by bytes, and keeps its other files. Errors: a
/// path can't be read or is that of a start list, a folder has none of them, the host is out of memory.
pub(crate) fn files_at<'a, H: Host>(
    host: &H,
    paths: &[&'a str],
    others: &mut OtherFiles,
) -> Result<Vec<String>, SearchFailure<'a>>
    ensures found { IfOk result (λ files. AreFiles (H.text_at host.now) paths.now files.items) }
    ensures failed { IfErr result (λ failure. search_lacks_memory failure ≡ false
        → LacksPath (H.text_at host.now) paths.now) }
{
    let mut all = Vec::new(host.rt().alloc());
    for path in paths {
        let mut found = files_of(host, path, others)?;
        all.append(&mut found)?;
    }
    Ok(all)
}

// Returns the files of a path.
fn files_of<'a, H: Host>(
    host: &H,
    path: &'a str,
    others: &mut OtherFiles,
) -> Result<Vec<String>, SearchFailure<'a>>
    ensures found { IfOk result (λ files. AreFilesAt (H.text_at host.now) path.now files.items) }
    ensures failed { IfErr result (λ failure. search_lacks_memory failure ≡ false
        → IsNoTest (H.text_at host.now) path.now) }
{
    let rt = host.rt();
    match host.kind_at(path) {
        Ok(FileKind::Folder) => files_in(rt, path, others),
        Ok(_) if is_list(path) => Err(SearchFailure::List(path)),
        Ok(_) => Ok(vec![in rt.alloc(); String::from_str(rt.alloc(), path)?]?),
        Err(error) => Err(failure_of(path, error)),
    }
}

// Returns the failure of a path with the operating system's error.
fn failure_of(path: &str, error: io::Error) -> SearchFailure<'_> {
    match error.kind() {
        ErrorKind::OutOfMemory => SearchFailure::NoMemory,
        _ => SearchFailure::Unreadable(path, error),
    }
}

// Returns the scenarios and policies of a folder, sorted by bytes, at least one.
fn files_in<'a>(
    rt: &HostRuntime,
    path: &'a str,
    others: &mut OtherFiles,
) -> Result<Vec<String>, SearchFailure<'a>> {
    match files_below(rt, path, others) {
        Ok(found) if found.is_empty() => Err(SearchFailure::Nothing(path)),
        Ok(mut found) => {
            found.sort()?;
            others.sort()?;
            Ok(found)
        }
        Err(error) => Err(failure_of(path, error)),
    }
}

// Returns the scenarios and policies of a folder and of the folders below it.
fn files_below(rt: &HostRuntime, folder: &str, others: &mut OtherFiles) -> io::Result<Vec<String>> {
    let alloc = rt.alloc();
    let mut found = Vec::new(alloc);
    let mut folders = vec![in alloc; String::from_str(alloc, folder)?]?;
    for _ in 0..MOST_FOLDERS {
        let Some(folder) = folders.pop() else {
            break;
        };
        add_entries(rt, folder.as_str(), &mut folders, &mut found, others)?;
    }
    if folders.is_empty() {
        Ok(found)
    } else {
        Err(io::Error::from(ErrorKind::Other))
    }
}

// Adds the folders, scenarios and policies in a folder, except those whose names begin with a point. Keeps that a name isn't UTF-8.
fn add_entries(
    rt: &HostRuntime,
    folder: &str,
    folders: &mut Vec<String>,
    found: &mut Vec<String>,
    others: &mut OtherFiles,
) -> io::Result<()> {
    for entry in fs::read_dir(rt, folder)? {
        match entry {
            Ok(entry) => add_entry(rt, &entry, folders, found, others)?,
            Err(error) if error.kind() == ErrorKind::InvalidFilename => {
                others.add_unnamed(rt.alloc(), folder)?;
            }
            Err(error) => return Err(error),
        }
    }
    Ok(())
}

// Adds an entry of a folder if it is a folder, a scenario or a policy, and keeps it if it is a start list.
fn add_entry(
    rt: &HostRuntime,
    entry: &DirEntry<HostRuntime>,
    folders: &mut Vec<String>,
    found: &mut Vec<String>,
    others: &mut OtherFiles,
) -> io::Result<()> {
    if entry.file_name().starts_with('.') {
        return Ok(());
    }
    let path = String::from_str(rt.alloc(), entry.path().as_str())?;
    if entry.file_type()?.is_dir() {
        folders.push(path)?;
    } else if is_scenario(path.as_str()) || is_policy(path.as_str()) {
        found.push(path)?;
    } else if is_list(path.as_str()) {
        others.add_list(path)?;
    }
    Ok(())
}
