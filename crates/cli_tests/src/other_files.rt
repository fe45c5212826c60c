//! The files of folders that no test uses.
ghost use Rattle.std.specs.Prelude.{◌≡◌, true, Some};
ghost use Rattle.std.specs.Option.{option_copied};

use crate::planned_test::PlannedTest;
use cli_base::{Spot, diagnostic_line};
use std::alloc::{AllocError, Global};
use view_diagnostics::Severity;

/// The files of folders that are neither scenarios nor policies.
#[derive(Drop)]
pub(crate) struct OtherFiles {
    // The paths of start lists.
    lists: Vec<String>,
    // The paths of folders with a name that isn't UTF-8, one for each name.
    unnamed: Vec<String>,
}

impl OtherFiles {
    /// Returns no files.
    pub(crate) fn new(alloc: Global) -> OtherFiles {
        OtherFiles {
            lists: Vec::new(alloc),
            unnamed: Vec::new(alloc),
        }
    }

    /// Adds a start list. Fails if the host is out of memory.
    pub(crate) fn add_list(&mut self, path: String) -> Result<(), AllocError> {
        self.lists.push(path)?;
        Ok(())
    }

    /// Adds a name of a folder that isn't UTF-8. Fails if the host is out of memory.
    pub(crate) fn add_unnamed(&mut self, alloc: Global, folder: &str) -> Result<(), AllocError> {
        self.unnamed.push(String::from_str(alloc, folder)?)?;
        Ok(())
    }

    /// Sorts the paths by bytes. Fails if the host is out of memory.
    pub(crate) fn sort(&mut self) -> Result<(), AllocError> {
        self.lists.sort()?;
        self.unnamed.sort()
    }

    /// Removes the start lists that these tests use, and the one that the command line names.
    pub(crate) fn leave_unused(&mut self, tests: &[PlannedTest], machine: Option<&str>) {
        self.lists.retain(|list| {
            !(is_named(machine, list.as_str())
                || tests.iter().any(|test| uses(test, list.as_str())))
        });
    }

    /// Returns a note on each file, as a comment of a report. Fails if the host is out of memory.
    pub(crate) fn notes(&self, rt: &HostRuntime) -> Result<Vec<u8>, AllocError> {
        let mut notes = Vec::new(rt.alloc());
        for list in self.lists.as_slice() {
            let message = "no scenario and no policy uses this file";
            add_note(rt, &mut notes, list.as_str(), message)?;
        }
        for folder in self.unnamed.as_slice() {
            let message = "a file's name here isn't UTF-8, so it is no test";
            add_note(rt, &mut notes, folder.as_str(), message)?;
        }
        Ok(notes)
    }
}

/// Returns whether a start list is the one that the command line names.
pub(crate) fn is_named(machine: Option<&str>, list: &str) -> bool
    ensures { result ≡ true → option_copied machine.entry ≡ Some list.now }
{
    match machine {
        Some(machine) => machine == list,
        None => false,
    }
}

// Returns whether a test uses the start list of a path: it is next to the test's file, or is that.
fn uses(test: &PlannedTest, list: &str) -> bool {
    let Some(stem) = list.strip_suffix(".json") else {
        return false;
    };
    match test.path().strip_prefix(stem) {
        Some(ending) => ending == ".scenario" || ending == ".policy" || ending == ".json",
        None => false,
    }
}

// Adds a note on a file, as a comment.
fn add_note(
    rt: &HostRuntime,
    notes: &mut Vec<u8>,
    path: &str,
    message: &str,
) -> Result<(), AllocError> {
    notes.extend_from_slice(b"# ")?;
    let line = diagnostic_line(rt, Severity::Note, Spot::file(path), &message)?;
    notes.extend_from_slice(line.as_slice())
}
