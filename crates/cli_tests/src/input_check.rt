//! Inputs that are refused before any test is run.
ghost use Rattle.std.specs.Prelude.{◌≡◌, false, IfErr};
ghost use Rattle.cli_tests.specs.Outcome.{IsNoInput, IsNoInputFile, IsReplaced, LacksInput, search_lacks_memory};

use crate::file_search::SearchFailure;
use crate::planned_test::PlannedTest;
use cli_base::{FileKind, Host, machine_path};

/// Refuses tests if a file or a start list of them is there and isn't regular, or if the JUnit document would replace one of these or
/// the start list `machine`. The error is the first failure of them, or out of memory.
pub(crate) fn check_inputs<'a, H: Host>(
    host: &H,
    tests: &[PlannedTest],
    machine: Option<&str>,
    junit: Option<&'a str>,
) -> Result<(), SearchFailure<'a>>
    ensures { IfErr result (λ failure. search_lacks_memory failure ≡ false
        → LacksInput (H.text_at host.now) machine.entry junit.entry tests.now) }
{
    if let Some(machine) = machine {
        check_unreplaced(host, machine, junit)?;
    }
    for test in tests {
        check_test(host, test, junit)?;
    }
    Ok(())
}

// Refuses a test whose file, or the start list next to it, isn't regular or would be replaced.
fn check_test<'a, H: Host>(
    host: &H,
    test: &PlannedTest,
    junit: Option<&'a str>,
) -> Result<(), SearchFailure<'a>>
    ensures { IfErr result (λ failure. search_lacks_memory failure ≡ false
        → IsNoInput (H.text_at host.now) junit.entry test.now) }
{
    let list = machine_path(host.rt().alloc(), test.path())?;
    check_file(host, test.path(), junit)?;
    check_file(host, list.as_str(), junit)
}

// Refuses a file that is there and isn't regular, or that the JUnit document would replace.
fn check_file<'a, H: Host>(
    host: &H,
    path: &str,
    junit: Option<&'a str>,
) -> Result<(), SearchFailure<'a>>
    ensures { IfErr result (λ failure. search_lacks_memory failure ≡ false
        → IsNoInputFile (H.text_at host.now) junit.entry path.now) }
{
    if let Ok(FileKind::Other) = host.kind_at(path) {
        let path = String::from_str(host.rt().alloc(), path)?;
        return Err(SearchFailure::Irregular(path));
    }
    check_unreplaced(host, path, junit)
}

// Refuses a file that the JUnit document would replace.
fn check_unreplaced<'a, H: Host>(
    host: &H,
    path: &str,
    junit: Option<&'a str>,
) -> Result<(), SearchFailure<'a>>
    ensures { IfErr result (λ _. IsReplaced (H.text_at host.now) junit.entry path.now) }
{
    match junit {
        Some(to) if host.is_same(path, to) => Err(SearchFailure::Replaced(to)),
        _ => Ok(()),
    }
}
