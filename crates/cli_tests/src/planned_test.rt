//! The tests of a run: scenarios, and start lists, alone and with the policies next to them.
ghost use Rattle.std.specs.Prelude.{◌≡◌, ℕ, List, filter, is_some, map, IfOk, OnOk};
ghost use Rattle.std.specs.Borrow.{Bor};
ghost use Rattle.std.specs.List.{list_any};
ghost use Rattle.cli_tests.specs.Plan.{ArePlanned, IsCheckedFor, IsPolicyBeside, has_text, are_same, is_selected, with_check, with_check_if, with_file};

use crate::file_presence::may_exist;
use cli_base::{Host, is_policy, machine_path, policy_path};
use cli_options::TestOptions;
use memchr::memmem;
use std::alloc::{AllocError, AllocFailed};

/// A test, by the path of its file.
#[derive(Drop)]
pub(crate) enum PlannedTest {
    /// A scenario is run on its machine.
    Scenario(String),
    /// The start list next to a policy is checked against the policy.
    Policy(String),
    /// A start list is checked by itself, in a strict check.
    List(String),
}

/// Returns the tests of files, which are scenarios and policies, in the order of the files. The policy next to a scenario is held
/// before the scenario, and each policy once. If findings count, the start list that a file uses is checked before both, each list
/// once. Fails if the host is out of memory.
pub(crate) fn planned_tests<H: Host>(
    host: &H,
    asked: &TestOptions<'_>,
    files: Vec<String>,
) -> Result<Vec<PlannedTest>, AllocError>
    ensures { IfOk result (λ tests. ArePlanned (H.text_at host.now) asked.now files.items tests.items) }
{
    let mut tests = Vec::new(host.rt().alloc());
    for file in files {
        let list = checked_list(host, asked, file.as_str())?;
        let policy = policy_next_to(host, file.as_str())?;
        add_file(&mut tests, file, list, policy)?;
    }
    Ok(tests)
}

// Returns the check of the start list that a file uses, if findings count: that of the list next to the file, or else of the one that
// the command line names, which a policy doesn't use. The error is out of memory.
fn checked_list<H: Host>(
    host: &H,
    asked: &TestOptions<'_>,
    file: &str,
) -> Result<Option<PlannedTest>, AllocError>
    ensures { IfOk result (IsCheckedFor (H.text_at host.now) asked.now file.now) }
{
    if !asked.strict {
        return Ok(None);
    }
    let alloc = host.rt().alloc();
    let list = machine_path(alloc, file)?;
    if may_exist(host, list.as_str()) {
        return Ok(Some(PlannedTest::List(list)));
    }
    if is_policy(file) {
        return Ok(None);
    }
    match asked.machine {
        Some(machine) => {
            let list = String::from_str(alloc, machine)?;
            Ok(Some(PlannedTest::List(list)))
        }
        None => Ok(None),
    }
}

// Returns the check of the policy next to a scenario, or none if there is no such file. The error is out of memory.
fn policy_next_to<H: Host>(host: &H, scenario: &str) -> Result<Option<PlannedTest>, AllocError>
    ensures { IfOk result (IsPolicyBeside (H.text_at host.now) scenario.now) }
{
    let policy = policy_path(host.rt().alloc(), scenario)?;
    if !may_exist(host, policy.as_str()) {
        return Ok(None);
    }
    Ok(Some(PlannedTest::Policy(policy)))
}

/// Removes the tests whose paths have none of these texts. Without a text all tests remain.
pub(crate) fn select_tests(tests: &mut Vec<PlannedTest>, texts: &[&str])
    ensures { tests.new.items
        ≡ filter (is_selected (map (λ text. text.now) texts.now)) tests.old.items }
{
    tests.retain(|test| is_selected(texts, test));
}

// Returns whether the path of a test has one of these texts, or there is no text.
fn is_selected(texts: &[&str], test: &PlannedTest) -> bool
    ensures { result ≡ is_selected (map (λ text. text.now) texts.now) test.now }
{
    let path = test.path();
    texts.is_empty() || any_text(path, texts)
}

// Returns whether a path has one of these texts.
fn any_text(path: &str, texts: &[&str]) -> bool
    ensures { result ≡ list_any (λ (text : Bor (List ℕ)). has_text path.now text.now) texts.now }
{
    texts.iter().any(|text| has_text(path, text))
}

// Returns whether a path has a text.
fn has_text(path: &str, text: &str) -> bool
    ensures { result ≡ has_text path.now text.now }
{
    memmem::find(path.as_bytes(), text.as_bytes()).is_some()
}

impl PlannedTest {
    ghost use Rattle.std.specs.Prelude.{◌≡◌};
    ghost use Rattle.cli_tests.specs.Plan.{path_of};

    /// Returns the path of the test's file.
    pub(crate) fn path(&self) -> &str
        ensures { result.now ≡ path_of self.now }
    {
        match self {
            PlannedTest::Scenario(path) | PlannedTest::Policy(path) | PlannedTest::List(path) => {
                path.as_str()
            }
        }
    }
}

// Adds the tests of a file, of the list that it uses, and of the policy next to it, if there are such.
fn add_file(
    tests: &mut Vec<PlannedTest>,
    file: String,
    list: Option<PlannedTest>,
    policy: Option<PlannedTest>,
) -> Result<(), AllocError>
    ensures { OnOk result (tests.new.items ≡ with_file tests.old.items file list policy) }
{
    add_check_if(tests, list)?;
    if is_policy(file.as_str()) {
        return add_check(tests, PlannedTest::Policy(file));
    }
    add_check_if(tests, policy)?;
    tests.push(PlannedTest::Scenario(file))?;
    Ok(())
}

// Adds a check of a list, if there is one.
fn add_check_if(tests: &mut Vec<PlannedTest>, check: Option<PlannedTest>) -> Result<(), AllocError>
    ensures { OnOk result (tests.new.items ≡ with_check_if tests.old.items check) }
{
    match check {
        Some(check) => add_check(tests, check),
        None => Ok(()),
    }
}

// Adds the check of a list, unless it is among the tests.
fn add_check(tests: &mut Vec<PlannedTest>, check: PlannedTest) -> Result<(), AllocError>
    ensures { OnOk result (tests.new.items ≡ with_check tests.old.items check) }
{
    if has_check(tests, &check) {
        return Ok(());
    }
    tests.push(check)?;
    Ok(())
}

// Returns whether a check of a list is among tests.
fn has_check(tests: &[PlannedTest], check: &PlannedTest) -> bool
    ensures { result ≡ list_any (are_same check.now) tests.now }
{
    tests.iter().any(|test| is_same_check(check, test))
}

// Returns whether two tests check the same list, by itself or against the same policy.
fn is_same_check(one: &PlannedTest, other: &PlannedTest) -> bool
    ensures { result ≡ are_same one.now other.now }
{
    match (one, other) {
        (PlannedTest::Policy(one), PlannedTest::Policy(other)) => one.as_str() == other.as_str(),
        (PlannedTest::List(one), PlannedTest::List(other)) => one.as_str() == other.as_str(),
        _ => false,
    }
}
