//! Scenarios and policies by the names of their files, and the start lists and policies next to them.
ghost use Rattle.std.specs.Prelude.{◌≡◌, ◌++◌, codes, string_bytes, IfOk};
ghost use Rattle.cli_base.specs.Paths.{is_list, is_policy, is_scenario, policy_stem, stem_of};

use std::alloc::{AllocError, Global};

/// The ending of a scenario's path.
const SCENARIO: &[u8] = b".scenario";

/// Returns whether a path is that of a scenario: it ends with `.scenario`.
pub fn is_scenario(path: &str) -> bool
    ensures { result ≡ is_scenario path.now }
{
    path.as_bytes().ends_with(SCENARIO)
}

/// The ending of a policy's path.
const POLICY: &[u8] = b".policy";

/// Returns whether a path is that of a policy: it ends with `.policy`.
pub fn is_policy(path: &str) -> bool
    ensures { result ≡ is_policy path.now }
{
    path.as_bytes().ends_with(POLICY)
}

/// Returns whether a path is that of a start list: it ends with `.json`.
pub fn is_list(path: &str) -> bool
    ensures { result ≡ is_list path.now }
{
    path.as_bytes().ends_with(b".json")
}

/// Returns the path of the machine next to a scenario or a policy: `NAME.json` for `NAME.scenario` and `NAME.policy`. The error is
/// out of memory.
pub fn machine_path(alloc: Global, path: &str) -> Result<String, AllocError>
    ensures { IfOk result (λ machine. string_bytes machine ≡ stem_of path.now ++ codes ".json") }
{
    beside(alloc, path, ".json")
}

/// Returns the path of the policy next to a scenario: `NAME.policy` for `NAME.scenario`. The error is out of memory.
pub fn policy_path(alloc: Global, path: &str) -> Result<String, AllocError>
    ensures { IfOk result (λ policy. string_bytes policy ≡ stem_of path.now ++ codes ".policy") }
{
    beside(alloc, path, ".policy")
}

// Returns the path of a file next to a scenario or a policy, by its ending.
fn beside(alloc: Global, path: &str, ending: &str) -> Result<String, AllocError>
    ensures { IfOk result (λ other. string_bytes other ≡ stem_of path.now ++ ending.now) }
{
    let stem = stem_of(path);
    format!(in alloc; "{stem}{ending}")
}

// Returns the path of a scenario or a policy without its ending.
fn stem_of(path: &str) -> &str
    ensures { result.now ≡ stem_of path.now }
{
    match path.strip_suffix(".scenario") {
        Some(stem) => stem,
        None => policy_stem(path),
    }
}

// Returns the path of a policy without its ending.
fn policy_stem(path: &str) -> &str
    ensures { result.now ≡ policy_stem path.now }
{
    match path.strip_suffix(".policy") {
        Some(stem) => stem,
        None => path,
    }
}
