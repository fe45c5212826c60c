//! The command `diff`: differences between two start lists.
ghost use Rattle.std.specs.Prelude.{◌≡◌, IfErr, IfOk};
ghost use Rattle.line_rounds.specs.Unfolding.{UnfoldedText};
ghost use Rattle.line_rounds.specs.Views.{whole_view};
ghost use Rattle.cli_base.specs.Files.{IsUnknown};
ghost use Rattle.cli_base.specs.Statuses.{EndsAs};
ghost use Rattle.cli_lists.specs.ComparedRuns.{AreLinesAt, HasFaultAt, HasFaultIn, LacksScenario, path_after};
ghost use Rattle.cli_lists.specs.Comparison.{AfterDiffers, AfterRefused, AnswersDiffer, DiffEnds, EndsBy, EndsChanged, HasStopped, LinesDiffer, NeedsDiffer, OfScenarios, PairDiffers, PairRefused, ResultsDiffer, RunsDiffer, ScenariosDiffer, status_if_misread};

use crate::diff_files::{JudgedPair, ListFile, ListPair};
use crate::diff_misread::report_misread;
use crate::diff_policy::PolicyBreaches;
use crate::diff_runs::{RunInput, RunPair, answers_on, needs, results_on};
use crate::diff_text::{CHANGED, print_differences};
use crate::review::list_at;
use cli_base::{Host, Settings, made_or_status, scenario_text, unfolded};
use cli_options::DiffOptions;
use list_diff::{ComparedLines, LineResult, ReplyChange, compared_lines, lacks};
use list_parser::StartList;
use run_exchanges::Exchange;

/// The exit status if neither list understands a line of a scenario.
const MISREAD: u8 = 3;

/// Prints the differences between two start lists, also the breaches of a policy that one list alone has and the replies to a
/// scenario that differ, as lines or documents of JSON. Returns the exit status: 0 if nothing differs and 4 if something does; 2 if a
/// list, the policy or a scenario is refused; 3 if a scenario's rounds have a fault, or neither list understands a line; 1 or 141 if
/// the host is out of memory, or if a run or a result fails.
pub fn compare_lists<H: Host>(host: &H, asked: &DiffOptions<'_>, settings: Settings<'_>) -> u8
    ensures { DiffEnds (H.text_at host.now) asked.now settings.entry result }
{
    match list_at(host, asked.before, settings) {
        Ok(before) => compare_before(host, asked, &before, settings),
        Err(status) => {
            // The faults of the list after are printed too.
            let _ = list_at(host, asked.after, settings);
            status
        }
    }
}

// Compares a list with the list after, and returns the exit status.
fn compare_before<'a, H: Host>(
    host: &'a H,
    asked: &'a DiffOptions<'a>,
    before: &'a StartList,
    settings: Settings<'_>,
) -> u8
    ensures { EndsBy (AfterRefused (H.text_at host.now) asked.now settings.entry)
        (OfScenarios (HasFaultIn (H.text_at host.now) settings.entry) asked.now)
        (AfterDiffers (H.text_at host.now) asked.now settings.entry before.now) result }
{
    match list_at(host, asked.after, settings) {
        Ok(after) => compare_both(host, asked, before, &after, settings),
        Err(status) => status,
    }
}

// Compares two lists, and returns the exit status.
fn compare_both<'a, H: Host>(
    host: &'a H,
    asked: &'a DiffOptions<'a>,
    before: &'a StartList,
    after: &'a StartList,
    settings: Settings<'_>,
) -> u8
    ensures { EndsBy (PairRefused (H.text_at host.now) asked.now after.now)
        (OfScenarios (HasFaultIn (H.text_at host.now) settings.entry) asked.now)
        (PairDiffers (H.text_at host.now) asked.now settings.entry before.now after.now) result }
{
    match compare(host, asked, before, after, settings) {
        Ok(status) => status,
        Err(status) => status,
    }
}

// Compares two lists, with the breaches of a policy if one is named. The error is the exit status of a refused policy,
// or of a scenario that isn't run.
fn compare<'a, H: Host>(
    host: &'a H,
    asked: &'a DiffOptions<'a>,
    before: &'a StartList,
    after: &'a StartList,
    settings: Settings<'_>,
) -> Result<u8, u8>
    ensures ended { IfOk result (EndsAs ⊥ (EndsChanged
        (PairDiffers (H.text_at host.now) asked.now settings.entry before.now after.now))) }
    ensures stopped { IfErr result (HasStopped
        (PairRefused (H.text_at host.now) asked.now after.now)
        (OfScenarios (HasFaultIn (H.text_at host.now) settings.entry) asked.now)) }
{
    let rt = host.rt();
    let lists = ListPair {
        before: ListFile {
            path: asked.before,
            list: before,
        },
        after: ListFile {
            path: asked.after,
            list: after,
        },
    };
    let breaches = PolicyBreaches::of(host, lists, asked.policy, settings.form)?;
    let changes = made_or_status(rt, breaches.changes(rt.alloc()))?;
    let pair = JudgedPair::new(lists, changes.as_slice());
    compare_judged(host, asked, pair, settings)
}

// Compares two lists with their breaches, and the replies to a scenario if there is one.
fn compare_judged<'a, H: Host>(
    host: &'a H,
    asked: &'a DiffOptions<'a>,
    pair: JudgedPair<'a>,
    settings: Settings<'_>,
) -> Result<u8, u8>
    ensures ended { IfOk result (EndsAs ⊥ (EndsChanged (RunsDiffer (H.text_at host.now) asked.now
        settings.entry asked.now.scenario pair.entry.lists.before.list.now pair.entry.lists.after.list.now
        pair.entry.breaches.now))) }
    ensures stopped { IfErr result (HasStopped
        (OfScenarios (LacksScenario (H.text_at host.now)) asked.now)
        (OfScenarios (HasFaultIn (H.text_at host.now) settings.entry) asked.now)) }
{
    match asked.scenario {
        Some(path) => compare_scenario(host, pair, path, asked.scenario_after, settings),
        None => Ok(print_differences(host.rt(), pair, &[], &[], settings.form)),
    }
}

// Compares two lists, and the replies to the scenario of a path. On the list after, another scenario is run if there is one.
fn compare_scenario<'a, H: Host>(
    host: &'a H,
    pair: JudgedPair<'a>,
    path: &'a str,
    other: Option<&'a str>,
    settings: Settings<'_>,
) -> Result<u8, u8>
    ensures ended { IfOk result (EndsAs ⊥ (EndsChanged (ScenariosDiffer (H.text_at host.now) settings.entry
        path.now (path_after other.entry path.now) pair.entry.lists.before.list.now
        pair.entry.lists.after.list.now pair.entry.breaches.now))) }
    ensures stopped { IfErr result (HasStopped
        (LacksScenario (H.text_at host.now) path.now (path_after other.entry path.now))
        (HasFaultIn (H.text_at host.now) settings.entry path.now (path_after other.entry path.now))) }
{
    let rt = host.rt();
    let text = scenario_text(host, settings.form, path)?;
    let lines = unfolded(rt, path, text.as_slice(), settings)?;
    let was = RunInput::new(pair.lists.before, path, &lines);
    match other {
        Some(other) => compare_other(host, was, pair, other, settings),
        None => {
            let now = RunInput::new(pair.lists.after, path, &lines);
            compare_runs(host, RunPair::new(was, now, pair.breaches), settings)
        }
    }
}

// Compares two lists, and the replies to a run with those to the scenario of a path on the list after.
fn compare_other<'a, H: Host>(
    host: &'a H,
    was: RunInput<'a>,
    pair: JudgedPair<'a>,
    path: &'a str,
    settings: Settings<'_>,
) -> Result<u8, u8>
    ensures ended { IfOk result (EndsAs ⊥ (EndsChanged (λ changed. (now : UnfoldedText)
        × AreLinesAt (H.text_at host.now) settings.entry path.now now
        × LinesDiffer settings.entry was.entry.file.list.now (whole_view was.entry.lines.now)
        pair.entry.lists.after.list.now now pair.entry.breaches.now changed))) }
    ensures stopped { IfErr result (HasStopped (IsUnknown (H.text_at host.now) path.now)
        (HasFaultAt (H.text_at host.now) settings.entry path.now)) }
{
    let rt = host.rt();
    let text = scenario_text(host, settings.form, path)?;
    let lines = unfolded(rt, path, text.as_slice(), settings)?;
    let now = RunInput::new(pair.lists.after, path, &lines);
    compare_runs(host, RunPair::new(was, now, pair.breaches), settings)
}

// Runs the scenarios of both sides, and prints all differences. Returns the exit status; the error is 1, if a scenario can't be run
// to its end.
fn compare_runs<'a, H: Host>(
    host: &'a H,
    runs: RunPair<'a>,
    settings: Settings<'_>,
) -> Result<u8, u8>
    ensures ended { IfOk result (EndsAs ⊥ (EndsChanged (LinesDiffer settings.entry
        runs.entry.was.file.list.now (whole_view runs.entry.was.lines.now)
        runs.entry.now.file.list.now (whole_view runs.entry.now.lines.now) runs.entry.breaches.now))) }
    ensures failed { IfErr result (λ status. status ≡ 1) }
{
    let olds = answers_on(host, runs.was, settings)?;
    let news = answers_on(host, runs.now, settings)?;
    compare_answers(host.rt(), runs, olds.as_slice(), news.as_slice(), settings)
}

// Compares the answered calls of both runs line by line, and prints all differences. Returns the exit status; the error is 1.
fn compare_answers<'a>(
    rt: &HostRuntime,
    runs: RunPair<'a>,
    olds: &'a [Exchange],
    news: &'a [Exchange],
    settings: Settings<'_>,
) -> Result<u8, u8>
    ensures ended { IfOk result (EndsAs ⊥ (EndsChanged (AnswersDiffer settings.entry
        runs.entry.was.file.list.now (whole_view runs.entry.was.lines.now)
        runs.entry.now.file.list.now (whole_view runs.entry.now.lines.now)
        olds.now news.now runs.entry.breaches.now))) }
    ensures failed { IfErr result (λ status. status ≡ 1) }
{
    let before = results_on(rt, runs.was, olds, settings)?;
    let after = results_on(rt, runs.now, news, settings)?;
    compare_results(rt, runs, before.as_slice(), after.as_slice(), settings)
}

// Compares what came of the lines of both runs, and prints all differences. Then prints the lines that neither list understands, which
// are errors. Returns the exit status; the error is 1.
fn compare_results<'a>(
    rt: &HostRuntime,
    runs: RunPair<'a>,
    was: &'a [LineResult<'a>],
    now: &'a [LineResult<'a>],
    settings: Settings<'a>,
) -> Result<u8, u8>
    ensures ended { IfOk result (EndsAs ⊥ (EndsChanged (ResultsDiffer settings.entry
        runs.entry.was.file.list.now (whole_view runs.entry.was.lines.now)
        runs.entry.now.file.list.now (whole_view runs.entry.now.lines.now)
        was.now now.now runs.entry.breaches.now))) }
    ensures failed { IfErr result (λ status. status ≡ 1) }
{
    let misread = compared_lines(rt.alloc(), ComparedLines::Misread, was, now);
    let misread = made_or_status(rt, misread)?;
    let replies = compared_lines(rt.alloc(), ComparedLines::Changed, was, now);
    let replies = made_or_status(rt, replies)?;
    let status = compare_needs(rt, runs, replies.as_slice(), settings)?;
    if misread.is_empty() {
        return Ok(status);
    }
    made_or_status(
        rt,
        report_misread(rt, runs, misread.as_slice(), settings.form),
    )?;
    Ok(misread_status(status))
}

// Returns the exit status if a line isn't understood: 3, unless the write failed.
fn misread_status(status: u8) -> u8
    ensures { result ≡ status_if_misread status }
{
    if status == 0 || status == CHANGED {
        MISREAD
    } else {
        status
    }
}

// Compares the needs of both runs, and prints all differences, with these replies. Returns the exit status; the error is 1.
fn compare_needs<'a>(
    rt: &HostRuntime,
    runs: RunPair<'a>,
    replies: &'a [ReplyChange<'a>],
    settings: Settings<'_>,
) -> Result<u8, u8>
    ensures ended { IfOk result (EndsAs ⊥ (EndsChanged (NeedsDiffer settings.entry
        runs.entry.was.file.list.now (whole_view runs.entry.was.lines.now)
        runs.entry.now.file.list.now (whole_view runs.entry.now.lines.now)
        runs.entry.breaches.now replies.now))) }
    ensures failed { IfErr result (λ status. status ≡ 1) }
{
    let had = needs(rt, runs.was, settings)?;
    let has = needs(rt, runs.now, settings)?;
    let lacks = made_or_status(rt, lacks(rt.alloc(), had.as_slice(), has.as_slice()))?;
    let pair = JudgedPair {
        lists: ListPair {
            before: runs.was.file,
            after: runs.now.file,
        },
        breaches: runs.breaches,
    };
    Ok(print_differences(rt, pair, lacks.as_slice(), replies, settings.form))
}
