//! The command `alone`: replies to a script in the whole run and alone, for one script or for each.
ghost use Rattle.std.specs.Prelude.{◌≡◌, ◌==◌, ◌||◌, if◌then◌else◌, false, Some, IfErr, IfOk};
ghost use Rattle.line_rounds.specs.Views.{whole_view};
ghost use Rattle.cli_base.specs.Statuses.{EndsAs, HasNoResult};
ghost use Rattle.cli_runs.specs.CommandStatus.{AllAloneEnd, AloneEnds, EndsCompared, IsAloneView, IsRunOf, IsUnbootable, LacksQuota, compared_status, comparison_status, lines_status};

use crate::run_end::RunEnd;
use crate::run_request::{NONE_EARLIER, RunRequest, run_chosen};
use crate::view::RunView;
use cli_base::{
    Host, Machine, MachineChoice, Origin, OutputStream, Printing, Settings, UNWRITTEN, Writer,
    no_memory, plain_writer, report_boot_fault, scenario_text, status_after, status_of, text_of,
    unfolded, watched_reader,
};
use cli_options::AloneOptions;
use line_rounds::UnfoldedText;
use list_parser::StartList;
use run_scenario::ScenarioInput;
use std::alloc::AllocError;
use std::io;
use std::io::Write;
use view_runs::{AloneComparison, alone};

/// The exit status if a reply isn't as expected, or a script has other replies alone.
const DIFFERENT: u8 = 3;

/// Prints the replies to a component in the whole run of a scenario and alone. Returns the exit status.
pub fn show_alone<'a, H: Host>(
    host: &H,
    asked: &'a AloneOptions<'a>,
    scenario: &'a str,
    settings: Settings<'a>,
) -> u8
    ensures { AloneEnds (H.text_at host.now) asked.now scenario.now settings.entry result }
{
    run_chosen(
        host,
        asked.machine,
        alone_of(asked.name, scenario, settings),
    )
}

// Returns the run whose replies to the component of a name are shown.
fn alone_of<'a>(name: &'a str, scenario: &'a str, settings: Settings<'a>) -> RunRequest<'a>
    ensures { IsRunOf scenario.now settings.entry (IsAloneView name.now) (Some name.now) result }
{
    RunRequest {
        scenario,
        settings,
        viewing: RunView::Alone(name.as_bytes()),
        name: Some(name),
        earlier: NONE_EARLIER,
    }
}

/// Runs a scenario once for each script of the machine, and prints what `show_alone` prints. Diagnostics are printed once.
/// Returns the exit status: 3 also if a script has other replies alone.
pub fn show_all_alone<'a, H: Host>(
    host: &H,
    asked: &'a AloneOptions<'a>,
    settings: Settings<'a>,
) -> u8
    ensures { AllAloneEnd (H.text_at host.now) asked.now settings.entry result }
{
    let scenario = match scenario_text(host, settings.form, asked.name) {
        Ok(scenario) => scenario,
        Err(status) => return status,
    };
    let rt = host.rt();
    let lines = match unfolded(rt, asked.name, &scenario, settings) {
        Ok(lines) => lines,
        Err(status) => return status,
    };
    let list = match MachineChoice::of(host, settings.form, asked.machine, asked.name) {
        Ok(list) => list,
        Err(status) => return status,
    };
    let options = ComparisonOptions {
        scenario: asked.name,
        summary: asked.summary,
        settings,
    };
    match Machine::read(host, list.path(), settings) {
        Ok(machine) => compare_scripts(host, &machine, &lines, options),
        Err(status) => status,
    }
}

// The options of a comparison of all scripts.
#[derive(Clone, Copy)]
struct ComparisonOptions<'a> {
    // The path of the scenario.
    scenario: &'a str,
    // Whether only the last line is printed of each script.
    summary: bool,
    // The settings of the command line.
    settings: Settings<'a>,
}

// Compares the runs of each script of a machine, one after another. Returns the exit status.
fn compare_scripts<'a, H: Host>(
    host: &'a H,
    machine: &'a Machine<'a>,
    lines: &'a UnfoldedText<'a>,
    options: ComparisonOptions<'a>,
) -> u8
    ensures { EndsAs (LacksQuota machine.now)
        (EndsCompared options.entry.settings machine.now (whole_view lines.now)) result }
{
    let list = machine.list();
    match compare_listed(host, machine, list, lines, options) {
        Ok(status) | Err(status) => status,
    }
}

// Compares the runs of each script of a machine's list, and returns the exit status. The error is that of a run without a result.
fn compare_listed<'a, H: Host>(
    host: &'a H,
    machine: &'a Machine<'a>,
    list: &'a StartList,
    lines: &'a UnfoldedText<'a>,
    options: ComparisonOptions<'a>,
) -> Result<u8, u8>
    ensures ended { IfOk result (λ status. status ≡ compared_status list.now.entries
        (lines_status list.now options.entry.settings (whole_view lines.now))) }
    ensures failed { IfErr result (HasNoResult (IsUnbootable list.now)) }
{
    let mut status = 0;
    let mut silent = false;
    for entry in list.entries() {
        if !entry.is_script() {
            continue;
        }
        let script = ScriptComparison {
            machine,
            list,
            name: entry.path(),
            lines,
            silent,
        };
        let compared = script.compare(host, options)?;
        status = status_with(status, compared);
        silent = true;
    }
    Ok(status)
}

// Returns the status of two comparisons: that of the second one, unless this has no fault.
fn status_with(status: u8, second: u8) -> u8
    ensures { result ≡ (if second == 0 then status else second) }
{
    if second == 0 { status } else { second }
}

// Returns the exit status of a comparison: 1 for a fault of the run, 3 if a reply isn't as expected or differs, else 0.
fn comparison_status(compared: AloneComparison) -> u8
    ensures { result ≡ comparison_status compared }
{
    if compared.ending.fault.is_some() {
        UNWRITTEN
    } else if compared.ending.complaints > 0 || compared.difference.is_some() {
        DIFFERENT
    } else {
        0
    }
}

// Returns whether a status is that of a comparison: 0 or 3.
fn is_compared(status: u8) -> bool
    ensures { result ≡ (status == 0 || status == 3) }
{
    status == 0 || status == DIFFERENT
}

// Returns a writer to a destination, or one that drops all.
fn writer_unless<'a>(rt: &HostRuntime, is_dropped: bool, place: OutputStream<'a>) -> Writer<'a> {
    plain_writer(
        rt,
        if is_dropped {
            OutputStream::Dropped
        } else {
            place
        },
    )
}

// The comparison of a script's replies.
#[derive(Clone, Copy)]
struct ScriptComparison<'a> {
    machine: &'a Machine<'a>,
    // The machine's list.
    list: &'a StartList,
    name: &'a [u8],
    lines: &'a UnfoldedText<'a>,
    // Whether diagnostics were printed already.
    silent: bool,
}

impl<'a> ScriptComparison<'a> {
    ghost use Rattle.std.specs.Prelude.{◌≡◌, IfErr, IfOk};
    ghost use Rattle.line_rounds.specs.Views.{whole_view};
    ghost use Rattle.cli_base.specs.Statuses.{EndsAs, HasNoResult};
    ghost use Rattle.cli_runs.specs.CommandStatus.{IsUnbootable, comparison_status, lines_status};

    // Compares as `run` does, and returns 0 or 3. The error is the status of a run without a result.
    fn compare<H: Host>(self, host: &'a H, options: ComparisonOptions<'a>) -> Result<u8, u8>
        ensures ended { IfOk result (λ status. status
            ≡ lines_status self.entry.list.now options.entry.settings (whole_view self.entry.lines.now)) }
        ensures failed { IfErr result (HasNoResult (IsUnbootable self.entry.list.now)) }
    {
        let status = self.run(host, options);
        if is_compared(status) {
            Ok(status)
        } else {
            Err(status)
        }
    }

    // Runs the scenario, prints the comparison of the script's replies, and returns the exit status.
    fn run<H: Host>(self, host: &'a H, options: ComparisonOptions<'a>) -> u8
        ensures { EndsAs (IsUnbootable self.entry.list.now) (λ status. status
            ≡ lines_status self.entry.list.now options.entry.settings (whole_view self.entry.lines.now)) result }
    {
        let (rt, settings) = (host.rt(), options.settings);
        let start = match settings.start_or_status(rt, self.lines.marks()) {
            Ok(start) => start,
            Err(status) => return status,
        };
        let input = ScenarioInput {
            list: self.list,
            scenario: settings.subject(options.scenario),
            start,
        };
        let origin: Origin<'_, H::File> = Origin::Held(self.lines.bytes());
        let mut reader = watched_reader(rt, origin, Printing::Afterwards);
        let mut writer = writer_unless(rt, options.summary, OutputStream::text(rt));
        let stderr = OutputStream::Complained(rt.stderr());
        let mut complaints = writer_unless(rt, self.silent, stderr);
        let compared = alone(
            rt.alloc(),
            input,
            self.name,
            &mut reader,
            &mut writer,
            &mut complaints,
        );
        match compared {
            Ok(compared) => self.print(rt, options, compared, writer),
            Err(fault) => report_boot_fault(rt, settings.form, self.machine, &fault),
        }
    }

    // Prints a comparison, or only its last line, and returns the exit status.
    fn print(
        self,
        rt: &HostRuntime,
        options: ComparisonOptions<'a>,
        compared: AloneComparison,
        written: Writer<'_>,
    ) -> u8
        ensures { EndsAs ⊥ (λ status. status ≡ comparison_status compared) result }
    {
        let Ok(text) = self.text(rt, options, compared, written) else {
            return no_memory(rt);
        };
        let printed = status_of(rt, io::writer(rt).write_all(text.as_slice()));
        if printed == 0 {
            let end = RunEnd {
                ended: Ok(compared.ending),
                unread: false,
            };
            let _ = end.report_fault(rt, options.settings.form, options.scenario);
        }
        status_after(printed, comparison_status(compared))
    }

    // Returns the text of a comparison, of which a summary is the last line. The error is out of memory.
    fn text(
        self,
        rt: &HostRuntime,
        options: ComparisonOptions<'a>,
        compared: AloneComparison,
        written: Writer<'_>,
    ) -> Result<Vec<u8>, AllocError> {
        if !options.summary {
            return Ok(text_of(rt, written));
        }
        let mut writer = plain_writer(rt, OutputStream::text(rt));
        if compared.ending.fault.is_none() && compared.write_sum(self.name, &mut writer).is_err() {
            return Err(AllocError);
        }
        Ok(text_of(rt, writer))
    }
}
