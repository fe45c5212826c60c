//! A scenario's run on a machine, over files and the standard streams.
ghost use Rattle.std.specs.Prelude.{◌≡◌, is_some, position, None, Some, IfErr, IfOk, IfSome};
ghost use Rattle.std.specs.Str.{bytes_eq};
ghost use Rattle.cli_base.specs.Files.{IsTooLong, IsUnknown};
ghost use Rattle.cli_base.specs.Origins.{origin_bytes};
ghost use Rattle.cli_base.specs.Statuses.{EndsAs};
ghost use Rattle.cli_base.specs.Unfolding.{EndsUnfolded};
ghost use Rattle.cli_runs.specs.CommandStatus.{EndsByLine, EndsChosen, EndsLines, EndsNamed, EndsOn, IsRunOf, RunRefused, is_known, named_status};
ghost use Rattle.cli_runs.specs.RunStatus.{EndsFrom, HasStatus, IsUnbooted, start_by, start_of};

use crate::run_end::RunEnd;
use crate::view::{RunView, view};
use cli_base::{
    Host, Machine, MachineChoice, Origin, OutputStream, REFUSED, ReadFailure, STANDARD_INPUT,
    Settings, Spot, no_memory, read_whole, report_boot_fault, report_error, unfolded,
    watched_reader, writer,
};
use line_names::RoundMark;
use list_parser::StartList;
use run_scenario::{ScenarioInput, near_component};
use std::alloc::AllocError;
use std::io;
use std::io::Read;
use view_colors::Lines;
use view_diagnostics::{Counts, DiagnosticForm};

/// The exit status if no component has the name that is asked for.
const NOBODY: u8 = 3;

/// A scenario, and what is printed of its run.
#[derive(Clone, Copy)]
pub(crate) struct RunRequest<'a> {
    /// The path of the scenario.
    pub(crate) scenario: &'a str,
    /// The settings of the command line.
    pub(crate) settings: Settings<'a>,
    /// What is printed of the run.
    pub(crate) viewing: RunView<'a>,
    /// The component that the command line names, if it names one.
    pub(crate) name: Option<&'a str>,
    /// How many errors and warnings were printed before the run.
    pub(crate) earlier: Counts,
}

/// No errors and no warnings.
pub(crate) const NONE_EARLIER: Counts = Counts {
    errors: 0,
    warnings: 0,
};

impl<'a> RunRequest<'a> {
    /// Returns a run that isn't restricted to one component.
    pub(crate) fn whole(
        scenario: &'a str,
        settings: Settings<'a>,
        viewing: RunView<'a>,
    ) -> RunRequest<'a>
        ensures { IsRunOf scenario.now settings.entry (λ view. view ≡ viewing.entry) None result }
    {
        RunRequest {
            scenario,
            settings,
            viewing,
            name: None,
            earlier: NONE_EARLIER,
        }
    }
}

/// Runs a scenario on the machine of the start list that the command line names, of the list next to the scenario, or on the built-in
/// machine. Returns the exit status.
pub(crate) fn run_chosen<H: Host>(host: &H, named: Option<&str>, request: RunRequest<'_>) -> u8
    ensures { EndsAs (RunRefused (H.text_at host.now) named.entry request.entry)
        (EndsChosen (H.text_at host.now) named.entry request.entry) result }
{
    let form = request.settings.form;
    let list = match MachineChoice::of(host, form, named, request.scenario) {
        Ok(list) => list,
        Err(status) => return status,
    };
    match Machine::read(host, list.path(), request.settings) {
        Ok(machine) => run_named(host, &machine, request),
        Err(status) => status,
    }
}

// Runs a scenario on a machine. Before the run prints an error if no component has the name that is asked for.
fn run_named<H: Host>(host: &H, machine: &Machine<'_>, request: RunRequest<'_>) -> u8
    ensures { EndsAs (IsUnknown (H.text_at host.now) request.entry.scenario.now)
        (EndsNamed (H.text_at host.now) machine.now request.entry) result }
{
    let form = request.settings.form;
    let known = is_known(host.rt(), form, machine.list(), request.name);
    let earlier = Counts {
        errors: u64::from(!known),
        warnings: 0,
    };
    let status = run_on(host, machine, RunRequest { earlier, ..request });
    named_status(known, status)
}

// Returns the exit status of a run: 3 if no component has the name that is asked for, unless a fault comes first.
fn named_status(known: bool, status: u8) -> u8
    ensures { result ≡ named_status known status }
{
    if !known && status == 0 {
        NOBODY
    } else {
        status
    }
}

// Runs a scenario of a path on a machine.
fn run_on<H: Host>(host: &H, machine: &Machine<'_>, request: RunRequest<'_>) -> u8
    ensures { EndsAs (IsUnknown (H.text_at host.now) request.entry.scenario.now)
        (EndsOn (H.text_at host.now) machine.now request.entry) result }
{
    let rt = host.rt();
    if request.scenario == STANDARD_INPUT {
        let origin: Origin<'_, H::File> = Origin::Typed(rt.reader());
        return run_source(rt, machine, request, origin, &[]);
    }
    let found = match read_whole(host, request.scenario) {
        Ok(found) => found,
        Err(AllocError) => return no_memory(rt),
    };
    match found {
        Some(text) => run_text(host, machine, request, &text),
        None => run_long(host, machine, request),
    }
}

// Runs the lines of a file that isn't read whole. Refuses a file that can't be opened.
fn run_long<H: Host>(host: &H, machine: &Machine<'_>, request: RunRequest<'_>) -> u8
    requires { IsTooLong (H.text_at host.now) request.scenario.now }
    ensures { EndsAs (IsUnknown (H.text_at host.now) request.entry.scenario.now)
        (EndsByLine (H.text_at host.now) machine.now request.entry) result }
{
    let rt = host.rt();
    let file = match open_or_status(host, request) {
        Ok(file) => file,
        Err(status) => return status,
    };
    run_source(rt, machine, request, Origin::File(file), &[])
}

// Opens the file of a scenario. If that fails, prints why and returns the exit status 2.
fn open_or_status<H: Host>(host: &H, request: RunRequest<'_>) -> Result<H::File, u8>
    ensures bytes { IfOk result (λ file. IfSome (H.text_at host.now request.entry.scenario.now)
        (λ bytes. H.File.remaining file ≡ Some bytes)) }
    ensures failed { IfErr result (λ status. (status ≡ 2)
        × IsUnknown (H.text_at host.now) request.entry.scenario.now) }
{
    match host.open(request.scenario) {
        Ok(file) => Ok(file),
        Err(error) => {
            let unread = ReadFailure::Closed(error);
            report_error(
                host.rt(),
                request.settings.form,
                Spot::nowhere(),
                &unread.about(request.scenario),
            );
            Err(REFUSED)
        }
    }
}

// Runs a scenario of a text, with its rounds unfolded.
fn run_text<H: Host>(host: &H, machine: &Machine<'_>, request: RunRequest<'_>, text: &[u8]) -> u8
    ensures { EndsAs ⊥ (EndsUnfolded request.entry.settings text.now
        (EndsLines machine.now request.entry)) result }
{
    let rt = host.rt();
    let lines = match unfolded(rt, request.scenario, text, request.settings) {
        Ok(lines) => lines,
        Err(status) => return status,
    };
    let origin: Origin<'_, H::File> = Origin::Held(lines.bytes());
    run_source(rt, machine, request, origin, lines.marks())
}

// Runs the lines of a source with these round marks, and prints the fault that stops the run, if one does.
fn run_source<F: Read + Drop>(
    rt: &HostRuntime,
    machine: &Machine<'_>,
    request: RunRequest<'_>,
    origin: Origin<'_, F>,
    marks: &[RoundMark],
) -> u8
    ensures { EndsFrom machine.now request.entry.viewing
        (start_by request.entry.settings marks.now) (origin_bytes F.remaining origin.entry) result }
{
    let list = machine.list();
    let start = match request.settings.start_or_status(rt, marks) {
        Ok(start) => start,
        Err(status) => return status,
    };
    let input = ScenarioInput {
        list,
        scenario: request.settings.subject(request.scenario),
        start,
    };
    let end = run_over_streams(rt, input, request.viewing, origin);
    let form = request.settings.form;
    if let Err(fault) = &end.ended {
        report_boot_fault(rt, form, machine, fault);
    }
    if let RunView::Alone(_) = request.viewing {
        return end.report_fault(rt, form, request.scenario);
    }
    end.report(rt, form, request.scenario, request.earlier)
}

// Runs the lines of a source over the standard streams.
fn run_over_streams<F: Read + Drop>(
    rt: &HostRuntime,
    input: ScenarioInput<'_>,
    viewing: RunView<'_>,
    origin: Origin<'_, F>,
) -> RunEnd
    ensures status { IfOk result.ended (HasStatus viewing.entry
        (start_of viewing.entry input.entry) (origin_bytes F.remaining origin.entry)) }
    ensures unbooted { IfErr result.ended (IsUnbooted input.entry.list.now) }
{
    let coloring = viewing.coloring();
    let mut reader = watched_reader(rt, origin, viewing.printing());
    let stderr = OutputStream::Complained(rt.stderr());
    let mut complaints = writer(rt, stderr, Lines::Complaints, coloring.err);
    let stdout = OutputStream::Printed(io::writer(rt));
    let mut replies = writer(rt, stdout, Lines::Replies, coloring.out);
    let ended = view(
        rt.alloc(),
        input,
        viewing,
        &mut reader,
        &mut replies,
        &mut complaints,
    );
    RunEnd {
        ended,
        unread: replies.sink().is_unread(),
    }
}

// Returns whether a component of a list has the name that is asked for, if one is. Otherwise prints that none has it.
fn is_known(rt: &HostRuntime, form: DiagnosticForm, list: &StartList, name: Option<&str>) -> bool
    ensures { result ≡ is_known name.entry list.now }
{
    match name {
        Some(name) => is_listed(rt, form, list, name),
        None => true,
    }
}

// Returns whether a component of a list has a name. Otherwise prints that none has it, and the name that may be meant.
fn is_listed(rt: &HostRuntime, form: DiagnosticForm, list: &StartList, name: &str) -> bool
    ensures { result ≡ is_some (position (λ entry. bytes_eq entry.path name.now) list.now.entries) }
{
    if list.find(name.as_bytes()).is_some() {
        return true;
    }
    let near = match near_component(list, name.as_bytes()) {
        Some(near) => str::from_utf8(near).ok(),
        None => None,
    };
    match near {
        Some(near) => report_error(
            rt,
            form,
            Spot::nowhere(),
            &format_args!("unknown component `{name}`; did you mean `{near}`?"),
        ),
        None => report_error(
            rt,
            form,
            Spot::nowhere(),
            &format_args!("unknown component `{name}`"),
        ),
    }
    false
}
