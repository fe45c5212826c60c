//! The command `record`: a scenario with its replies, on standard output or in place of the scenario.
ghost use Rattle.std.specs.Prelude.{◌≡◌, ◌&&◌, length};
ghost use Rattle.cli_base.specs.Statuses.{EndsAs, IsZero};
ghost use Rattle.cli_base.specs.Unfolding.{EndsOnText, EndsUnfolded};
ghost use Rattle.cli_runs.specs.CommandStatus.{EndsRecorded, LacksQuota, RecordEnds, is_input, recorded_status};

use crate::line_errors::write_errors;
use cli_base::{
    Host, Machine, MachineChoice, OutputStream, REFUSED, STANDARD_INPUT, Settings, Spot, UNWRITTEN,
    no_memory, plain_writer, replace_file, report_boot_fault, report_error, report_write_failure,
    scenario_text, status_after, status_of, summarize_errors, unfolded, unread_status,
};
use cli_options::RecordOptions;
use run_record::{Recording, RecordingError, Scenario, record};
use std::alloc::AllocError;
use std::io;
use std::io::Write;
use view_diagnostics::{DiagnosticForm, Subject};

/// Records a scenario's replies on its machine. Returns the exit status: 0, 3 if a line has an error, 2 if the arguments or the list
/// are refused.
pub fn record_scenario<H: Host>(host: &H, asked: &RecordOptions<'_>, settings: Settings<'_>) -> u8
    ensures { RecordEnds (H.text_at host.now) asked.now settings.entry result }
{
    if writes_input(asked) {
        report_error(
            host.rt(),
            settings.form,
            Spot::nowhere(),
            &"--write: expected the path of a file, found `-`",
        );
        return REFUSED;
    }
    record_chosen(host, asked, settings)
}

// Returns whether the recording is to be written to standard input.
fn writes_input(asked: &RecordOptions<'_>) -> bool
    ensures { result ≡ (asked.now.write && is_input asked.now.scenario.now) }
{
    asked.write && asked.scenario == STANDARD_INPUT
}

// Records a scenario's replies on the machine of the list that is chosen, and returns the exit status.
fn record_chosen<H: Host>(host: &H, asked: &RecordOptions<'_>, settings: Settings<'_>) -> u8
    ensures { EndsOnText (H.text_at host.now) settings.entry asked.now.machine asked.now.scenario.now
        LacksQuota (λ machine text lines ended. EndsRecorded settings.entry machine lines ended) result }
{
    let list = match MachineChoice::of(host, settings.form, asked.machine, asked.scenario) {
        Ok(list) => list,
        Err(status) => return status,
    };
    let machine = match Machine::read(host, list.path(), settings) {
        Ok(machine) => machine,
        Err(status) => return status,
    };
    match scenario_text(host, settings.form, asked.scenario) {
        Ok(scenario) => record_on(host.rt(), &machine, scenario.as_slice(), asked, settings),
        Err(status) => status,
    }
}

// Records a scenario of a text on a machine, and returns the exit status.
fn record_on(
    rt: &HostRuntime,
    machine: &Machine<'_>,
    text: &[u8],
    asked: &RecordOptions<'_>,
    settings: Settings<'_>,
) -> u8
    ensures { EndsAs (LacksQuota machine.now) (EndsUnfolded settings.entry text.now
        (EndsRecorded settings.entry machine.now)) result }
{
    let lines = match unfolded(rt, asked.scenario, text, settings) {
        Ok(lines) => lines,
        Err(status) => return status,
    };
    let start = match settings.start_or_status(rt, lines.marks()) {
        Ok(start) => start,
        Err(status) => return status,
    };
    let list = machine.list();
    let scenario = Scenario {
        text,
        unfolded: lines.bytes(),
    };
    match record(rt.alloc(), list, scenario, start, asked.all) {
        Ok(recording) => print_recording(rt, settings.form, asked, text, &recording),
        Err(fault) => report_boot_fault(rt, settings.form, machine, &fault),
    }
}

// Prints the errors of a scenario's lines, and then the recording. Returns the exit status.
fn print_recording(
    rt: &HostRuntime,
    form: DiagnosticForm,
    asked: &RecordOptions<'_>,
    text: &[u8],
    recording: &Recording,
) -> u8
    ensures { EndsAs ⊥ (λ status. status ≡ recorded_status (length recording.now.errors.items)) result }
{
    let subject = Subject {
        file: asked.scenario.as_bytes(),
        form,
    };
    let status = errors_or_status(rt, subject, text, recording);
    let printed = write_recording(rt, form, asked, text, recording.text.as_slice());
    status_after(printed, status)
}

// Prints the errors of a scenario's lines, and their number. Returns the exit status.
fn errors_or_status(
    rt: &HostRuntime,
    subject: Subject<'_>,
    text: &[u8],
    recording: &Recording,
) -> u8
    ensures { EndsAs ⊥ (λ status. status ≡ recorded_status (length recording.now.errors.items)) result }
{
    match report_errors(rt, subject, text, recording.errors.as_slice()) {
        Ok(()) => unread_status(recording.errors.len()),
        Err(AllocError) => no_memory(rt),
    }
}

// Prints the errors of a scenario's lines, and their number. The error is out of memory.
fn report_errors(
    rt: &HostRuntime,
    subject: Subject<'_>,
    text: &[u8],
    errors: &[RecordingError],
) -> Result<(), AllocError> {
    let mut stderr = plain_writer(rt, OutputStream::Complained(rt.stderr()));
    write_errors(rt.alloc(), subject, text, errors, &mut stderr)?;
    summarize_errors(rt, subject.form, errors.len() as u64);
    Ok(())
}

// Writes a recording to standard output or to the scenario's file, and returns the exit status.
fn write_recording(
    rt: &HostRuntime,
    form: DiagnosticForm,
    asked: &RecordOptions<'_>,
    old: &[u8],
    new: &[u8],
) -> u8
    ensures { EndsAs ⊥ IsZero result }
{
    if !asked.write {
        return status_of(rt, io::writer(rt).write_all(new));
    }
    match replace_file(rt, asked.scenario, old, new) {
        Ok(()) => 0,
        Err(error) => {
            report_write_failure(rt, form, asked.scenario, &error);
            UNWRITTEN
        }
    }
}
