//! The writer of diagnostics.
ghost use Rattle.std.specs.Prelude.{◌≡◌, [], false, is_err, OnOk};
ghost use Rattle.run_devices.specs.RunOutput.{OutputsUnless};
ghost use Rattle.view_diagnostics.specs.Diagnostics.{back, front, severity_name, shown, subject_at};

use crate::escape::put_text;
use crate::front::{put_document_front, put_line_front};
use crate::place::FilePlace;
use run_devices::{DeviceFault, Sink, WriteBuffer};
use std::marker::Model;

/// The severity of a diagnostic.
#[derive(Clone, Copy, PartialEq, Eq)]
pub enum Severity {
    /// An error, which has to be changed.
    Error,
    /// A warning: the effect is probably not the one that was intended.
    Warning,
    /// A note, with an improvement.
    Note,
}

impl Severity {
    /// Returns the name of the severity, as a diagnostic has it.
    #[tactic(auto, unfolding(crate::specs::Diagnostics::severity_name))]
    pub fn name(self) -> &'static str
        ensures { result.now ≡ severity_name self }
    {
        match self {
            Severity::Error => "error",
            Severity::Warning => "warning",
            Severity::Note => "note",
        }
    }
}

/// The form of diagnostics.
#[derive(Clone, Copy, PartialEq, Eq)]
pub enum DiagnosticForm {
    /// A line: `FILE:LINE:COLUMN: SEVERITY: MESSAGE`.
    Text,
    /// A line with an object of JSON, whose members are `severity`, `file`, `line`, `column` and `text`.
    Json,
}

/// What diagnostics are about, and their form.
#[derive(Clone, Copy)]
pub struct Subject<'a> {
    /// The path of the file; empty if the diagnostics are about no file.
    pub file: &'a [u8],
    /// The form.
    pub form: DiagnosticForm,
}

/// Writes diagnostics of one subject. Each is begun, has its message in one or more pieces, and is ended.
#[derive(Drop)]
pub struct Diagnostics<'a> {
    subject: Subject<'a>,
    gathered: WriteBuffer,
}

impl<'a> Model for Diagnostics<'a> {
    ghost use Rattle.view_diagnostics.specs.Diagnostics.{DiagnosticsAt, subject_at};

    ghost Value = { DiagnosticsAt };

    ghost view = { λ diagnostics. record {
      subject = subject_at diagnostics.subject;
      gathered = diagnostics.gathered;
    } };
}

impl<'a> Diagnostics<'a> {
    /// Returns a writer of diagnostics about a subject.
    pub fn new(subject: Subject<'a>) -> Diagnostics<'a>
        ensures { result ≡ record { subject = subject_at subject.entry; gathered = [] } }
    {
        Diagnostics {
            subject,
            gathered: WriteBuffer::new(),
        }
    }

    /// Begins a diagnostic: writes all that precedes its message. The error is a failed write.
    pub fn begin<K: Sink>(
        &mut self,
        sink: &mut K,
        place: FilePlace,
        severity: Severity,
    ) -> Result<(), DeviceFault>
        requires { K.has_failed sink.old ≡ false }
        ensures output { OutputsUnless result (K.contents sink.old) self.old.gathered
            (K.contents sink.new) self.new.gathered (front self.old.subject place severity) }
        ensures subject { self.new.subject ≡ self.old.subject }
        ensures failing { K.has_failed sink.new ≡ is_err result }
    {
        let Subject { file, form } = self.subject;
        let gathered = &mut self.gathered;
        match form {
            DiagnosticForm::Text => put_line_front(file, place, severity, gathered, sink),
            DiagnosticForm::Json => put_document_front(file, place, severity, gathered, sink),
        }
    }

    /// Writes a piece of the message, escaped. The error is a failed write.
    pub fn put<K: Sink>(&mut self, sink: &mut K, text: &[u8]) -> Result<(), DeviceFault>
        requires { K.has_failed sink.old ≡ false }
        ensures output { OutputsUnless result (K.contents sink.old) self.old.gathered
            (K.contents sink.new) self.new.gathered (shown self.old.subject.form text.now) }
        ensures subject { self.new.subject ≡ self.old.subject }
        ensures failing { K.has_failed sink.new ≡ is_err result }
    {
        let form = self.subject.form;
        put_text(form, text, &mut self.gathered, sink)
    }

    /// Ends a diagnostic, and writes all of it out. The error is a failed write.
    pub fn end<K: Sink>(&mut self, sink: &mut K) -> Result<(), DeviceFault>
        requires { K.has_failed sink.old ≡ false }
        ensures output { OutputsUnless result (K.contents sink.old) self.old.gathered
            (K.contents sink.new) self.new.gathered (back self.old.subject.form) }
        ensures subject { self.new.subject ≡ self.old.subject }
        ensures empty { OnOk result (self.new.gathered ≡ []) }
        ensures failing { K.has_failed sink.new ≡ is_err result }
    {
        let form = self.subject.form;
        self.gathered.put(sink, end_of(form))?;
        self.gathered.flush(sink)
    }
}

// Returns all that follows the message.
#[tactic(auto, unfolding(crate::specs::Diagnostics::back))]
fn end_of(form: DiagnosticForm) -> &'static [u8]
    ensures { result.now ≡ back form }
{
    match form {
        DiagnosticForm::Text => b"\n",
        DiagnosticForm::Json => b"\"}\n",
    }
}
