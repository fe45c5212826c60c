//! The text of a policy, line by line.
ghost use Rattle.std.specs.Prelude.{◌≡◌, ◌++◌, map, IfOk, OnOk};
ghost use Rattle.std.specs.Option.{option_copied, option_map};
ghost use Rattle.std.specs.Result.{result_map_both};
ghost use Rattle.list_reach.specs.Paths.{pieces};
ghost use Rattle.list_policy.specs.Components.{fault_at};
ghost use Rattle.list_policy.specs.Line.{line_at};
ghost use Rattle.list_policy.specs.Reading.{Reads, apart_or, faults_from, faults_in_line, from_kind, head_of, isolates, place_of_label, line_from, line_of, lines_in_line, lines_of, one_flaw, path_place, quoted_of, said, target_faults, targets_in, unless_silent};
ghost use Rattle.list_policy.specs.Statement.{flaw_at, path_at, statement_at};

use crate::components::{NamedKind, PolicyPlace, components};
use crate::cuts::{blanks, cut, plus, text_at};
use crate::demand::{Demand, PolicyLine, are_separate};
use crate::fault::{PolicyFault, PolicyFlaw};
use crate::statement::{PolicyPath, Statement, WITH, statement_of};
use list_parser::StartList;
use list_reach::{pieces, trimmed};
use std::alloc::{AllocError, Global};

/// A policy: its lines in order, and what is wrong with its other lines.
#[derive(Drop)]
pub struct Policy<'a> {
    lines: Vec<PolicyLine>,
    faults: Vec<PolicyFault<'a>>,
}

impl<'a> Policy<'a> {
    /// Reads the policy that a text is for a start list. It has a fault if no line is a demand. Fails if the host is out of memory.
    pub fn read(alloc: Global, list: &StartList, text: &'a [u8]) -> Result<Policy<'a>, AllocError>
        ensures { IfOk result (Reads list.now text.now) }
    {
        let mut policy = Policy::of_lines(alloc, list, text)?;
        policy.refuse_silence()?;
        Ok(policy)
    }

    // Reads the lines of a text.
    fn of_lines(alloc: Global, list: &StartList, text: &'a [u8]) -> Result<Policy<'a>, AllocError>
        ensures lines { IfOk result (λ policy. map line_at policy.lines.items
            ≡ lines_of list.now text.now) }
        ensures faults { IfOk result (λ policy. map fault_at policy.faults.items
            ≡ faults_from list.now 1 (pieces 10 text.now)) }
    {
        let texts = pieces(alloc, text, b'\n')?;
        let mut policy = Policy {
            lines: Vec::new(alloc),
            faults: Vec::new(alloc),
        };
        for place in 0..texts.len() {
            policy.add(alloc, list, place + 1, texts[place])?;
        }
        Ok(policy)
    }

    // Adds a fault if no line is a demand or has a fault.
    #[tactic(auto, using(crate::proofs::ReadingLemmas::spoken, crate::proofs::ReadingLemmas::silent))]
    fn refuse_silence(&mut self) -> Result<(), AllocError>
        ensures lines { OnOk result (self.new.lines.items ≡ self.old.lines.items) }
        ensures faults { OnOk result (map fault_at self.new.faults.items
            ≡ unless_silent (map line_at self.old.lines.items) (map fault_at self.old.faults.items)) }
    {
        if self.lines.is_empty() && self.faults.is_empty() {
            let whole = PolicyPlace { line: 0, column: 0 };
            self.faults.push(whole.fault(PolicyFlaw::NoDemands))?;
        }
        Ok(())
    }

    /// Returns the lines that are demands, in the order of the text.
    pub fn lines(&self) -> &[PolicyLine]
        ensures { result.now ≡ self.now.lines.items }
    {
        self.lines.as_slice()
    }

    /// Returns the faults of the other lines, in the order of the text.
    pub fn faults(&self) -> &[PolicyFault<'a>]
        ensures { result.now ≡ self.now.faults.items }
    {
        self.faults.as_slice()
    }

    // Adds the line of a number, or what is wrong with it.
    fn add(
        &mut self,
        alloc: Global,
        list: &StartList,
        number: usize,
        text: &'a [u8],
    ) -> Result<(), AllocError>
        ensures lines { OnOk result (map line_at self.new.lines.items
            ≡ map line_at self.old.lines.items ++ lines_in_line (said list.now number text.now)) }
        ensures faults { OnOk result (map fault_at self.new.faults.items
            ≡ map fault_at self.old.faults.items ++ faults_in_line (said list.now number text.now)) }
    {
        let (head, quoted) = parted(text);
        if head.is_empty() && quoted.is_none() {
            return Ok(());
        }
        let place = PolicyPlace {
            line: number,
            column: plus(blanks(text), 1),
        };
        match read_line(
            alloc,
            list,
            place,
            label_place(number, text, quoted),
            head,
            quoted,
        )? {
            Ok(line) => self.lines.push(line)?,
            Err(mut faults) => self.faults.append(&mut faults)?,
        }
        Ok(())
    }
}

// A line, or what is wrong with it.
type LineRead<'a> = Result<PolicyLine, Vec<PolicyFault<'a>>>;

// The place of the label of a line, or of the text in its place.
fn label_place(number: usize, line: &[u8], quoted: Option<&[u8]>) -> PolicyPlace
    ensures { result ≡ place_of_label number line.now (option_copied quoted.entry) }
{
    let before = match quoted {
        Some(_) => cut(b'"', line).0.len(),
        None => plus(text_at(WITH, line).unwrap_or(0), 1),
    };
    PolicyPlace {
        line: number,
        column: plus(before, 1),
    }
}

// The line at a place, of a head and the text after its quote. Its label has a place of its own.
fn read_line<'a>(
    alloc: Global,
    list: &StartList,
    place: PolicyPlace,
    label: PolicyPlace,
    head: &'a [u8],
    quoted: Option<&'a [u8]>,
) -> Result<LineRead<'a>, AllocError>
    ensures { IfOk result (λ read.
        result_map_both line_at (λ faults. map fault_at faults.items) read
        ≡ line_from list.now place label head.now (option_copied quoted.entry)) }
{
    match statement_of(head, quoted) {
        Ok(statement) => line_of(alloc, list, place, statement),
        Err(PolicyFlaw::BadLabel) => faulty(alloc, label, PolicyFlaw::BadLabel),
        Err(flaw) => faulty(alloc, place, flaw),
    }
}

// A line with one flaw.
fn faulty<'a>(
    alloc: Global,
    place: PolicyPlace,
    flaw: PolicyFlaw<'a>,
) -> Result<LineRead<'a>, AllocError>
    ensures { IfOk result (λ read.
        result_map_both line_at (λ faults. map fault_at faults.items) read
        ≡ one_flaw place (flaw_at flaw.entry)) }
{
    let mut faults = Vec::new(alloc);
    faults.push(place.fault(flaw))?;
    Ok(Err(faults))
}

// The line of a statement, with the numbers of all that its paths denote.
#[tactic(auto, using(crate::proofs::ReadingLemmas::none_found, crate::proofs::ReadingLemmas::some_found))]
fn line_of<'a>(
    alloc: Global,
    list: &StartList,
    place: PolicyPlace,
    statement: Statement<'a>,
) -> Result<LineRead<'a>, AllocError>
    ensures { IfOk result (λ read.
        result_map_both line_at (λ faults. map fault_at faults.items) read
        ≡ line_of list.now place (statement_at statement.entry)) }
{
    let Statement { demand, from, to } = statement;
    let mut faults = Vec::new(alloc);
    let kind = from_kind(&demand);
    let from_place = path_place(place, from);
    let from = components(alloc, list, &mut faults, kind, from_place, from.text)?;
    let to = targets(alloc, list, &mut faults, place, to)?;
    if !faults.is_empty() {
        return Ok(Err(faults));
    }
    let line = PolicyLine {
        number: place.line,
        column: place.column,
        demand,
        from,
        to,
    };
    apart_or(alloc, list, place, line)
}

// The numbers of the servers that paths after an arrow denote, if there is one.
fn targets<'a>(
    alloc: Global,
    list: &StartList,
    faults: &mut Vec<PolicyFault<'a>>,
    place: PolicyPlace,
    to: Option<PolicyPath<'a>>,
) -> Result<Vec<usize>, AllocError>
    ensures found { IfOk result (λ found. found.items ≡ targets_in list.now (option_map path_at to.entry)) }
    ensures faults { OnOk result (map fault_at faults.new.items ≡ map fault_at faults.old.items
        ++ target_faults list.now place (option_map path_at to.entry)) }
{
    match to {
        Some(to) => components(
            alloc,
            list,
            faults,
            NamedKind::Servers,
            path_place(place, to),
            to.text,
        ),
        None => Ok(Vec::new(alloc)),
    }
}

// The place of paths in a line that begins at a place.
fn path_place(place: PolicyPlace, paths: PolicyPath<'_>) -> PolicyPlace
    ensures { result ≡ path_place place (path_at paths.entry) }
{
    PolicyPlace {
        line: place.line,
        column: plus(place.column, paths.at),
    }
}

// The kind of the components that a line names before its arrow, or if it has none.
fn from_kind(demand: &Demand) -> NamedKind
    ensures { result ≡ from_kind demand.now }
{
    match demand {
        Demand::Deny(_) | Demand::Allow(_) | Demand::Only(_) => NamedKind::Scripts,
        Demand::Isolate | Demand::AtMost(_) => NamedKind::Any,
    }
}

// A line, unless its components are to be isolated and aren't separate.
fn apart_or<'a>(
    alloc: Global,
    list: &StartList,
    place: PolicyPlace,
    line: PolicyLine,
) -> Result<LineRead<'a>, AllocError>
    ensures { IfOk result (λ read.
        result_map_both line_at (λ faults. map fault_at faults.items) read
        ≡ apart_or list.now place (line_at line)) }
{
    if isolates(&line.demand) && !are_separate(list, line.from.as_slice()) {
        return faulty(alloc, place, PolicyFlaw::NotApart);
    }
    Ok(Ok(line))
}

// Whether a demand is that components are isolated.
fn isolates(demand: &Demand) -> bool
    ensures { result ≡ isolates demand.now }
{
    match demand {
        Demand::Deny(_) | Demand::Allow(_) | Demand::Only(_) | Demand::AtMost(_) => false,
        Demand::Isolate => true,
    }
}

// A line up to its label or its comment, and the text after the quote of its label.
fn parted(line: &[u8]) -> (&[u8], Option<&[u8]>)
    ensures head { result.0.now ≡ head_of line.now }
    ensures quoted { option_copied result.1 ≡ quoted_of line.now }
{
    let (start, quoted) = cut(b'"', line);
    let (head, comment) = cut(b'#', start);
    match comment {
        Some(_) => (trimmed(head), None),
        None => (trimmed(head), quoted),
    }
}
