//! The check of a start list against a policy: each line of the policy that the list breaks, with its place.
ghost use Rattle.std.specs.Prelude.{◌≡◌, ◌++◌, ◌≤◌, false, List, filter, length, map, MatchOption, IfErr, IfOk, OnOk};
ghost use Rattle.list_policy.specs.Components.{fault_at};
ghost use Rattle.list_policy.specs.Demand.{AreBreaches};
ghost use Rattle.list_policy.specs.Line.{line_at};
ghost use Rattle.list_policy.specs.Pairs.{says_nothing};
ghost use Rattle.list_policy.specs.Verdict.{AreBrokenAt, IsVerdict, breach_place, flaw_place};
ghost use Rattle.list_policy.specs.declared.breach.Breach.{Breach};
ghost use Rattle.cli_base.specs.Files.{IsTextAt};
ghost use Rattle.cli_base.specs.PolicyVerdict.{HasNoPolicy, IsNoPolicy, IsVerdictAt, note_place, policy_lacks_memory, verdict_notes, verdict_status};

use crate::files::{FileReadMessage, read_list};
use crate::host::Host;
use crate::reports::Spot;
use crate::status::{REFUSED, UNWRITTEN};
use list_parser::StartList;
use list_policy::{
    Breach, BreachText, Demand, PairCount, Policy, PolicyFault, PolicyLine, exit_status,
};
use std::alloc::{AllocError, Global};
use std::{fmt, str};
use view_diagnostics::Severity;

/// The most bytes of a policy.
const LONGEST_POLICY: usize = 65_536;

/// A diagnostic of a policy: its place, and the message.
#[derive(Drop)]
pub struct PolicyDiagnostic {
    /// The number of the line, from 1 on, or 0 if the diagnostic is about the whole policy.
    pub line: usize,
    /// The column in bytes, from 1 on.
    pub column: usize,
    /// The message of the diagnostic.
    pub text: String,
}

/// A remark on a line of a policy, whether the line is kept or not.
#[derive(Drop)]
pub struct PolicyRemark {
    /// The place and the message.
    pub diagnostic: PolicyDiagnostic,
    /// `Warning` if the line speaks of nothing, and `Note` if the tree keeps pairs apart that the line is about.
    pub severity: Severity,
    /// Whether the remark is about a part of the line's pairs. Such a remark is left out of lines for people.
    pub is_partial: bool,
}

/// What is found of the lines of a policy without faults, in their order.
#[derive(Drop)]
pub struct PolicyFindings {
    /// The breaches: none if the list keeps the policy.
    pub broken: Vec<PolicyDiagnostic>,
    /// The number of lines that speak of nothing.
    pub void: usize,
    /// The remarks, of which so many are warnings.
    pub remarks: Vec<PolicyRemark>,
}

/// The result of a check of a start list against a policy.
#[derive(Drop)]
pub enum PolicyVerdict {
    /// What is found of the policy's lines.
    Held(PolicyFindings),
    /// The faults of the policy's lines.
    Faulty(Vec<PolicyDiagnostic>),
    /// The reason for which the policy isn't read.
    ReadFailure(String),
}

impl PolicyVerdict {
    /// Returns the exit status of a check: 0 if no line of the policy is broken, and 3 if one is. A policy that has a fault or
    /// isn't read has the status 2, and so has one with a line that speaks of nothing if the check is strict.
    pub fn exit_status(&self, strict: bool) -> u8
        ensures { result ≡ verdict_status strict self.now }
    {
        match self {
            PolicyVerdict::Held(found) => {
                exit_status(if strict { found.void } else { 0 }, found.broken.len())
            }
            PolicyVerdict::Faulty(faults) => exit_status(faults.len(), 0),
            PolicyVerdict::ReadFailure(_) => REFUSED,
        }
    }
}

impl PolicyDiagnostic {
    /// Returns the place in the policy's file.
    pub fn spot<'a>(&self, path: &'a str) -> Spot<'a> {
        policy_spot(path, self.line, self.column)
    }
}

/// Returns a place in a policy's file: a line and a column, or the whole file if the line is 0.
pub fn policy_spot(path: &str, line: usize, column: usize) -> Spot<'_> {
    if line == 0 {
        Spot::file(path)
    } else {
        Spot::byte(path, line as u64, column)
    }
}

/// The reason for which the text of a policy isn't read, with the policy's path.
#[derive(Clone, Copy)]
pub enum PolicyReadFailure<'a> {
    /// The file can't be read.
    Unread(FileReadMessage<'a>),
    /// The file of this path has more than 65536 bytes.
    TooLong(&'a str),
    /// The file of this path isn't UTF-8.
    NoText(&'a str),
}

impl PolicyReadFailure<'_> {
    ghost use Rattle.std.specs.Prelude.{◌≡◌, if◌then◌else◌};
    ghost use Rattle.cli_base.specs.PolicyVerdict.{policy_lacks_memory};

    // Returns whether the host is out of memory.
    fn lacks_memory(self) -> bool
        ensures { result ≡ policy_lacks_memory self.entry }
    {
        match self {
            PolicyReadFailure::Unread(message) => message.lacks_memory(),
            PolicyReadFailure::TooLong(_) | PolicyReadFailure::NoText(_) => false,
        }
    }

    /// Returns the exit status: 1 if the host is out of memory, and else 2.
    pub fn exit_status(self) -> u8
        ensures { result ≡ (if policy_lacks_memory self.entry then 1 else 2) }
    {
        if self.lacks_memory() {
            UNWRITTEN
        } else {
            REFUSED
        }
    }
}

impl fmt::Display for PolicyReadFailure<'_> {
    fn fmt<W: fmt::Write>(&self, f: &mut fmt::Formatter<W>) -> fmt::Result {
        match self {
            PolicyReadFailure::Unread(why) => write!(f, "{why}"),
            PolicyReadFailure::TooLong(path) => {
                write!(f, "{path} has more than {LONGEST_POLICY} bytes")
            }
            PolicyReadFailure::NoText(path) => write!(f, "{path} is not UTF-8"),
        }
    }
}

/// Reads the text of the policy of a path. Errors in order: the file can't be read; it has more than 65536 bytes; it isn't UTF-8.
pub fn policy_text<'a, H: Host>(host: &H, path: &'a str) -> Result<Vec<u8>, PolicyReadFailure<'a>>
    ensures text { IfOk result (λ text. IsTextAt (H.text_at host.now) path.now text.items) }
    ensures failed { IfErr result (λ failure. policy_lacks_memory failure ≡ false
        → HasNoPolicy (H.text_at host.now) path.now) }
{
    match read_list(host, path) {
        Ok(bytes) => text_of(path, bytes),
        Err(why) => Err(PolicyReadFailure::Unread(why.about(path))),
    }
}

// Returns the bytes of a policy's file if they are a text. Errors in order: there are more than 65536; they aren't UTF-8.
#[tactic(auto, using(crate::proofs::VerdictLemmas::too_long, crate::proofs::VerdictLemmas::not_text))]
fn text_of(path: &str, bytes: Vec<u8>) -> Result<Vec<u8>, PolicyReadFailure<'_>>
    ensures text { IfOk result (λ text. text.items ≡ bytes.items) }
    ensures few { IfOk result (λ text. length text.items ≤ LONGEST_POLICY) }
    ensures no_text { IfErr result (λ failure. IsNoPolicy bytes.items) }
    ensures no_lack { IfErr result (λ failure. policy_lacks_memory failure ≡ false) }
{
    if LONGEST_POLICY < bytes.len() {
        return Err(PolicyReadFailure::TooLong(path));
    }
    match str::from_utf8(&bytes) {
        Ok(_) => Ok(bytes),
        Err(_) => Err(PolicyReadFailure::NoText(path)),
    }
}

/// Checks a start list against the policy of a path. Returns an error if the host is out of memory.
pub fn check_policy<H: Host>(
    host: &H,
    list: &StartList,
    path: &str,
) -> Result<PolicyVerdict, AllocError>
    ensures { IfOk result (λ verdict. IsVerdictAt (H.text_at host.now) path.now list.now verdict) }
{
    let alloc = host.rt().alloc();
    match policy_text(host, path) {
        Ok(text) => verdict_of(alloc, list, &text),
        Err(why) if why.lacks_memory() => Err(AllocError),
        Err(why) => Ok(PolicyVerdict::ReadFailure(format!(in alloc; "{why}")?)),
    }
}

// Checks a start list against the text of a policy.
#[tactic(auto, using(list_policy::proofs::VerdictLemmas::faulty_is))]
fn verdict_of(alloc: Global, list: &StartList, text: &[u8]) -> Result<PolicyVerdict, AllocError>
    ensures { IfOk result (λ verdict. MatchOption (verdict_notes verdict) ⊥
        (IsVerdict list.now text.now)) }
{
    let policy = Policy::read(alloc, list, text)?;
    let faults = policy.faults();
    if faults.is_empty() {
        let found = findings(alloc, list, policy.lines())?;
        return Ok(PolicyVerdict::Held(found));
    }
    let notes = fault_notes(alloc, faults)?;
    Ok(PolicyVerdict::Faulty(notes))
}

// Returns what is found of a policy's lines.
fn findings(
    alloc: Global,
    list: &StartList,
    lines: &[PolicyLine],
) -> Result<PolicyFindings, AllocError>
    ensures broken { IfOk result (λ found. AreBrokenAt list.now (map line_at lines.now)
        (map note_place found.broken.items)) }
    ensures void { IfOk result (λ found.
        found.void ≡ length (filter (λ line. says_nothing list.now (line_at line)) lines.now)) }
{
    let remarks = remarks(alloc, list, lines)?;
    let broken = broken_lines(alloc, list, lines)?;
    let void = lines.iter().filter(|line| line.is_void(list)).count();
    Ok(PolicyFindings {
        broken,
        void,
        remarks,
    })
}

// Returns the remarks on a policy's lines.
fn remarks(
    alloc: Global,
    list: &StartList,
    lines: &[PolicyLine],
) -> Result<Vec<PolicyRemark>, AllocError> {
    let mut remarks = Vec::new(alloc);
    for line in lines {
        if let Some(remark) = remark_on(alloc, list, line)? {
            remarks.push(remark)?;
        }
    }
    Ok(remarks)
}

// Returns the remark on a line, if there is one: it speaks of nothing, or it is kept by the tree.
fn remark_on(
    alloc: Global,
    list: &StartList,
    line: &PolicyLine,
) -> Result<Option<PolicyRemark>, AllocError> {
    let PairCount { all, by_tree } = line.pairs(list);
    let is_void = line.is_void(list);
    let text = match &line.demand {
        Demand::AtMost(_) if is_void => {
            String::from_str(
                alloc,
                "expected less RAM or fewer capabilities than 16M and 4096, which the largest machine has",
            )?
        }
        _ if is_void => {
            String::from_str(
                alloc,
                "expected a pair of a script and a server, found none",
            )?
        }
        Demand::Deny(_) | Demand::Only(_) | Demand::Isolate if by_tree > 0 => {
            format!(in alloc;
                "kept by the tree for {by_tree} of {all} pairs of a script and a server"
            )?
        }
        _ => return Ok(None),
    };
    let (line, column) = (line.number, line.column);
    Ok(Some(PolicyRemark {
        diagnostic: PolicyDiagnostic { line, column, text },
        severity: if is_void {
            Severity::Warning
        } else {
            Severity::Note
        },
        is_partial: !is_void && by_tree < all,
    }))
}

// Returns the faults of a policy's lines.
fn fault_notes(
    alloc: Global,
    faults: &[PolicyFault<'_>],
) -> Result<Vec<PolicyDiagnostic>, AllocError>
    ensures { IfOk result (λ notes.
        map note_place notes.items ≡ map flaw_place (map fault_at faults.now)) }
{
    let mut notes = Vec::new(alloc);
    for place in 0..faults.len() {
        notes.push(fault_note(alloc, &faults[place])?)?;
    }
    Ok(notes)
}

// Returns the diagnostic of a fault.
fn fault_note(alloc: Global, fault: &PolicyFault<'_>) -> Result<PolicyDiagnostic, AllocError>
    ensures { IfOk result (λ note.
        note_place note ≡ flaw_place (fault_at fault.now)) }
{
    let flaw = &fault.flaw;
    let text = format!(in alloc; "{flaw}")?;
    Ok(PolicyDiagnostic {
        line: fault.line,
        column: fault.column,
        text,
    })
}

// Returns the diagnostics of all breaches of lines by a start list, line by line.
fn broken_lines(
    alloc: Global,
    list: &StartList,
    lines: &[PolicyLine],
) -> Result<Vec<PolicyDiagnostic>, AllocError>
    ensures { IfOk result (λ broken.
        AreBrokenAt list.now (map line_at lines.now) (map note_place broken.items)) }
{
    let mut broken = Vec::new(alloc);
    for place in 0..lines.len() {
        add_broken(alloc, &mut broken, list, &lines[place])?;
    }
    Ok(broken)
}

// Adds the diagnostics of all breaches of a line.
fn add_broken(
    alloc: Global,
    broken: &mut Vec<PolicyDiagnostic>,
    list: &StartList,
    line: &PolicyLine,
) -> Result<(), AllocError>
    ensures { OnOk result ((found : List Breach) × AreBreaches list.now (line_at line.now) found
        × (map note_place broken.new.items
        ≡ map note_place broken.old.items ++ map (breach_place (line_at line.now)) found)) }
{
    let breaches = line.breaches(alloc, list)?;
    add_notes(alloc, broken, list, line, breaches.as_slice())
}

// Adds the diagnostics of these breaches of a line.
fn add_notes(
    alloc: Global,
    broken: &mut Vec<PolicyDiagnostic>,
    list: &StartList,
    line: &PolicyLine,
    breaches: &[Breach],
) -> Result<(), AllocError>
    ensures { OnOk result (map note_place broken.new.items
        ≡ map note_place broken.old.items ++ map (breach_place (line_at line.now)) breaches.now) }
{
    for place in 0..breaches.len() {
        broken.push(broken_by(alloc, list, line, &breaches[place])?)?;
    }
    Ok(())
}

// Returns the diagnostic of a breach of a line.
fn broken_by(
    alloc: Global,
    list: &StartList,
    line: &PolicyLine,
    breach: &Breach,
) -> Result<PolicyDiagnostic, AllocError>
    ensures { IfOk result (λ note.
        note_place note ≡ breach_place (line_at line.now) breach.now) }
{
    let message = BreachText::of(alloc, list, line, breach)?;
    let text = format!(in alloc; "{message}")?;
    Ok(PolicyDiagnostic {
        line: line.number,
        column: line.column,
        text,
    })
}
