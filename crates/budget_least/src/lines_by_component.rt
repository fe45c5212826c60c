//! The lines of a scenario, component by component.
ghost use Rattle.std.specs.Prelude.{◌≡◌, ◌<◌, ◌==◌, [], is_some, length, map, replicate, IfOk, OnOk, List};
ghost use Rattle.std.specs.List.{position, AllByRecursion};
ghost use Rattle.std.specs.Option.{option_copied};
ghost use Rattle.core_calls.specs.Call.{model_call};
ghost use Rattle.budget_search.specs.declared.account_budgets.AccountBudgets.{AccountBudgets};
ghost use Rattle.budget_least.specs.ComponentLines.{expects_refusal, expects_shortage, is_routed, line_of, lines_of, shows, AreAllWritten, AreWritten, IsAsWritten};
ghost use Rattle.budget_least.specs.LineDonations.{HoldsFor, IsDonated};

use crate::binding_run::{BindingBudgets, BindingRun};
use crate::changed_line::ChangedLine;
use crate::line_donations::LineDonations;
use crate::unmeasured_line::{UnmeasuredLine, UnmeasuredReason};
use crate::written_donation::can_donate;
use crate::written_scenario::lines_of;
use budget_search::{ComponentLine, LineNumbers, SHORTAGES, Shortage, route};
use core_calls::Call;
use line_friendly::{meets, next_word, trimmed_line};
use line_names::token_at;
use line_steps::{LineBuffers, ResolvedLine, RunPosition, ScenarioCall, UnreadReason, resolve};
use list_parser::{BootFault, StartList};
use session_proto::SessionArgs;
use std::alloc::{AllocError, Global};
use text_codec::find_byte;

/// The lines of each component, and the lines that aren't measured.
#[derive(Drop)]
pub(crate) struct LinesByComponent {
    pub(crate) steps: Vec<Vec<ComponentLine>>,
    pub(crate) unmeasured: Vec<UnmeasuredLine>,
    /// The numbers of lines that aren't measured.
    numbers: LineNumbers,
}

impl LinesByComponent {
    ghost use Rattle.std.specs.Prelude.{◌≡◌, ◌≢◌, ◌++◌, ◌∷◌, [], ◌<◌, ◌==◌, false, length, map, replicate, None, IfErr, IfOk, OnOk, List};
    ghost use Rattle.list_parser.specs.declared.fault.BootFault.TheVariants.{NoMemory};
    ghost use Rattle.budget_search.specs.NoBudgets.{IsSearchFault};
    ghost use Rattle.std.specs.List.{slice_get, slice_split};
    ghost use Rattle.std.specs.Option.{option_copied, unwrap_or};
    ghost use Rattle.core_calls.specs.Call.{model_call, IsWellFormed};
    ghost use Rattle.line_grammar.specs.Read.{IsReadAs};
    ghost use Rattle.line_names.specs.Views.{filled_view};
    ghost use Rattle.line_steps.specs.ResolvedLines.{is_unread};
    ghost use Rattle.line_steps.specs.ResolvedViews.{resolved_view, HasParsedCall};
    ghost use Rattle.budget_search.specs.declared.account_budgets.AccountBudgets.{AccountBudgets};
    ghost use Rattle.budget_least.specs.ComponentAccounts.{steps_at};
    ghost use Rattle.budget_least.specs.LineDonations.{AreAllDonated, HoldsFor};
    ghost use Rattle.budget_least.specs.ComponentLines.{line_of, lines_in, numbers_in, reading, said_in, with_line, AreAllWritten, IsAsWritten, AreRead, HasRead, IsAdded, IsAddedTo, IsRead, IsTaken};

    /// Reads the unfolded text of a scenario, by the components of a list, and fills its lines with what a run with these budgets
    /// binds. The error is that of a boot, or that the host is out of memory.
    pub(crate) fn read(
        alloc: Global,
        list: &StartList,
        text: &[u8],
        start: RunPosition<'_>,
        budgets: BindingBudgets<'_>,
    ) -> Result<LinesByComponent, BootFault>
        ensures read { IfOk result (HasRead list.now text.now start.entry budgets.entry) }
        ensures written { IfOk result (λ lines. AreAllWritten lines.steps.items) }
        ensures fault { IfErr result (IsSearchFault list.now) }
    {
        let mut run = BindingRun::new(alloc, list, start, budgets, has_names(text))?;
        let mut lines = LinesByComponent::empty(alloc, list.count())?;
        lines.add_all(alloc, &mut run, text)?;
        Ok(lines)
    }

    /// Adds lines to those that aren't measured, since they change with the budgets. The error is that the host is out of memory.
    pub(crate) fn leave_changed(
        &mut self,
        alloc: Global,
        changed: &[ChangedLine],
    ) -> Result<(), AllocError>
        ensures steps { self.new.steps ≡ self.old.steps }
        ensures unmeasured { OnOk result (numbers_in self.new
            ≡ numbers_in self.old ++ map (λ line. line.number) changed.now) }
    {
        for line in changed {
            self.leave_one(alloc, *line)?;
        }
        Ok(())
    }

    // Adds a line to those that aren't measured, since it changes with the budgets.
    fn leave_one(&mut self, alloc: Global, line: ChangedLine) -> Result<(), AllocError>
        ensures steps { self.new.steps ≡ self.old.steps }
        ensures unmeasured { OnOk result
            (numbers_in self.new ≡ numbers_in self.old ++ line.number ∷ []) }
    {
        self.unmeasured.push(UnmeasuredLine {
            number: line.number,
            component: Some(line.component),
            why: UnmeasuredReason::Unsettled,
            token: String::new(alloc),
            is_again: self.numbers.add(line.number)?,
        })?;
        Ok(())
    }

    /// Sets the donations of lines that open sessions. The error is that the host is out of memory.
    pub(crate) fn donate(
        &mut self,
        alloc: Global,
        donations: &LineDonations,
    ) -> Result<(), AllocError>
        ensures unmeasured { self.new.unmeasured ≡ self.old.unmeasured }
        ensures lines { OnOk result (lines_in self.new ≡ lines_in self.old) }
        ensures donated { OnOk result ((sessions : List AccountBudgets) →
            HoldsFor donations.now sessions → AreAllWritten self.old.steps.items →
            AreAllDonated donations.now.choice sessions self.new.steps.items) }
    {
        for component in 0..self.steps.len() {
            let steps = &mut self.steps[component];
            donate_all(alloc, steps, donations)?;
        }
        Ok(())
    }

    /// Returns the lines of a component.
    pub(crate) fn of(&self, component: usize) -> &[ComponentLine]
        ensures steps { result.now ≡ steps_at self.now.steps.items component }
        ensures count { length result.now
            ≡ length (unwrap_or (slice_get (lines_in self.now) component) []) }
    {
        match self.steps.get(component) {
            Some(steps) => steps.as_slice(),
            None => &[],
        }
    }

    // Returns no lines for this number of components.
    fn empty(alloc: Global, components: usize) -> Result<LinesByComponent, AllocError>
        ensures lines { IfOk result (λ lines. lines_in lines ≡ replicate components []) }
        ensures written { IfOk result (λ lines. AreAllWritten lines.steps.items) }
        ensures unmeasured { IfOk result (λ lines. numbers_in lines ≡ []) }
    {
        Ok(LinesByComponent {
            steps: no_lines(alloc, components)?,
            unmeasured: Vec::new(alloc),
            numbers: LineNumbers::new(alloc),
        })
    }

    // Adds the lines of a text.
    fn add_all(
        &mut self,
        alloc: Global,
        run: &mut BindingRun<'_, '_, '_>,
        text: &[u8],
    ) -> Result<(), BootFault>
        ensures read { OnOk result (AreRead (slice_split (λ b. b == 10) text.now)
            (reading run.old self.old) (reading run.new self.new)) }
        ensures written { OnOk result
            (AreAllWritten self.old.steps.items → AreAllWritten self.new.steps.items) }
        ensures fault { IfErr result (IsSearchFault run.old.list) }
    {
        let lines = lines_of(alloc, text)?;
        self.add_lines(alloc, run, lines.as_slice())
    }

    // Adds lines.
    fn add_lines(
        &mut self,
        alloc: Global,
        run: &mut BindingRun<'_, '_, '_>,
        lines: &[&[u8]],
    ) -> Result<(), BootFault>
        ensures read { OnOk result (AreRead (map (λ line. line.now) lines.now)
            (reading run.old self.old) (reading run.new self.new)) }
        ensures written { OnOk result
            (AreAllWritten self.old.steps.items → AreAllWritten self.new.steps.items) }
        ensures fault { IfErr result (IsSearchFault run.old.list) }
    {
        let mut buffers = LineBuffers::new();
        for line in lines {
            self.add_line(alloc, run, line, &mut buffers)?;
        }
        Ok(())
    }

    // Adds a line at the position of the run.
    fn add_line(
        &mut self,
        alloc: Global,
        run: &mut BindingRun<'_, '_, '_>,
        line: &[u8],
        buffers: &mut LineBuffers,
    ) -> Result<(), BootFault>
        ensures read { OnOk result (IsRead line.now (reading run.old self.old) (reading run.new self.new)) }
        ensures written { OnOk result
            (AreAllWritten self.old.steps.items → AreAllWritten self.new.steps.items) }
        ensures list { OnOk result (run.new.list ≡ run.old.list) }
        ensures fault { IfErr result (IsSearchFault run.old.list) }
    {
        let number = run.pass();
        let resolved = resolve(None, run.known(), line, buffers);
        self.take(alloc, run, line, number, resolved)?;
        run.arrive()?;
        Ok(())
    }

    // Takes a line with the values of its names, which is measured exactly if it can be parsed.
    fn take(
        &mut self,
        alloc: Global,
        run: &mut BindingRun<'_, '_, '_>,
        line: &[u8],
        number: u64,
        resolved: ResolvedLine<'_>,
    ) -> Result<(), BootFault>
        requires { HasParsedCall resolved }
        ensures taken { OnOk result (IsTaken number (resolved_view resolved.entry)
            (reading run.old self.old) (reading run.new self.new)) }
        ensures written { OnOk result
            (AreAllWritten self.old.steps.items → AreAllWritten self.new.steps.items) }
        ensures fault { IfErr result (IsSearchFault run.old.list) }
    {
        match resolved.unread() {
            Some(why) => self.leave(alloc, run.list(), line, number, why),
            None => self.add(alloc, run, line, number, resolved),
        }
    }

    // Adds a line that can't be parsed to those that aren't measured.
    fn leave(
        &mut self,
        alloc: Global,
        list: &StartList,
        line: &[u8],
        number: u64,
        why: UnreadReason,
    ) -> Result<(), BootFault>
        ensures unmeasured { OnOk result (numbers_in self.new ≡ numbers_in self.old ++ number ∷ []) }
        ensures lines { self.new.steps ≡ self.old.steps }
        ensures fault { IfErr result (λ fault. fault ≡ NoMemory) }
    {
        let (name, _) = next_word(trimmed_line(line));
        let token = token_at(line, why.column());
        self.unmeasured.push(UnmeasuredLine {
            number,
            component: list.find(name),
            why: UnmeasuredReason::Unread(why),
            token: String::from_utf8_lossy(alloc, token)?,
            is_again: self.numbers.add(number)?,
        })?;
        Ok(())
    }

    // Adds a line with the values of its names.
    fn add(
        &mut self,
        alloc: Global,
        run: &mut BindingRun<'_, '_, '_>,
        line: &[u8],
        number: u64,
        resolved: ResolvedLine<'_>,
    ) -> Result<(), BootFault>
        requires parsed { HasParsedCall resolved }
        requires read { is_unread (resolved_view resolved) ≡ false }
        ensures taken { OnOk result (IsTaken number (resolved_view resolved.entry)
            (reading run.old self.old) (reading run.new self.new)) }
        ensures written { OnOk result
            (AreAllWritten self.old.steps.items → AreAllWritten self.new.steps.items) }
        ensures fault { IfErr result (IsSearchFault run.old.list) }
    {
        match resolved {
            ResolvedLine::Directive(directive) => {
                run.follow(directive)?;
                Ok(())
            }
            ResolvedLine::Call(call) => self.add_call(alloc, run, line, number, &call),
            ResolvedLine::Skipped => Ok(()),
            ResolvedLine::Nothing => Ok(()),
            ResolvedLine::Log(_) => Ok(()),
            ResolvedLine::TooLong => Ok(()),
            ResolvedLine::BadName(_) => Ok(()),
            ResolvedLine::Misplaced(_, _) => Ok(()),
            ResolvedLine::BadLine(_) => Ok(()),
        }
    }

    // Adds a call to the component whose name it has.
    fn add_call(
        &mut self,
        alloc: Global,
        run: &mut BindingRun<'_, '_, '_>,
        line: &[u8],
        number: u64,
        call: &ScenarioCall<'_>,
    ) -> Result<(), BootFault>
        requires { IsReadAs call.now.line.now call.now.call }
        ensures added { OnOk result (IsAdded number (filled_view call.now.filled) call.now.line.now
            (option_copied call.now.reply) (said_in call.now.line.now)
            (reading run.old self.old) (reading run.new self.new)) }
        ensures written { OnOk result
            (AreAllWritten self.old.steps.items → AreAllWritten self.new.steps.items) }
        ensures fault { IfErr result (IsSearchFault run.old.list) }
    {
        let Some(said) = call.call else {
            return Ok(());
        };
        let Some(component) = run.list().find(said.name) else {
            return Ok(());
        };
        self.add_to(alloc, run, line, number, call, said.call, component)
    }

    // Adds a call to its component. A call whose refusal is expected isn't made.
    fn add_to(
        &mut self,
        alloc: Global,
        run: &mut BindingRun<'_, '_, '_>,
        line: &[u8],
        number: u64,
        call: &ScenarioCall<'_>,
        said: Call<'_>,
        component: usize,
    ) -> Result<(), BootFault>
        requires there { component < length run.old.list.entries }
        requires formed { IsWellFormed said }
        ensures added { OnOk result (IsAddedTo number (filled_view call.now.filled) call.now.line.now
            (option_copied call.now.reply) (model_call said.entry) component
            (reading run.old self.old) (reading run.new self.new)) }
        ensures written { OnOk result
            (AreAllWritten self.old.steps.items → AreAllWritten self.new.steps.items) }
        ensures fault { IfErr result (IsSearchFault run.old.list) }
    {
        let is_left_out = expects_refusal(call.reply);
        let may_be_short = may_be_short(call.reply) && is_routed(run.list(), component, said);
        if !is_left_out {
            let place = self.of(component).len();
            run.answer(alloc, component, place, said, &call.filled)?;
        }
        let mut kept = Vec::new(alloc);
        kept.extend_from_slice(call.line)?;
        let step = ComponentLine {
            number,
            is_left_out,
            may_be_short,
            line: kept,
            can_donate: can_donate(line),
            donation: None,
            args: None,
        };
        self.push(component, step)?;
        Ok(())
    }

    // Adds a line to those of a component, if it is there.
    fn push(&mut self, component: usize, line: ComponentLine) -> Result<(), AllocError>
        ensures unmeasured { self.new.unmeasured ≡ self.old.unmeasured }
        ensures lines { OnOk result (lines_in self.new
            ≡ with_line component (line_of line) (lines_in self.old)) }
        ensures written { OnOk result (IsAsWritten line →
            AreAllWritten self.old.steps.items → AreAllWritten self.new.steps.items) }
    {
        if component >= self.steps.len() {
            return Ok(());
        }
        let steps = &mut self.steps[component];
        steps.push(line)?;
        Ok(())
    }
}

// Returns no lines for each of so many components.
fn no_lines(alloc: Global, components: usize) -> Result<Vec<Vec<ComponentLine>>, AllocError>
    ensures lines { IfOk result (λ steps. map (λ lines. lines_of lines.items) steps.items
        ≡ replicate components []) }
    ensures written { IfOk result (λ steps. AreAllWritten steps.items) }
{
    let mut steps = Vec::new(alloc);
    for count in 0..components {
        steps.push(Vec::new(alloc))?;
    }
    Ok(steps)
}

// Sets the donations of a component's lines.
fn donate_all(
    alloc: Global,
    steps: &mut Vec<ComponentLine>,
    donations: &LineDonations,
) -> Result<(), AllocError>
    ensures lines { OnOk result (lines_of steps.new.items ≡ lines_of steps.old.items) }
    ensures donated { OnOk result ((sessions : List AccountBudgets) →
        HoldsFor donations.now sessions → AreWritten steps.old.items →
        AllByRecursion (IsDonated donations.now.choice sessions) steps.new.items) }
{
    for place in 0..steps.len() {
        donate(alloc, &mut steps[place], donations)?;
    }
    Ok(())
}

// Sets the donation of a line, if it has one.
fn donate(
    alloc: Global,
    step: &mut ComponentLine,
    donations: &LineDonations,
) -> Result<(), AllocError>
    ensures line { OnOk result (line_of step.new ≡ line_of step.old) }
    ensures donated { OnOk result ((sessions : List AccountBudgets) →
        HoldsFor donations.now sessions → IsAsWritten step.old →
        IsDonated donations.now.choice sessions step.new) }
{
    let donation = donations.of(step.number);
    let Some(donation) = donation else {
        return Ok(());
    };
    step.donate(alloc, donation)?;
    Ok(())
}

/// Returns whether names may be in a text.
pub(crate) fn has_names(text: &[u8]) -> bool
    ensures { result ≡ is_some (position (λ b. b == 36) text.now) }
{
    find_byte(b'$', text).is_some()
}

/// Returns whether the refusal of a line is expected.
pub(crate) fn expects_refusal(reply: Option<&[u8]>) -> bool
    ensures { result ≡ expects_refusal (option_copied reply.entry) }
{
    match reply {
        Some(expected) => expected == b"refused".as_slice() || meets(expected, b"refused"),
        None => false,
    }
}

/// Returns whether the refusal that a line expects may be a shortage of quota.
pub(crate) fn may_be_short(reply: Option<&[u8]>) -> bool
    ensures { result ≡ expects_shortage (option_copied reply.entry) }
{
    let Some(expected) = reply else {
        return false;
    };
    SHORTAGES.iter().any(|shortage| shows(*shortage, expected))
}

// Returns whether the reply to a shortage is as expected.
fn shows(shortage: Shortage, expected: &[u8]) -> bool
    ensures { result ≡ shows expected.now shortage }
{
    meets(shortage.reply().as_bytes(), expected)
}

/// Returns whether a call isn't denied by the routes of a list.
pub(crate) fn is_routed(list: &StartList, component: usize, call: Call<'_>) -> bool
    requires { component < length list.now.entries }
    ensures { result ≡ is_routed list.now component (model_call call.entry) }
{
    match call {
        Call::Open { service, args } => {
            route(list, component, service, SessionArgs::label_given(args)).is_some()
        }
        _ => true,
    }
}
