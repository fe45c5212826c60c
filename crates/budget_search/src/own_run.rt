//! A run of a component's own calls from a budget.
ghost use Rattle.std.specs.Prelude.{◌≡◌, ◌≢◌, ◌<◌, ◌∷◌, [], ℕ, List, false, true, is_some, length, IfErr, IfOk, IfSome, OnOk, Some, None};
ghost use Rattle.list_parser.specs.Quota.{quota_fault};
ghost use Rattle.list_parser.specs.declared.fault.BootFault.TheVariants.{NoMemory};
ghost use Rattle.own_model.specs.Amounts.{Amounts};
ghost use Rattle.own_model.specs.Call.{Call as Said, is_exit};
ghost use Rattle.own_model.specs.Listed.{start_list_of};
ghost use Rattle.own_model.specs.OwnState.{OwnState};
ghost use Rattle.own_model.specs.StartList.{entries_of};
ghost use Rattle.own_model.specs.Transcript.{entry_at};
ghost use Rattle.core_calls.specs.Call.{model_call, IsWellFormed};
ghost use Rattle.budget_theorems.specs.Need.{budgeted};
ghost use Rattle.budget_meter.specs.Needs.{amounts_of};
ghost use Rattle.budget_meter.specs.Run.{Shows};
ghost use Rattle.budget_search.specs.Steps.{calls_of, calls_with, call_of, mark_of};
ghost use Rattle.budget_search.specs.Run.{Begins, HasLeft, HasLinesLeft};
ghost use Rattle.budget_search.specs.OwnLines.{lines_by, lines_with, own_lines, shown_short};
ghost use Rattle.budget_search.specs.RunLines.{RunLines, lines_in};

use crate::component_line::ComponentLine;
use crate::trial::{BudgetTrial, RefusedLine, Shortage};
use budget_meter::{AccountMeter, Budget, call_amounts};
use core_calls::{Answer, Call, Outcome, Reply};
use init_core::{Core, Router, boot};
use list_parser::{BootFault, StartList};
use std::alloc::Global;
use trade_base::Refusal;

impl BudgetTrial {
    /// Runs a script's lines on the machine of a list that gives the script this budget. The error is that of the boot, or that
    /// the host is out of memory.
    pub(crate) fn of_account(
        alloc: Global,
        list: &StartList,
        component: usize,
        steps: &[ComponentLine],
        start: Budget,
    ) -> Result<BudgetTrial, BootFault>
        requires { component < length list.now.entries }
        ensures shows { IfOk result (λ trial. (s : OwnState) →
            Begins (start_list_of list.now) component (amounts_of start) s →
            Shows (entry_at (entries_of (start_list_of list.now)) component) (calls_of steps.now) s
            (amounts_of start) (is_some trial.refused) trial.meter) }
        ensures lines { IfOk result (λ trial. (s : OwnState) →
            Begins (start_list_of list.now) component (amounts_of start) s → lines_in trial
            ≡ own_lines (entry_at (entries_of (start_list_of list.now)) component) (amounts_of start)
            steps.now (budgeted (amounts_of start) s)) }
        ensures fault { IfErr result
            (λ fault. fault ≢ NoMemory → quota_fault list.now ≡ Some fault) }
    {
        let mut core = boot(alloc, list)?;
        let heard = AccountMeter::new(core.account(component), true);
        OwnRun::trial(alloc, &mut core, component, heard, steps, start)
    }
}

// A component of a core whose calls are observed.
#[derive(Drop)]
struct OwnRun<'a, R: Router + Drop> {
    core: &'a mut Core<R>,
    component: usize,
    reply: Reply,
    heard: AccountMeter,
    trial: BudgetTrial,
}

impl<'a, R: Router + Drop> OwnRun<'a, R> {
    // Runs lines none of which was run yet.
    fn trial(
        alloc: Global,
        core: &'a mut Core<R>,
        component: usize,
        heard: AccountMeter,
        steps: &[ComponentLine],
        start: Budget,
    ) -> Result<BudgetTrial, BootFault>
        requires { component < length core.old.entries }
        ensures shows { IfOk result (λ trial. (calls : List Said) (budget : Amounts)
            (s : OwnState) → HasLeft core.old component heard calls (calls_of steps.now) budget s →
            Shows (entry_at core.old.entries component) calls s budget
            (is_some trial.refused) trial.meter) }
        ensures lines { IfOk result (λ trial. (whole : RunLines) →
            HasLinesLeft core.old component heard []
            (own_lines (entry_at core.old.entries component) (amounts_of start) steps.now) whole →
            lines_in trial ≡ whole) }
        ensures fault { IfErr result (λ fault. fault ≡ NoMemory) }
    {
        let mut run = OwnRun {
            core,
            component,
            reply: Reply::boot(alloc)?,
            heard,
            trial: BudgetTrial::new(alloc, start),
        };
        run.go_through(steps)?;
        let mut trial = run.trial;
        trial.meter = run.heard.meter;
        Ok(trial)
    }

    // Makes the calls of lines, up to the first that is short of quota or an exit.
    fn go_through(&mut self, steps: &[ComponentLine]) -> Result<(), BootFault>
        requires there { self.old.component < length self.old.core.now.entries }
        requires none { self.old.trial.refused ≡ None }
        ensures shows { OnOk result ((calls : List Said) (budget : Amounts) (s : OwnState) →
            HasLeft self.old.core.now self.old.component self.old.heard calls (calls_of steps.now)
            budget s →
            Shows (entry_at self.old.core.now.entries self.old.component) calls s budget
            (is_some self.new.trial.refused) self.new.heard.meter) }
        ensures lines { OnOk result ((whole : RunLines) →
            HasLinesLeft self.old.core.now self.old.component self.old.heard
            self.old.trial.left_out.items
            (own_lines (entry_at self.old.core.now.entries self.old.component)
            (amounts_of self.old.trial.meter.start) steps.now) whole →
            lines_in self.new.trial ≡ whole) }
        ensures fault { IfErr result (λ fault. fault ≡ NoMemory) }
    {
        for step in steps {
            if !self.goes_on(step)? {
                return Ok(());
            }
        }
        Ok(())
    }

    // Makes the call of a line, and returns whether the run continues.
    fn goes_on(&mut self, step: &ComponentLine) -> Result<bool, BootFault>
        requires there { self.old.component < length self.old.core.now.entries }
        requires none { self.old.trial.refused ≡ None }
        ensures same { self.new.component ≡ self.old.component }
        ensures entries { self.new.core.now.entries ≡ self.old.core.now.entries }
        ensures meter { self.new.trial.meter ≡ self.old.trial.meter }
        ensures on { IfOk result (λ goes_on. goes_on ≡ true → self.new.trial.refused ≡ None) }
        ensures left { IfOk result (λ goes_on. goes_on ≡ true →
            (calls rest : List Said) (budget : Amounts) (s : OwnState) →
            HasLeft self.old.core.now self.old.component self.old.heard calls
            (calls_with step.now.is_left_out (call_of step.now) rest) budget s →
            HasLeft self.new.core.now self.new.component self.new.heard calls rest budget s) }
        ensures ends { IfOk result (λ goes_on. goes_on ≡ false →
            (calls rest : List Said) (budget : Amounts) (s : OwnState) →
            HasLeft self.old.core.now self.old.component self.old.heard calls
            (calls_with step.now.is_left_out (call_of step.now) rest) budget s →
            Shows (entry_at self.old.core.now.entries self.old.component) calls s budget
            (is_some self.new.trial.refused) self.new.heard.meter) }
        ensures later { IfOk result (λ goes_on. goes_on ≡ true →
            (rest : OwnState → RunLines) (whole : RunLines) →
            HasLinesLeft self.old.core.now self.old.component self.old.heard
            self.old.trial.left_out.items
            (lines_with (entry_at self.old.core.now.entries self.old.component)
            (amounts_of self.old.trial.meter.start) (mark_of step.now) (call_of step.now) rest)
            whole →
            HasLinesLeft self.new.core.now self.new.component self.new.heard
            self.new.trial.left_out.items rest whole) }
        ensures lines { IfOk result (λ goes_on. goes_on ≡ false →
            (rest : OwnState → RunLines) (whole : RunLines) →
            HasLinesLeft self.old.core.now self.old.component self.old.heard
            self.old.trial.left_out.items
            (lines_with (entry_at self.old.core.now.entries self.old.component)
            (amounts_of self.old.trial.meter.start) (mark_of step.now) (call_of step.now) rest)
            whole →
            lines_in self.new.trial ≡ whole) }
        ensures fault { IfErr result (λ fault. fault ≡ NoMemory) }
    {
        let Some(call) = step.call() else {
            return Ok(true);
        };
        if step.is_left_out {
            let account = self.core.account(self.component);
            self.trial
                .leave_out(step.number, account, step.asked(call_amounts(call)))?;
            return Ok(true);
        }
        if is_exit(call) {
            return Ok(false);
        }
        let goes_on = self.make(step.number, call)?;
        Ok(goes_on)
    }

    // Makes a call, and returns whether the run continues.
    fn make(&mut self, line: u64, call: Call<'_>) -> Result<bool, BootFault>
        requires there { self.old.component < length self.old.core.now.entries }
        requires call { IsWellFormed call }
        requires none { self.old.trial.refused ≡ None }
        ensures same { self.new.component ≡ self.old.component }
        ensures entries { self.new.core.now.entries ≡ self.old.core.now.entries }
        ensures meter { self.new.trial.meter ≡ self.old.trial.meter }
        ensures on { IfOk result (λ goes_on. goes_on ≡ true → self.new.trial.refused ≡ None) }
        ensures left { IfOk result (λ goes_on. goes_on ≡ true →
            (calls rest : List Said) (budget : Amounts) (s : OwnState) →
            HasLeft self.old.core.now self.old.component self.old.heard calls
            (model_call call.entry ∷ rest) budget s →
            HasLeft self.new.core.now self.new.component self.new.heard calls rest budget s) }
        ensures ends { IfOk result (λ goes_on. goes_on ≡ false →
            (calls rest : List Said) (budget : Amounts) (s : OwnState) →
            HasLeft self.old.core.now self.old.component self.old.heard calls
            (model_call call.entry ∷ rest) budget s →
            Shows (entry_at self.old.core.now.entries self.old.component) calls s budget
            (is_some self.new.trial.refused) self.new.heard.meter) }
        ensures later { IfOk result (λ goes_on. goes_on ≡ true →
            (rest : OwnState → RunLines) (whole : RunLines) →
            HasLinesLeft self.old.core.now self.old.component self.old.heard
            self.old.trial.left_out.items
            (lines_by (entry_at self.old.core.now.entries self.old.component)
            line (model_call call.entry) rest) whole →
            HasLinesLeft self.new.core.now self.new.component self.new.heard
            self.new.trial.left_out.items rest whole) }
        ensures lines { IfOk result (λ goes_on. goes_on ≡ false →
            (rest : OwnState → RunLines) (whole : RunLines) →
            HasLinesLeft self.old.core.now self.old.component self.old.heard
            self.old.trial.left_out.items
            (lines_by (entry_at self.old.core.now.entries self.old.component)
            line (model_call call.entry) rest) whole →
            lines_in self.new.trial ≡ whole) }
        ensures fault { IfErr result (λ fault. fault ≡ NoMemory) }
    {
        self.core.step(self.component, call, &mut self.reply);
        let after = self.core.account(self.component);
        if self.heard.follow(call, self.reply.answer(), after) {
            self.trial.refused = Some(refused_at(line, self.reply.answer()));
            return Ok(false);
        }
        self.trial.keep_reply(self.reply.answer())?;
        Ok(true)
    }
}

/// Returns whether a call is the exit of its component.
pub(crate) fn is_exit(call: Call<'_>) -> bool
    ensures { result ≡ is_exit (model_call call.entry) }
{
    matches!(call, Call::Exit)
}

// Returns the refusal of a line that is short of quota, by the reply to its call.
fn refused_at(line: u64, answer: Answer<'_>) -> RefusedLine
    ensures line { result.line ≡ line }
    ensures shortage { result.shortage ≡ shown_short answer.entry.text.now }
{
    let shortage = match answer.outcome {
        Outcome::Refused(Refusal::OutOfRam) => Shortage::Ram,
        _ => Shortage::Caps,
    };
    RefusedLine { line, shortage }
}
