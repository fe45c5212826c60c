//! The run of a scenario that binds its names.

ghost use Rattle.std.specs.Prelude.{◌≡◌, replicate, IfOk, None};
ghost use Rattle.std.specs.Option.{option_copied, option_map};
ghost use Rattle.core_calls.specs.Call.{model_call, IsWellFormed};
ghost use Rattle.budget_meter.specs.Needs.{amounts_of};
ghost use Rattle.budget_search.specs.AmpleCalls.{after_step};
ghost use Rattle.budget_search.specs.Steps.{with_args};
ghost use Rattle.budget_least.specs.BoundRuns.{args_at, is_own, own_budget};

use budget_meter::Budget;
use budget_search::{
    AccountBudgets, AmpleClient, BudgetChoice, ComponentLine, RouteTable, boot, funded, most_of,
};
use core_calls::{Call, Reply};
use line_names::{Directive, FilledLine, NameTable};
use line_steps::RunPosition;
use list_parser::{BootFault, StartList};
use std::alloc::{AllocError, Global};
use std::marker::Model;

/// The budgets of a run that binds names.
#[derive(Clone, Copy)]
pub(crate) enum BindingBudgets<'b> {
    /// Each account has the whole machine, and each session what it needs.
    Ample,
    /// Each account has the whole machine, and each session what the scenario donates.
    AsDonated,
    /// Each account has the budget that is written, and each session what the lines donate that were measured.
    Chosen {
        /// Whether this is the minimum or the safe budget.
        choice: BudgetChoice,
        /// The accounts.
        accounts: &'b [AccountBudgets],
        /// The lines of each component that were measured.
        steps: &'b [Vec<ComponentLine>],
    },
}

impl BindingBudgets<'_> {
    ghost use Rattle.std.specs.Prelude.{◌≡◌, ◌<◌, ◌^◌, length, true, None, IfOk, OnOk};
    ghost use Rattle.std.specs.Option.{option_map};
    ghost use Rattle.list_parser.specs.Quota.{quota_fault};
    ghost use Rattle.budget_search.specs.NoBudgets.{has_room};
    ghost use Rattle.budget_meter.specs.Needs.{amounts_of};
    ghost use Rattle.budget_search.specs.Alike.{IsFunded};
    ghost use Rattle.core_calls.specs.Call.{model_call, IsWellFormed};
    ghost use Rattle.budget_least.specs.BoundRuns.{budget_in, made_in, written_budget};

    // Returns the list of the machine on which a component makes its calls.
    fn machine(
        self,
        alloc: Global,
        list: &StartList,
        component: usize,
    ) -> Result<StartList, AllocError>
        requires { component < length list.now.entries }
        ensures funded { IfOk result (λ machine.
            IsFunded machine list.now component (budget_in list.now self.entry component)) }
        ensures boots { IfOk result (λ machine.
            has_room list.now component (budget_in list.now self.entry component) ≡ true →
            quota_fault machine ≡ None) }
    {
        let budget = self.budget_on(list, component);
        funded(alloc, list, component, budget)
    }

    // Returns the budget with which a component makes its calls: the one that is written, unless it is more than the most.
    fn budget_on(self, list: &StartList, component: usize) -> Budget
        requires { component < length list.now.entries }
        ensures budget { amounts_of result ≡ budget_in list.now self.entry component }
        ensures few { result.caps < 2 ^ 32 }
    {
        let most = most_of(list, component);
        let Some(budget) = self.budget(component) else {
            return most;
        };
        if budget.caps > most.caps {
            return most;
        }
        if budget.ram > most.ram {
            return most;
        }
        budget
    }

    // Returns the budget of a component's own account that is written, if the run has it.
    fn budget(self, component: usize) -> Option<Budget>
        ensures { option_map amounts_of result ≡ written_budget self.entry component }
    {
        match self {
            BindingBudgets::Ample => None,
            BindingBudgets::AsDonated => None,
            BindingBudgets::Chosen {
                choice,
                accounts,
                ..
            } => own_budget(choice, accounts, component),
        }
    }

    /// Makes the call of the line at a place among a component's.
    pub(crate) fn make(
        self,
        alloc: Global,
        client: &mut AmpleClient<RouteTable>,
        component: usize,
        place: usize,
        call: Call<'_>,
    ) -> Result<(), AllocError>
        requires { IsWellFormed call }
        ensures { OnOk result (client.new
            ≡ made_in self.entry component place (model_call call.entry) client.old) }
    {
        match self {
            BindingBudgets::Ample => client.make(alloc, call),
            BindingBudgets::AsDonated => {
                client.step(call);
                Ok(())
            }
            BindingBudgets::Chosen { steps, .. } => {
                make_with(client, args_at(steps, component, place), call);
                Ok(())
            }
        }
    }
}

// Makes a call, with these arguments if it opens a session and there are some.
fn make_with(client: &mut AmpleClient<RouteTable>, args: Option<&[u8]>, call: Call<'_>)
    requires { IsWellFormed call }
    ensures { client.new
        ≡ after_step (with_args (option_copied args.entry) (model_call call.entry)) client.old }
{
    match args {
        Some(args) => client.open_with(call, args),
        None => client.step(call),
    }
}

// Returns the arguments with which the line at a place among a component's opens its session, if they were set.
fn args_at(steps: &[Vec<ComponentLine>], component: usize, place: usize) -> Option<&[u8]>
    ensures { option_copied result ≡ args_at steps.now component place }
{
    let lines = steps.get(component)?;
    let step = lines.get(place)?;
    step.args()
}

// Returns the budget of a component's own account that is written.
fn own_budget(choice: BudgetChoice, accounts: &[AccountBudgets], component: usize) -> Option<Budget>
    ensures { option_map amounts_of result ≡ own_budget choice accounts.now component }
{
    for account in accounts {
        if is_own(account, component) {
            return account.chosen(choice);
        }
    }
    None
}

// Returns whether an account is a component's own.
fn is_own(account: &AccountBudgets, component: usize) -> bool
    ensures { result ≡ is_own component account.now }
{
    account.session().is_none() && account.component() == component
}

/// A run in which each component makes its calls on a machine of its own, and the position of the run in
/// its scenario. A component's replies depend on its own calls and account alone.
#[derive(Drop)]
pub(crate) struct BindingRun<'a, 'b, 'm> {
    list: &'a StartList,
    budgets: BindingBudgets<'b>,
    /// Whether replies may bind names; if not, no line has to be answered.
    binds: bool,
    position: RunPosition<'m>,
    /// The components on their machines, by their numbers. A component has none before its first call.
    clients: Vec<Option<AmpleClient<RouteTable>>>,
}

impl<'a, 'b, 'm> Model for BindingRun<'a, 'b, 'm> {
    ghost use Rattle.std.specs.Prelude.{◌≡◌, length};
    ghost use Rattle.std.specs.Coded.{codes};
    ghost use Rattle.budget_search.specs.AmpleCalls.{coded_world};
    ghost use Rattle.budget_least.specs.BoundRuns.{BoundRun};

    ghost Value = { BoundRun };

    ghost coded = { Prim.hlevel (codes, coded_world) };

    ghost view = { λ run. record {
      list = run.list.now;
      budgets = run.budgets;
      binds = run.binds;
      position = run.position;
      clients = run.clients.items;
    } };

    ghost invariant = { λ run. length run.clients.items ≡ length run.list.now.entries };
}

impl<'a, 'b, 'm> BindingRun<'a, 'b, 'm> {
    ghost use Rattle.std.specs.Prelude.{◌≡◌, ◌≢◌, ◌<◌, length, replicate, IfErr, IfOk, None, OnOk};
    ghost use Rattle.list_parser.specs.declared.fault.BootFault.TheVariants.{NoMemory};
    ghost use Rattle.budget_search.specs.NoBudgets.{IsSearchFault};
    ghost use Rattle.core_calls.specs.Call.{model_call, IsWellFormed};
    ghost use Rattle.line_names.specs.Learning.{learnt};
    ghost use Rattle.line_names.specs.Views.{directive_view, filled_view};
    ghost use Rattle.line_steps.specs.RunPosition.{arrived, passed, position_following};
    ghost use Rattle.budget_least.specs.BoundRuns.{kept_by, known_client, with_client, without_client, HasBooted, IsAnswered, IsAnsweredIf, IsClient};

    /// Returns a run in which no component has made a call. The error is that the host is out of memory.
    pub(crate) fn new(
        alloc: Global,
        list: &'a StartList,
        position: RunPosition<'m>,
        budgets: BindingBudgets<'b>,
        binds: bool,
    ) -> Result<BindingRun<'a, 'b, 'm>, AllocError>
        ensures { IfOk result (λ run. run ≡ record {
          list = list.now;
          budgets = budgets.entry;
          binds = binds;
          position = position.entry;
          clients = replicate (length list.now.entries) None;
        }) }
    {
        Ok(BindingRun {
            list,
            budgets,
            binds,
            position,
            clients: no_clients(alloc, list.count())?,
        })
    }

    /// Returns the list of the run.
    pub(crate) fn list(&self) -> &'a StartList
        ensures { result.now ≡ self.now.list }
    {
        self.list
    }

    /// Moves the position to the next line, and returns the number of the line that it passes.
    pub(crate) fn pass(&mut self) -> u64
        ensures number { result ≡ self.old.position.number }
        ensures passed { self.new ≡ record self.old { position = passed self.old.position } }
    {
        self.position.pass()
    }

    /// Returns the values of names at the position.
    pub(crate) fn known(&self) -> &NameTable
        ensures { result.now ≡ self.now.position.known }
    {
        self.position.known()
    }

    /// Follows a directive. The error is that the host is out of memory.
    pub(crate) fn follow(&mut self, directive: Directive<'_>) -> Result<(), AllocError>
        ensures { OnOk result (self.new ≡ record self.old {
          position = position_following self.old.position (directive_view directive.entry);
        }) }
    {
        self.position.follow(directive)
    }

    /// Enters and leaves the rounds that begin and end before the next line. The error is that the host is out of memory.
    pub(crate) fn arrive(&mut self) -> Result<(), AllocError>
        ensures { OnOk result (self.new ≡ record self.old { position = arrived self.old.position }) }
    {
        self.position.arrive()
    }

    /// Answers the call of the line at a place among a component's, and binds the names of the line, if replies bind names. The
    /// error is that of the boot of the component's machine, or that the host is out of memory.
    pub(crate) fn answer(
        &mut self,
        alloc: Global,
        component: usize,
        place: usize,
        call: Call<'_>,
        filled: &FilledLine<'_>,
    ) -> Result<(), BootFault>
        requires there { component < length self.old.list.entries }
        requires call { IsWellFormed call }
        ensures answered { OnOk result (IsAnsweredIf self.old.binds component place (model_call call.entry)
            (filled_view filled.now) self.old self.new) }
        ensures fault { IfErr result (IsSearchFault self.old.list) }
    {
        if !self.binds() {
            return Ok(());
        }
        self.answer_bound(alloc, component, place, call, filled)
    }

    // Answers a call whose reply binds the names of its line.
    fn answer_bound(
        &mut self,
        alloc: Global,
        component: usize,
        place: usize,
        call: Call<'_>,
        filled: &FilledLine<'_>,
    ) -> Result<(), BootFault>
        requires there { component < length self.old.list.entries }
        requires call { IsWellFormed call }
        ensures answered { OnOk result (IsAnswered component place (model_call call.entry)
            (filled_view filled.now) self.old self.new) }
        ensures fault { IfErr result (IsSearchFault self.old.list) }
    {
        let mut client = self.take_client(alloc, component)?;
        self.budgets()
            .make(alloc, &mut client, component, place, call)?;
        self.learn(filled, client.text())?;
        self.put_client(component, client);
        Ok(())
    }

    // Returns whether replies bind names.
    fn binds(&self) -> bool
        ensures { result ≡ self.now.binds }
    {
        self.binds
    }

    /// Returns the budgets of the run.
    pub(crate) fn budgets(&self) -> BindingBudgets<'b>
        ensures { result ≡ self.now.budgets }
    {
        self.budgets
    }

    /// Binds the names of a filled line that its reply binds.
    pub(crate) fn learn(&mut self, filled: &FilledLine<'_>, reply: &[u8]) -> Result<(), AllocError>
        ensures { OnOk result (self.new ≡ record self.old {
          position = record self.old.position {
            known = learnt self.old.position.known (filled_view filled.now) reply.now;
          };
        }) }
    {
        self.position.learn(filled, reply)
    }

    /// Takes the client of a component out of the run. A component that has made no call begins on its machine.
    pub(crate) fn take_client(
        &mut self,
        alloc: Global,
        component: usize,
    ) -> Result<AmpleClient<RouteTable>, BootFault>
        requires { component < length self.old.list.entries }
        ensures client { IfOk result (IsClient self.old component) }
        ensures taken { OnOk result (self.new ≡ without_client component self.old) }
        ensures fault { IfErr result (IsSearchFault self.old.list) }
    {
        match self.take_known(component) {
            Some(client) => Ok(client),
            None => self.boot(alloc, component),
        }
    }

    // Takes the client of a component out of the run, if it has one.
    fn take_known(&mut self, component: usize) -> Option<AmpleClient<RouteTable>>
        requires { component < length self.old.list.entries }
        ensures client { result ≡ known_client component self.old }
        ensures taken { self.new ≡ without_client component self.old }
    {
        self.clients[component].take()
    }

    /// Puts the client of a component into the run.
    pub(crate) fn put_client(&mut self, component: usize, client: AmpleClient<RouteTable>)
        requires { component < length self.old.list.entries }
        ensures { self.new
            ≡ record self.old { clients = with_client component client self.old.clients } }
    {
        self.clients[component] = Some(client);
    }

    /// Puts the client of a component into the run, after the call of a line whose names its reply binds, if it does. The error is
    /// that the host is out of memory.
    pub(crate) fn keep(
        &mut self,
        component: usize,
        client: AmpleClient<RouteTable>,
        filled: &FilledLine<'_>,
        binds: bool,
    ) -> Result<(), AllocError>
        requires { component < length self.old.list.entries }
        ensures { OnOk result (self.new ≡ kept_by binds component (filled_view filled.now) client self.old) }
    {
        if !binds {
            self.put_client(component, client);
            return Ok(());
        }
        self.learn(filled, client.text())?;
        self.put_client(component, client);
        Ok(())
    }

    // Returns the client of a component that has made no call.
    fn boot(&self, alloc: Global, component: usize) -> Result<AmpleClient<RouteTable>, BootFault>
        requires { component < length self.now.list.entries }
        ensures booted { IfOk result (HasBooted self.now.list self.now.budgets component) }
        ensures fault { IfErr result (IsSearchFault self.now.list) }
    {
        let reply = Reply::boot(alloc)?;
        let list = self.budgets().machine(alloc, self.list(), component)?;
        let core = boot(alloc, &list)?;
        Ok(AmpleClient::new(core, component, reply))
    }
}

// Returns no client for each of so many components.
fn no_clients(
    alloc: Global,
    components: usize,
) -> Result<Vec<Option<AmpleClient<RouteTable>>>, AllocError>
    ensures { IfOk result (λ clients. clients.items ≡ replicate components None) }
{
    let mut clients = Vec::new(alloc);
    for count in 0..components {
        clients.push(None)?;
    }
    Ok(clients)
}
