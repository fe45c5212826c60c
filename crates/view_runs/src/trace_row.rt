//! The rows of a trace.
ghost use Rattle.std.specs.Prelude.{◌≡◌, ◌+◌, ◌<◌, List, ℕ, Some, length, drop};
ghost use Rattle.std.specs.Option.{option_and_then, option_map};
ghost use Rattle.core_calls.specs.Call.{model_call};
ghost use Rattle.core_calls.specs.Quotas.{quotas_account};
ghost use Rattle.line_grammar.specs.Read.{IsReadAs};
ghost use Rattle.own_model.specs.Listed.{start_list_of};
ghost use Rattle.own_model.specs.StartList.{entries_of};
ghost use Rattle.own_model.specs.Transcript.{heard, state_at};
ghost use Rattle.own_model.specs.World.{World, account_at, world_running};
ghost use Rattle.run_scenario.specs.Observation.{IsAnsweredAfter};
ghost use Rattle.view_runs.specs.Rows.{row_view, session_view};
ghost use Rattle.view_runs.specs.Tracing.{account_in, call_text, session_at, session_in, session_of, trace_row};

use crate::byte_text::shown_in;
use core_calls::{Call, Quotas};
use list_parser::StartList;
use run_lines::{Core, NamedCall, Router};
use run_scenario::{ObservedCall, PrintableHex, caller_of, said_in};

/// The row of an answered call.
#[derive(Clone, Copy)]
pub struct TraceRow<'a> {
    /// The number of the scenario's line with the call.
    pub number: u64,
    /// The name of the component.
    pub component: &'a [u8],
    /// The call, or a line that makes none.
    pub call: &'a [u8],
    /// The reply.
    pub reply: &'a [u8],
    /// The component's account after the call, if a component has this name.
    pub account: Option<Quotas>,
    /// The session that the call names, if it is open after the call.
    pub session: Option<SessionAccount>,
    /// The text of the call's bytes, if it has some that can be printed.
    pub text: Option<PrintableHex<'a>>,
}

/// A session with its account.
#[derive(Clone, Copy)]
pub struct SessionAccount {
    /// The selector that names the session.
    pub selector: u64,
    /// The account of the session.
    pub account: Quotas,
}

// The accounts that a row shows.
#[derive(Clone, Copy)]
struct RowAccounts {
    account: Option<Quotas>,
    session: Option<SessionAccount>,
}

// The accounts of a line that makes no call, and of a name that no component has.
const NO_ACCOUNTS: RowAccounts = RowAccounts {
    account: None,
    session: None,
};

/// Returns the row of an answered call, with the core after it.
pub(crate) fn row_of<'a, R: Router + Drop>(
    core: &Core<R>,
    list: &StartList,
    heard: &ObservedCall<'a>,
) -> TraceRow<'a>
    requires listed { core.now.entries ≡ entries_of (start_list_of list.now) }
    requires read { IsReadAs heard.now.line.now heard.now.call }
    ensures { (start : World) (earlier : List (List ℕ)) →
        IsAnsweredAfter start earlier heard.now.line.now core.now heard.now.answer →
        row_view result
        ≡ trace_row (world_running start earlier) heard.now.number heard.now.line.now }
{
    let (call, accounts) = call_and_accounts(core, list, heard.line, heard.call);
    TraceRow {
        number: heard.number,
        component: heard.answer.name,
        call,
        reply: heard.answer.reply,
        account: accounts.account,
        session: accounts.session,
        text: shown_in(heard.line, heard.call),
    }
}

// Returns the text of a line's call, and the accounts after it.
fn call_and_accounts<'a, R: Router + Drop>(
    core: &Core<R>,
    list: &StartList,
    line: &'a [u8],
    call: Option<NamedCall<'_>>,
) -> (&'a [u8], RowAccounts)
    requires listed { core.now.entries ≡ entries_of (start_list_of list.now) }
    requires read { IsReadAs line.now call }
    ensures call { result.0.now ≡ call_text line.now }
    ensures account { option_map quotas_account result.1.account
        ≡ account_in core.now (heard core.now.entries line.now) }
    ensures session { option_map session_view result.1.session
        ≡ session_in core.now (heard core.now.entries line.now) }
{
    match said_in(line, call) {
        Some((name, call)) => {
            let text = text_behind(name, line);
            match caller_of(list, name) {
                Some(component) => (text, accounts_of(core, component, call)),
                None => (text, NO_ACCOUNTS),
            }
        }
        None => (line, NO_ACCOUNTS),
    }
}

/// Returns the text of a line after a name and a space.
pub(crate) fn text_behind<'a>(name: &[u8], line: &'a [u8]) -> &'a [u8]
    ensures { result.now ≡ drop (length name.now + 1) line.now }
{
    &line[line.len().min(name.len().saturating_add(1))..]
}

// Returns the account of the component at a place, and the session that its call names.
fn accounts_of<R: Router + Drop>(core: &Core<R>, component: usize, call: Call<'_>) -> RowAccounts
    requires { component < length core.now.entries }
    ensures account { option_map quotas_account result.account
        ≡ Some (account_at core.now component) }
    ensures session { option_map session_view result.session
        ≡ option_and_then (session_at (state_at core.now.states component))
        (session_of (model_call call.entry)) }
{
    RowAccounts {
        account: Some(core.account(component)),
        session: named_session(core, component, call),
    }
}

// Returns the session that a call of a component names, if it is open.
fn named_session<R: Router + Drop>(
    core: &Core<R>,
    component: usize,
    call: Call<'_>,
) -> Option<SessionAccount>
    requires { component < length core.now.entries }
    ensures { option_map session_view result
        ≡ option_and_then (session_at (state_at core.now.states component))
        (session_of (model_call call.entry)) }
{
    match session_of(call) {
        Some(selector) => session_at(core, component, selector),
        None => None,
    }
}

// Returns the session that a selector of a component names, if it is open.
fn session_at<R: Router + Drop>(
    core: &Core<R>,
    component: usize,
    selector: u64,
) -> Option<SessionAccount>
    requires { component < length core.now.entries }
    ensures { option_map session_view result
        ≡ session_at (state_at core.now.states component) selector }
{
    match core.session_account(component, selector) {
        Some(account) => Some(SessionAccount { selector, account }),
        None => None,
    }
}

// The selector of the session that a call names, if it names one.
fn session_of(call: Call<'_>) -> Option<u64>
    ensures { result ≡ session_of (model_call call.entry) }
{
    match call {
        Call::Upgrade { selector, .. }
        | Call::CallSession { selector, .. }
        | Call::Close(selector) => Some(selector),
        _ => None,
    }
}
