//! The rows of an account list with needs and peaks, as values.
ghost use Rattle.std.specs.Prelude.{◌≡◌, ◌<◌, ◌∷◌, ◌++◌, [], length, map, IfOk, OnOk};
ghost use Rattle.std.specs.Option.{option_map};
ghost use Rattle.own_model.specs.Listed.{start_list_of};
ghost use Rattle.own_model.specs.StartList.{entries_of};
ghost use Rattle.own_model.specs.Transcript.{state_at};
ghost use Rattle.core_calls.specs.Quotas.{quotas_account, reserve_amounts};
ghost use Rattle.run_lines.specs.Accounts.{listed_at};
ghost use Rattle.view_accounts.specs.Kept.{noted_in};
ghost use Rattle.view_accounts.specs.Meters.{needed_in};
ghost use Rattle.view_accounts.specs.Rows.{account_view, accounts_view, component_view, session_view};
ghost use Rattle.view_accounts.specs.RunRows.{account_row, closed_kept, closed_row, component_row, entries_in, in_turn, init_row, measures_kept, name_at, reserve_row, rows_kept, selector_count, session_row, session_rows};

use crate::accounting::Accounting;
use crate::needs::AccountNeed;
use crate::peaks::{Peak, SessionPeak};
use crate::session_needs::ClosedSession;
use core_calls::{Quotas, Reserve};
use list_parser::StartList;
use run_lines::{Core, Router, Sums, sum_all};
use std::alloc::{AllocError, Global};

/// The rows of an account list: of the machine's init, of the components in the order of the list, of the sums of all limits, and
/// of the closed sessions in the order in which they were closed.
#[derive(Drop)]
pub struct AccountRows {
    pub(crate) init: AccountRow,
    pub(crate) components: Vec<ComponentRows>,
    pub(crate) total: Sums,
    pub(crate) closed: Vec<SessionRow>,
}

/// The account of the machine's init or of a component: its name, use and limits, its need, and its peak.
#[derive(Drop)]
pub(crate) struct AccountRow {
    pub(crate) name: Vec<u8>,
    pub(crate) account: Quotas,
    pub(crate) needed: AccountNeed,
    pub(crate) peak: Peak,
}

/// The account of a component, its reserve if it is shown, and its open sessions by rising selector.
#[derive(Drop)]
pub(crate) struct ComponentRows {
    pub(crate) account: AccountRow,
    pub(crate) reserve: Option<Reserve>,
    pub(crate) sessions: Vec<SessionRow>,
}

/// A session: the place and the path of its client, its selector, use and limits if it is open, its need, its peak, its server, and
/// its label.
#[derive(Drop)]
pub(crate) struct SessionRow {
    pub(crate) component: usize,
    pub(crate) name: Vec<u8>,
    pub(crate) selector: u64,
    pub(crate) account: Option<Quotas>,
    pub(crate) needed: AccountNeed,
    pub(crate) peak: Peak,
    pub(crate) server: Vec<u8>,
    pub(crate) label: Vec<u8>,
}

impl AccountRows {
    /// Returns the rows of a machine of a list, by the needs and peaks that were observed. The error is that the host is out of
    /// memory.
    #[tactic(auto, using(crate::proofs::RowLemmas::rows_made))]
    pub(crate) fn of<R: Router + Drop>(
        alloc: Global,
        core: &Core<R>,
        list: &StartList,
        observer: &Accounting,
    ) -> Result<AccountRows, AllocError>
        requires listed { core.now.entries ≡ entries_of (start_list_of list.now) }
        ensures { IfOk result (λ rows. accounts_view rows ≡ rows_kept observer.now list.now core.now) }
    {
        // A list has at most 32 components.
        let _components = list.count();
        let init = init_row(alloc, core, list, observer)?;
        let components = components_rows(alloc, core, list, observer)?;
        let closed = closed_rows(alloc, list, observer.needs.sessions.closed.as_slice())?;
        Ok(AccountRows {
            init,
            components,
            total: sum_all(core),
            closed,
        })
    }
}

// The row of the machine's init.
#[tactic(auto, using(crate::proofs::RowLemmas::account_made))]
fn init_row<R: Router + Drop>(
    alloc: Global,
    core: &Core<R>,
    list: &StartList,
    observer: &Accounting,
) -> Result<AccountRow, AllocError>
    ensures { IfOk result (λ row.
        account_view row ≡ init_row (measures_kept observer.now list.now) core.now) }
{
    let name = Vec::from_slice(alloc, b"init")?;
    Ok(AccountRow {
        name,
        account: core.init_account(),
        needed: observer.needs.init(list),
        peak: observer.peaks.init,
    })
}

// The rows of all components.
fn components_rows<R: Router + Drop>(
    alloc: Global,
    core: &Core<R>,
    list: &StartList,
    observer: &Accounting,
) -> Result<Vec<ComponentRows>, AllocError>
    requires listed { core.now.entries ≡ entries_of (start_list_of list.now) }
    ensures { IfOk result (λ rows. map component_view rows.items ≡ in_turn (λ component.
        component_row list.now (measures_kept observer.now list.now) core.now component ∷ [])
        (length list.now.entries)) }
{
    let mut components = Vec::new(alloc);
    for component in 0..list.count() {
        components.push(component_rows(alloc, core, list, observer, component)?)?;
    }
    Ok(components)
}

// The rows of a component.
#[tactic(auto, using(crate::proofs::RowLemmas::component_made))]
fn component_rows<R: Router + Drop>(
    alloc: Global,
    core: &Core<R>,
    list: &StartList,
    observer: &Accounting,
    component: usize,
) -> Result<ComponentRows, AllocError>
    requires listed { core.now.entries ≡ entries_of (start_list_of list.now) }
    requires component { component < length list.now.entries }
    ensures { IfOk result (λ rows. component_view rows
        ≡ component_row list.now (measures_kept observer.now list.now) core.now component) }
{
    let account = account_row(alloc, core, list, observer, component)?;
    let sessions = sessions_rows(alloc, core, list, observer, component)?;
    Ok(ComponentRows {
        account,
        reserve: reserve_shown(core, list, component),
        sessions,
    })
}

// The row of a component's account.
#[tactic(auto, using(crate::proofs::RowLemmas::account_made))]
fn account_row<R: Router + Drop>(
    alloc: Global,
    core: &Core<R>,
    list: &StartList,
    observer: &Accounting,
    component: usize,
) -> Result<AccountRow, AllocError>
    requires listed { core.now.entries ≡ entries_of (start_list_of list.now) }
    requires component { component < length list.now.entries }
    ensures { IfOk result (λ row. account_view row
        ≡ account_row list.now (measures_kept observer.now list.now) core.now component) }
{
    let name = Vec::from_slice(alloc, list.name(component))?;
    Ok(AccountRow {
        name,
        account: core.account(component),
        needed: observer.needs.component(list, component),
        peak: observer.peaks.component(component),
    })
}

// The reserve of a component, if the list gives it one or the reserve isn't empty.
fn reserve_shown<R: Router + Drop>(
    core: &Core<R>,
    list: &StartList,
    component: usize,
) -> Option<Reserve>
    requires listed { core.now.entries ≡ entries_of (start_list_of list.now) }
    requires component { component < length list.now.entries }
    ensures { option_map reserve_amounts result ≡ reserve_row (listed_at list.now component).reserve
        (state_at core.now.states component).reserve }
{
    let reserve = core.reserve(component);
    if list.gives_reserve(component) || reserve.ram.0 > 0 || reserve.caps.0 > 0 {
        Some(reserve)
    } else {
        None
    }
}

// The rows of a component's open sessions.
fn sessions_rows<R: Router + Drop>(
    alloc: Global,
    core: &Core<R>,
    list: &StartList,
    observer: &Accounting,
    component: usize,
) -> Result<Vec<SessionRow>, AllocError>
    requires listed { core.now.entries ≡ entries_of (start_list_of list.now) }
    requires component { component < length list.now.entries }
    ensures { IfOk result (λ rows. map session_view rows.items ≡ in_turn (session_rows list.now
        (measures_kept observer.now list.now) core.now component) selector_count) }
{
    let mut rows = Vec::new(alloc);
    for selector in 0..core.last_selector(component) + 1 {
        let named = SessionName {
            component,
            selector,
        };
        add_session(alloc, core, list, observer, named, &mut rows)?;
    }
    Ok(rows)
}

// A session: the place of its component, and its selector.
#[derive(Clone, Copy)]
struct SessionName {
    component: usize,
    selector: u64,
}

// Adds the row of the session that a selector of a component names, if it names one.
#[tactic(auto, using(crate::proofs::RowLemmas::none_open, crate::proofs::RowLemmas::none_noted))]
fn add_session<R: Router + Drop>(
    alloc: Global,
    core: &Core<R>,
    list: &StartList,
    observer: &Accounting,
    named: SessionName,
    rows: &mut Vec<SessionRow>,
) -> Result<(), AllocError>
    requires listed { core.now.entries ≡ entries_of (start_list_of list.now) }
    requires component { named.component < length list.now.entries }
    ensures { OnOk result (map session_view rows.new.items ≡ map session_view rows.old.items
        ++ session_rows list.now (measures_kept observer.now list.now) core.now named.component named.selector) }
{
    let SessionName {
        component,
        selector,
    } = named;
    let Some(account) = core.session_account(component, selector) else {
        return Ok(());
    };
    let Some(session) = observer.peaks.session(component, selector) else {
        return Ok(());
    };
    let needed = observer.needs.session(component, selector);
    let row = row_of(alloc, list, named, session, Some(account), needed)?;
    rows.push(row)?;
    Ok(())
}

// The rows of closed sessions.
fn closed_rows(
    alloc: Global,
    list: &StartList,
    closed: &[ClosedSession],
) -> Result<Vec<SessionRow>, AllocError>
    ensures { IfOk result (λ rows. map session_view rows.items ≡ closed_kept list.now closed.now) }
{
    let mut rows = Vec::new(alloc);
    for session in closed {
        rows.push(closed_row(alloc, list, session)?)?;
    }
    Ok(rows)
}

// The row of a closed session.
fn closed_row(
    alloc: Global,
    list: &StartList,
    closed: &ClosedSession,
) -> Result<SessionRow, AllocError>
    ensures { IfOk result (λ row. session_view row ≡ closed_row (entries_in list.now) closed.now) }
{
    let named = SessionName {
        component: closed.session.component,
        selector: closed.session.selector,
    };
    let needed = AccountNeed::of(closed.need);
    row_of(alloc, list, named, &closed.session, None, needed)
}

// The row of a session with this account, or of a closed one, and its need.
#[tactic(auto, using(crate::proofs::RowLemmas::session_made))]
fn row_of(
    alloc: Global,
    list: &StartList,
    named: SessionName,
    session: &SessionPeak,
    account: Option<Quotas>,
    needed: AccountNeed,
) -> Result<SessionRow, AllocError>
    ensures { IfOk result (λ row. session_view row ≡ session_row (entries_in list.now)
        named.component named.selector (option_map quotas_account account) (needed_in needed)
        (noted_in session.now)) }
{
    let name = Vec::from_slice(alloc, name_at(list, Some(named.component)))?;
    let server = Vec::from_slice(alloc, name_at(list, session.server))?;
    let label = Vec::from_slice(alloc, session.label.as_slice())?;
    Ok(SessionRow {
        component: named.component,
        name,
        selector: named.selector,
        account,
        needed,
        peak: session.peak,
        server,
        label,
    })
}

// Returns the name of the component at a place, or `?` if there is none.
fn name_at(list: &StartList, place: Option<usize>) -> &[u8]
    ensures { result.now ≡ name_at (entries_in list.now) place }
{
    match place {
        Some(place) if place < list.count() => list.name(place),
        _ => b"?",
    }
}
