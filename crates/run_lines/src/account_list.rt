//! The account list: use and limits of every account, and the sums of all limits.
ghost use Rattle.std.specs.Prelude.{◌≡◌, ◌<◌, ◌++◌, false, true, length, Err, IfErr, OnErr, OnOk, is_err};
ghost use Rattle.std.specs.List.{enumerate_from, flat_map};
ghost use Rattle.std.specs.Io.KnownBytes.{Appends};
ghost use Rattle.own_model.specs.AccountList.{account_line, account_list_text, component_lines, reserve_line, session_line, session_lines, total_line};
ghost use Rattle.own_model.specs.Listed.{start_list_of};
ghost use Rattle.own_model.specs.StartList.{entries_of};
ghost use Rattle.own_model.specs.Transcript.{state_at};
ghost use Rattle.own_model.specs.World.{account_at, all_ram, all_caps};
ghost use Rattle.core_calls.specs.Quotas.{quotas_account};
ghost use Rattle.core_calls.specs.Quotas.{reserve_amounts};
ghost use Rattle.run_lines.specs.Accounts.{listed_at, selected_line};
ghost use Rattle.run_devices.specs.RunOutput.{AppendsPart, OutputsUnless};
ghost use Rattle.run_lines.specs.Causes.{is_write_fault};
ghost use Rattle.run_lines.specs.declared.run_fault.RunFault.TheVariants.{WriteFault};

use crate::account_sums::sum_all;
use crate::account_text::{add_amounts, add_quotas};
use crate::run_fault::RunFault;
use arrayvec::ArrayVec;
use core_calls::{Quotas, Reserve};
use list_parser::StartList;
use pd_core::{Core, Router};
use run_devices::{DeviceFault, Sink, WriteBuffer};
use text_codec::{add, add_number};

/// Room for the part of a line after the name.
const LONGEST_REST: usize = 160;

/// Writes the account list: init's account, those of the components, those of their open sessions, and the sums of all
/// limits. Components are in the order of the list; a reserve is printed if the list gives it or it is not empty. Sessions
/// are in ascending order of selectors. The components may have any own states, on a machine of any size.
///
/// Returns `WriteFault` if the writer had failed before, and then does not try it again. Returns `WriteFault` also if a
/// write fails; a part of the list is written then.
pub fn write_accounts<R: Router + Drop, K: Sink>(
    core: &Core<R>,
    list: &StartList,
    writer: &mut K,
) -> Result<(), RunFault>
    requires listed { core.now.entries ≡ entries_of (start_list_of list.now) }
    ensures told { OnOk result (Appends (K.contents writer.old) (K.contents writer.new)
        (account_list_text list.now core.now)) }
    ensures fault { IfErr result (λ fault. fault ≡ WriteFault) }
    ensures part { OnErr result (AppendsPart (K.contents writer.old) (K.contents writer.new)
        (account_list_text list.now core.now)) }
    ensures writing { K.has_failed writer.new ≡ is_write_fault result }
    ensures before { K.has_failed writer.old ≡ true →
        (result ≡ Err WriteFault) × (writer.new ≡ writer.old) }
{
    if writer.failed() {
        return Err(RunFault::WriteFault);
    }
    match write_list(core, list, writer) {
        Ok(()) => Ok(()),
        Err(DeviceFault) => Err(RunFault::WriteFault),
    }
}

// Gathers the account list and writes it out.
fn write_list<R: Router + Drop, K: Sink>(
    core: &Core<R>,
    list: &StartList,
    sink: &mut K,
) -> Result<(), DeviceFault>
    requires listed { core.now.entries ≡ entries_of (start_list_of list.now) }
    requires writes { K.has_failed sink.old ≡ false }
    ensures told { OnOk result (Appends (K.contents sink.old) (K.contents sink.new)
        (account_list_text list.now core.now)) }
    ensures part { OnErr result (AppendsPart (K.contents sink.old) (K.contents sink.new)
        (account_list_text list.now core.now)) }
    ensures failing { K.has_failed sink.new ≡ is_err result }
{
    let mut gathered = WriteBuffer::new();
    put_list(core, list, &mut gathered, sink)?;
    gathered.flush(sink)
}

// Gathers the account list.
fn put_list<R: Router + Drop, K: Sink>(
    core: &Core<R>,
    list: &StartList,
    gathered: &mut WriteBuffer,
    sink: &mut K,
) -> Result<(), DeviceFault>
    requires listed { core.now.entries ≡ entries_of (start_list_of list.now) }
    requires writes { K.has_failed sink.old ≡ false }
    ensures told { OutputsUnless result (K.contents sink.old) gathered.old
        (K.contents sink.new) gathered.new
        (account_list_text list.now core.now) }
    ensures failing { K.has_failed sink.new ≡ is_err result }
{
    put_account(b"init", core.init_account(), gathered, sink)?;
    put_components(core, list, gathered, sink)?;
    put_sessions(core, list, gathered, sink)?;
    put_total(core, list, gathered, sink)
}

// Gathers the lines of each component.
fn put_components<R: Router + Drop, K: Sink>(
    core: &Core<R>,
    list: &StartList,
    gathered: &mut WriteBuffer,
    sink: &mut K,
) -> Result<(), DeviceFault>
    requires listed { core.now.entries ≡ entries_of (start_list_of list.now) }
    requires writes { K.has_failed sink.old ≡ false }
    ensures told { OutputsUnless result (K.contents sink.old) gathered.old
        (K.contents sink.new) gathered.new
        (flat_map (λ e.
        component_lines e.1 (account_at core.now e.0) (state_at core.now.states e.0).reserve)
        (enumerate_from 0 list.now.entries)) }
    ensures failing { K.has_failed sink.new ≡ is_err result }
{
    for component in 0..core.count() {
        put_component(core, list, component, gathered, sink)?;
    }
    Ok(())
}

// Gathers the line of a component's account, and that of its reserve if it is printed.
fn put_component<R: Router + Drop, K: Sink>(
    core: &Core<R>,
    list: &StartList,
    component: usize,
    gathered: &mut WriteBuffer,
    sink: &mut K,
) -> Result<(), DeviceFault>
    requires listed { core.now.entries ≡ entries_of (start_list_of list.now) }
    requires component { component < length core.now.entries }
    requires writes { K.has_failed sink.old ≡ false }
    ensures told { OutputsUnless result (K.contents sink.old) gathered.old
        (K.contents sink.new) gathered.new
        (component_lines (listed_at list.now component) (account_at core.now component)
        (state_at core.now.states component).reserve) }
    ensures failing { K.has_failed sink.new ≡ is_err result }
{
    let name = list.name(component);
    put_account(name, core.account(component), gathered, sink)?;
    let reserve = core.reserve(component);
    if list.gives_reserve(component) || reserve.ram.0 > 0 || reserve.caps.0 > 0 {
        put_reserve(name, reserve, gathered, sink)
    } else {
        Ok(())
    }
}

// Gathers the lines of each component's open sessions.
fn put_sessions<R: Router + Drop, K: Sink>(
    core: &Core<R>,
    list: &StartList,
    gathered: &mut WriteBuffer,
    sink: &mut K,
) -> Result<(), DeviceFault>
    requires listed { core.now.entries ≡ entries_of (start_list_of list.now) }
    requires writes { K.has_failed sink.old ≡ false }
    ensures told { OutputsUnless result (K.contents sink.old) gathered.old
        (K.contents sink.new) gathered.new
        (flat_map (λ e. session_lines e.1.path (state_at core.now.states e.0))
        (enumerate_from 0 list.now.entries)) }
    ensures failing { K.has_failed sink.new ≡ is_err result }
{
    for component in 0..core.count() {
        put_sessions_of(core, list, component, gathered, sink)?;
    }
    Ok(())
}

// Gathers the lines of a component's open sessions in ascending order of selectors.
fn put_sessions_of<R: Router + Drop, K: Sink>(
    core: &Core<R>,
    list: &StartList,
    component: usize,
    gathered: &mut WriteBuffer,
    sink: &mut K,
) -> Result<(), DeviceFault>
    requires listed { core.now.entries ≡ entries_of (start_list_of list.now) }
    requires component { component < length core.now.entries }
    requires writes { K.has_failed sink.old ≡ false }
    ensures told { OutputsUnless result (K.contents sink.old) gathered.old
        (K.contents sink.new) gathered.new
        (session_lines (listed_at list.now component).path (state_at core.now.states component)) }
    ensures failing { K.has_failed sink.new ≡ is_err result }
{
    for selector in 0..=core.last_selector(component) {
        put_selected(core, list, component, selector, gathered, sink)?;
    }
    Ok(())
}

// Gathers the line of the object that a selector names, if it is a session.
fn put_selected<R: Router + Drop, K: Sink>(
    core: &Core<R>,
    list: &StartList,
    component: usize,
    selector: u64,
    gathered: &mut WriteBuffer,
    sink: &mut K,
) -> Result<(), DeviceFault>
    requires listed { core.now.entries ≡ entries_of (start_list_of list.now) }
    requires component { component < length core.now.entries }
    requires writes { K.has_failed sink.old ≡ false }
    ensures told { OutputsUnless result (K.contents sink.old) gathered.old
        (K.contents sink.new) gathered.new
        (selected_line (listed_at list.now component).path (state_at core.now.states component) selector) }
    ensures failing { K.has_failed sink.new ≡ is_err result }
{
    let Some(account) = core.session_account(component, selector) else {
        return Ok(());
    };
    put_session(list.name(component), selector, account, gathered, sink)
}

// Gathers the line of an account by the name of what has it.
fn put_account<K: Sink>(
    name: &[u8],
    account: Quotas,
    gathered: &mut WriteBuffer,
    sink: &mut K,
) -> Result<(), DeviceFault>
    requires { K.has_failed sink.old ≡ false }
    ensures told { OutputsUnless result (K.contents sink.old) gathered.old
        (K.contents sink.new) gathered.new
        (account_line name.now (quotas_account account)) }
    ensures failing { K.has_failed sink.new ≡ is_err result }
{
    let mut rest: ArrayVec<u8, LONGEST_REST> = ArrayVec::new();
    add(&mut rest, b" ");
    add_quotas(&mut rest, account);
    add(&mut rest, b"\n");
    put_named(b"account ", name, rest.as_slice(), gathered, sink)
}

// Gathers the line of a reserve by its component's name.
fn put_reserve<K: Sink>(
    name: &[u8],
    reserve: Reserve,
    gathered: &mut WriteBuffer,
    sink: &mut K,
) -> Result<(), DeviceFault>
    requires { K.has_failed sink.old ≡ false }
    ensures told { OutputsUnless result (K.contents sink.old) gathered.old
        (K.contents sink.new) gathered.new
        (reserve_line name.now (reserve_amounts reserve)) }
    ensures failing { K.has_failed sink.new ≡ is_err result }
{
    let mut rest: ArrayVec<u8, LONGEST_REST> = ArrayVec::new();
    add(&mut rest, b" ");
    add_amounts(&mut rest, reserve.ram, reserve.caps);
    add(&mut rest, b"\n");
    put_named(b"reserve ", name, rest.as_slice(), gathered, sink)
}

// Gathers the line of a session's account by its client's name and its selector.
fn put_session<K: Sink>(
    name: &[u8],
    selector: u64,
    account: Quotas,
    gathered: &mut WriteBuffer,
    sink: &mut K,
) -> Result<(), DeviceFault>
    requires { K.has_failed sink.old ≡ false }
    ensures told { OutputsUnless result (K.contents sink.old) gathered.old
        (K.contents sink.new) gathered.new
        (session_line name.now selector (quotas_account account)) }
    ensures failing { K.has_failed sink.new ≡ is_err result }
{
    let mut rest: ArrayVec<u8, LONGEST_REST> = ArrayVec::new();
    add(&mut rest, b" ");
    add_number(&mut rest, selector);
    add(&mut rest, b" ");
    add_quotas(&mut rest, account);
    add(&mut rest, b"\n");
    put_named(b"session ", name, rest.as_slice(), gathered, sink)
}

// Gathers a text in its three parts.
fn put_named<K: Sink>(
    word: &[u8],
    name: &[u8],
    rest: &[u8],
    gathered: &mut WriteBuffer,
    sink: &mut K,
) -> Result<(), DeviceFault>
    requires { K.has_failed sink.old ≡ false }
    ensures told { OutputsUnless result (K.contents sink.old) gathered.old
        (K.contents sink.new) gathered.new
        (word.now ++ name.now ++ rest.now) }
    ensures failing { K.has_failed sink.new ≡ is_err result }
{
    gathered.put(sink, word)?;
    gathered.put(sink, name)?;
    gathered.put(sink, rest)
}

// Gathers the line of the sums of all limits.
fn put_total<R: Router + Drop, K: Sink>(
    core: &Core<R>,
    list: &StartList,
    gathered: &mut WriteBuffer,
    sink: &mut K,
) -> Result<(), DeviceFault>
    requires listed { core.now.entries ≡ entries_of (start_list_of list.now) }
    requires writes { K.has_failed sink.old ≡ false }
    ensures told { OutputsUnless result (K.contents sink.old) gathered.old
        (K.contents sink.new) gathered.new
        (total_line (all_ram core.now) (all_caps core.now)) }
    ensures failing { K.has_failed sink.new ≡ is_err result }
{
    // A list has at most 32 components.
    let _components = list.count();
    let sums = sum_all(core);
    let mut text: ArrayVec<u8, LONGEST_REST> = ArrayVec::new();
    add(&mut text, b"total ram ");
    add_number(&mut text, sums.ram);
    add(&mut text, b" caps ");
    add_number(&mut text, sums.caps);
    add(&mut text, b"\n");
    gathered.put(sink, text.as_slice())
}
