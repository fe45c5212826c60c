//! The boot of a machine: each component of its start list in turn is given an account below that of its init, which keeps
//! the rest.
ghost use Rattle.std.specs.Prelude.{◌≡◌, ◌≢◌, ◌+◌, ◌*◌, ◌<◌, ◌≤◌, is_none, is_ok, length, IfOk, IfErr, OnOk, None, Some};
ghost use Rattle.own_model.specs.Account.{shortage};
ghost use Rattle.own_model.specs.Listed.{Listed, start_list_of};
ghost use Rattle.own_model.specs.Listed.Binary.{Script as AScript, Server as AServer, Init as AnInit};
ghost use Rattle.own_model.specs.Offer.Offer.{OffersObjects};
ghost use Rattle.own_model.specs.World.{start_world, IsBalancedFor};
ghost use Rattle.own_model.specs.StartList.{Boots};
ghost use Rattle.dataspace_core.specs.Store.{IsOpenIn, account_in, room_in};
ghost use Rattle.init_core.specs.Boot.{HasStarted, IsMade, Opens};
ghost use Rattle.list_parser.specs.BuiltIn.{built_in};
ghost use Rattle.list_parser.specs.Quota.{quota_fault};
ghost use Rattle.list_parser.specs.declared.fault.BootFault.TheVariants.{NoMemory, QuotaExceeded};

use crate::table::RouteTable;
use cap_space::CapSpace;
use dataspace_core::Memory;
use list_parser::{Binary, BootFault, DeclaredService, ListEntry, StartList};
use object_kinds::copy_kinds;
use pd_core::{AnyServer, Component, Core};
use region_map::RegionMap;
use std::alloc::Global;
use trade_base::{AccountId, BuiltInService, Caps, Ram};

/// The most user regions of a script.
const REGIONS: usize = 128;

/// Boots the machine of a start list and returns its core.
///
/// Refuses with `QuotaExceeded` and the path of the first entry that the rest of its init's account does not cover. Returns
/// `NoMemory` instead if the host is out of memory for the machine's tables.
pub fn boot(alloc: Global, list: &StartList) -> Result<Core<RouteTable>, BootFault>
    ensures started { IfOk result (λ core. core ≡ start_world (start_list_of list.now)) }
    ensures covered { OnOk result (Boots (start_list_of list.now)) }
    ensures balanced { IfOk result (λ core. IsBalancedFor (start_list_of list.now) core) }
    ensures fault { IfErr result
        (λ fault. fault ≢ NoMemory → quota_fault list.now ≡ Some fault) }
{
    let mut memory = Memory::boot(
        alloc,
        list.pages() as usize,
        Caps(list.caps()),
        1 + list.count() * 2 + sessions_of(list),
    )?;
    let mut components = Vec::new(alloc);
    // The account of the machine's init, and that of each component: an init's is at the init's number.
    let mut accounts = Vec::new(alloc);
    accounts.push(memory.root())?;
    for place in 0..list.count() {
        start(
            &mut memory,
            &mut components,
            &mut accounts,
            list,
            place,
            alloc,
        )?;
    }
    let routes = RouteTable::of(alloc, list)?;
    Ok(Core::from_parts(memory, components, routes))
}

/// The most sessions: half of the machine's capabilities, because each session takes two.
fn sessions_of(list: &StartList) -> usize
    ensures half { list.now.caps ≤ result * 2 + 1 }
    ensures no_more { result * 2 ≤ list.now.caps }
    ensures few { result ≤ 2048 }
{
    list.caps() as usize / 2
}

/// Starts the component at a place of the list, after those before it.
///
/// Refuses with `QuotaExceeded` if the rest of its init's account does not cover its account and its reserve together.
/// Returns `NoMemory` instead if the host is out of memory.
fn start(
    memory: &mut Memory,
    components: &mut Vec<Component>,
    accounts: &mut Vec<AccountId>,
    list: &StartList,
    place: usize,
    alloc: Global,
) -> Result<(), BootFault>
    requires place { place < length list.now.entries }
    requires so_far { HasStarted list.now memory.old components.old.items accounts.old.items place }
    ensures started { OnOk result
        (HasStarted list.now memory.new components.new.items accounts.new.items (place + 1)) }
    ensures fault { IfErr result
        (λ fault. fault ≢ NoMemory → quota_fault list.now ≡ Some fault) }
{
    let entry = &list.entries()[place];
    let init = accounts[list.home(place)];
    let account = open_for(memory, init, entry, Ram(entry.ram()), Caps(entry.caps()))?;
    accounts.push(account)?;
    match entry.binary() {
        Binary::Script => {
            let kept = entry.reserve_at_start();
            let reserve = open_for(memory, init, entry, kept.ram, kept.caps)?;
            components.push(script_of(entry, account, reserve, list, alloc)?)?;
            Ok(())
        }
        Binary::Server(service) => {
            components.push(server_of(*service, entry, account, list, alloc)?)?;
            Ok(())
        }
        Binary::Declared(service) => {
            components.push(declared_server_of(service, entry, account, list, alloc)?)?;
            Ok(())
        }
        Binary::Init => {
            components.push(init_of(entry, account))?;
            Ok(())
        }
    }
}

/// Opens an account for an entry with these limits of its init's. Refuses with `QuotaExceeded` and the entry's path if they
/// are not covered.
fn open_for(
    memory: &mut Memory,
    init: AccountId,
    entry: &ListEntry,
    ram: Ram,
    caps: Caps,
) -> Result<AccountId, BootFault>
    requires init { IsOpenIn memory.old init.0 }
    requires room { 0 < room_in memory.old }
    ensures covered { is_ok result
        ≡ is_none (shortage (account_in memory.old init.0) ram.0 caps.0) }
    ensures opened { IfOk result
        (λ account. Opens memory.old init.0 account.0 ram.0 caps.0 memory.new) }
    ensures fault { IfErr result (λ fault. fault ≡ QuotaExceeded entry.now.path) }
{
    match memory.open(init, ram, caps) {
        Ok(account) => Ok(account),
        Err(_) => Err(entry.quota_exceeded()),
    }
}

/// Creates the script of an entry on its account and that of its reserve, with new tables.
fn script_of(
    entry: &ListEntry,
    account: AccountId,
    reserve: AccountId,
    list: &StartList,
    alloc: Global,
) -> Result<Component, BootFault>
    requires { entry.now.binary ≡ AScript }
    ensures made { IfOk result (IsMade list.now entry.now account.0 (Some reserve.0)) }
    ensures fault { IfErr result (λ fault. fault ≡ NoMemory) }
{
    let pages = list.pages() as usize;
    let caps = CapSpace::boot(alloc, list.caps() as usize)?;
    let regions = RegionMap::boot(alloc, REGIONS, pages, pages)?;
    Ok(Component::script(entry.label(), account, reserve, caps, regions))
}

/// Creates the server of an entry on its account, without sessions.
fn server_of(
    service: BuiltInService,
    entry: &ListEntry,
    account: AccountId,
    list: &StartList,
    alloc: Global,
) -> Result<Component, BootFault>
    requires { entry.now.binary ≡ built_in service }
    ensures made { IfOk result (IsMade list.now entry.now account.0 None) }
    ensures fault { IfErr result (λ fault. fault ≡ NoMemory) }
{
    let host = AnyServer::boot(alloc, service, sessions_of(list), list.pages() as usize)?;
    Ok(Component::server(entry.label(), account, host))
}

/// Creates the server of an entry that declares its service on its account, without sessions.
fn declared_server_of(
    service: &DeclaredService,
    entry: &ListEntry,
    account: AccountId,
    list: &StartList,
    alloc: Global,
) -> Result<Component, BootFault>
    requires { entry.now.binary ≡ AServer service.now.name (OffersObjects service.now.kinds) }
    ensures made { IfOk result (IsMade list.now entry.now account.0 None) }
    ensures fault { IfErr result (λ fault. fault ≡ NoMemory) }
{
    let kinds = copy_kinds(alloc, service.kinds())?;
    let host = AnyServer::boot_declared(alloc, kinds, sessions_of(list), list.pages() as usize)?;
    Ok(Component::server(entry.label(), account, host))
}

/// Creates the init of an entry on its account. It has started no component yet.
fn init_of(entry: &ListEntry, account: AccountId) -> Component
    requires { entry.now.binary ≡ AnInit }
    ensures { (list : Listed) → IsMade list entry.now account.0 None result }
{
    Component::init(entry.label(), account)
}
