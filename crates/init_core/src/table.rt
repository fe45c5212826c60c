//! The routes of a machine, as its core queries them.
ghost use Rattle.std.specs.Prelude.{◌≡◌, ◌+◌, ◌*◌, ◌≤◌, ◌<◌, ℕ, List, Option, length, OnOk, IfOk, Some};
ghost use Rattle.std.specs.List.{slice_get};
ghost use Rattle.std.specs.Option.{option_map};
ghost use Rattle.own_model.specs.Routes.{provider};
ghost use Rattle.init_core.specs.Rows.{server_by_rows, levels_at, places_in, row_of, rows_of};

use crate::resolve::rules_of;
use crate::rule::{Destination, ResolvedRule, ServiceName, resolve_request};
use core_calls::label_of;
use list_parser::{Name, Path, StartList};
use list_routes::MOST_LISTS;
use pd_core::Router;
use std::alloc::{AllocError, Global};
use std::marker::Model;

/// The routes of one entry of a start list: its path, its name, the number of its init, and its rules. The rules are its own
/// route, or otherwise its list's default route.
#[derive(Drop)]
struct RouteRow {
    path: Path,
    name: Name,
    home: usize,
    rules: Vec<ResolvedRule>,
}

impl Model for RouteRow {
    ghost use Rattle.init_core.specs.Rows as rows;

    ghost Value = { rows.RouteRow };

    ghost view = { λ row. record {
      path = row.path;
      home = row.home;
      level = record { name = row.name; rules = row.rules.items };
    } };
}

impl RouteRow {
    /// Copies the routes of a client, given by its number, from a list. Returns an error if the host is out of memory.
    fn of(alloc: Global, list: &StartList, client: usize) -> Result<RouteRow, AllocError>
        requires { client < length list.now.entries }
        ensures { IfOk result
            (λ row. option_map (row_of list.now) (slice_get list.now.entries client) ≡ Some row) }
    {
        let entry = &list.entries()[client];
        Ok(RouteRow {
            path: entry.to_path(),
            name: entry.to_name(),
            home: entry.home(),
            rules: rules_of(alloc, list, entry.home(), list.rules_for(client))?,
        })
    }
}

/// The routes of session requests of a machine's components, built from its start list at the boot. There is one row for
/// each component; the rules outward are found by the number of its init.
#[derive(Drop)]
pub struct RouteTable {
    rows: Vec<RouteRow>,
}

impl RouteTable {
    /// Copies the routes of a start list. Returns an error if the host is out of memory.
    pub(crate) fn of(alloc: Global, list: &StartList) -> Result<RouteTable, AllocError>
        ensures { IfOk result (λ table. table.rows.items ≡ rows_of list.now) }
    {
        let mut rows = Vec::with_capacity(alloc, list.count())?;
        for client in 0..list.count() {
            rows.push(RouteRow::of(alloc, list, client)?)?;
        }
        Ok(RouteTable { rows })
    }
}

impl Router for RouteTable {
    ghost places = { λ table. places_in table.rows.items };

    ghost leads = { λ table. server_by_rows table.rows.items };

    fn provider(&self, client: usize, service: &[u8], label: &[u8]) -> Option<usize> {
        let service = ServiceName::new(service);
        server_for(self.rows.as_slice(), MOST_LISTS, client, &service, label)
    }
}

/// Returns the place of the server to which a client's request is routed through at most this number of lists, or `None`. A
/// row is searched for the first rule that matches. If that rule routes outward, the init's row is searched, with the
/// client's name before the label.
fn server_for(
    rows: &[RouteRow],
    lists: usize,
    client: usize,
    service: &ServiceName<'_>,
    label: &[u8],
) -> Option<usize>
    requires label { length label.now + lists * 36 ≤ 208 }
    ensures { result
        ≡ option_map (λ server. server.place)
        (provider (levels_at lists rows.now client) service.now label.now) }
{
    if lists == 0 {
        return None;
    }
    let Some(row) = rows.get(client) else {
        return None;
    };
    match resolve_request(row.rules.as_slice(), service, label) {
        Destination::Server(place) => Some(place),
        Destination::Nowhere => None,
        Destination::Outward => if row.home == 0 {
            None
        } else {
            let label = label_of(row.name.as_bytes(), label);
            server_for(rows, lists - 1, row.home - 1, service, label.as_slice())
        },
    }
}
