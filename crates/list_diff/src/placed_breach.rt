//! The breaches of a policy by a start list, with their places in the policy and the paths of their components.
ghost use Rattle.std.specs.Prelude.{◌≡◌, ◌++◌, map, IfOk, OnOk};
ghost use Rattle.std.specs.Option.{option_copied};
ghost use Rattle.list_policy.specs.Line.{line_at};
ghost use Rattle.list_diff.specs.PlacedBreaches.{AddsBreaches, ArePlaced, path_of, paths_of, place_at, places};

use list_parser::StartList;
use list_policy::{Breach, BreachText, PolicyLine};
use std::alloc::{AllocError, Global};
use std::marker::Model;

/// A breach of a policy's line by a start list, by the paths of the components.
#[derive(Drop)]
pub struct PlacedBreach<'a> {
    /// The number of the line in the policy, from 1 on.
    pub line: usize,
    /// The column of the line's first token in bytes, from 1 on.
    pub column: usize,
    /// The path of the client, or of the component with a larger budget.
    pub client: &'a [u8],
    /// The path of the server, or none if the breach is one of a budget.
    pub server: Option<&'a [u8]>,
    /// The message of the breach.
    pub text: String,
}

impl<'a> Model for PlacedBreach<'a> {
    ghost use Rattle.std.specs.Prelude.{string_bytes};
    ghost use Rattle.std.specs.Option.{option_copied};
    ghost use Rattle.list_diff.specs.PlacedBreaches.{BreachAt};

    ghost Value = { BreachAt };

    ghost view = { λ breach. record {
      place = record {
        line = breach.line;
        column = breach.column;
        client = breach.client.now;
        server = option_copied breach.server;
      };
      text = string_bytes breach.text;
    } };
}

/// Returns the breaches of a policy's lines, which are those for a start list, by this list: line by line. Fails if the host is out of
/// memory.
pub fn placed_breaches<'a>(
    alloc: Global,
    list: &'a StartList,
    lines: &[PolicyLine],
) -> Result<Vec<PlacedBreach<'a>>, AllocError>
    ensures { IfOk result (λ found. ArePlaced list.now (map line_at lines.now) found.items) }
{
    let mut found = Vec::new(alloc);
    for place in 0..lines.len() {
        add_breaches(alloc, &mut found, list, &lines[place])?;
    }
    Ok(found)
}

// Adds the breaches of a line.
fn add_breaches<'a>(
    alloc: Global,
    found: &mut Vec<PlacedBreach<'a>>,
    list: &'a StartList,
    line: &PolicyLine,
) -> Result<(), AllocError>
    ensures { OnOk result
        (AddsBreaches list.now (line_at line.now) (places found.old.items) (places found.new.items)) }
{
    let breaches = line.breaches(alloc, list)?;
    add_placed(alloc, found, list, line, breaches.as_slice())
}

// Adds these breaches of a line.
fn add_placed<'a>(
    alloc: Global,
    found: &mut Vec<PlacedBreach<'a>>,
    list: &'a StartList,
    line: &PolicyLine,
    breaches: &[Breach],
) -> Result<(), AllocError>
    ensures { OnOk result (places found.new.items
        ≡ places found.old.items ++ map (place_at list.now (line_at line.now)) breaches.now) }
{
    for breach in breaches {
        let one = placed(alloc, list, line, breach)?;
        found.push(one)?;
    }
    Ok(())
}

// A breach of a line, by the paths of its components.
fn placed<'a>(
    alloc: Global,
    list: &'a StartList,
    line: &PolicyLine,
    breach: &Breach,
) -> Result<PlacedBreach<'a>, AllocError>
    ensures { IfOk result (λ one. one.place ≡ place_at list.now (line_at line.now) breach.now) }
{
    let text = BreachText::of(alloc, list, line, breach)?.to_string(alloc)?;
    let (client, server) = paths_of(list, breach);
    Ok(PlacedBreach {
        line: line.number,
        column: line.column,
        client,
        server,
        text,
    })
}

// The paths of the components of a breach.
fn paths_of<'a>(list: &'a StartList, breach: &Breach) -> (&'a [u8], Option<&'a [u8]>)
    ensures client { result.0.now ≡ (paths_of list.now breach.now).0 }
    ensures server { option_copied result.1 ≡ (paths_of list.now breach.now).1 }
{
    match breach {
        Breach::Reach(breach) => (
            path_of(list, breach.client),
            Some(path_of(list, breach.server)),
        ),
        Breach::Excess(number) => (path_of(list, *number), None),
    }
}

// The path of the component of a number; of no component an empty one.
fn path_of(list: &StartList, number: usize) -> &[u8]
    ensures { result.now ≡ path_of list.now number }
{
    match list.entries().get(number) {
        Some(entry) => entry.path(),
        None => &[],
    }
}
