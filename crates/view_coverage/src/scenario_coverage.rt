//! The coverage of a scenario, by its calls.
ghost use Rattle.std.specs.Prelude.{◌≡◌, ◌∷◌, [], IfOk, OnOk, Some, map};
ghost use Rattle.core_calls.specs.Call.{model_call};
ghost use Rattle.view_coverage.specs.Covered.{answer_of, evidence_of, row_by, row_with, rows_after, rows_of};

use crate::deciding_rules::{asked_in, request_of, rules_of_request};
use crate::row::{CallEvidence, CoverageRow};
use crate::table::rows_of;
use core_calls::{Answer, Call};
use line_grammar::read_line;
use list_parser::StartList;
use run_exchanges::Exchange;
use std::alloc::{AllocError, Global};

/// The coverage of a machine by a scenario.
#[derive(Drop)]
pub struct Coverage {
    /// The rows of each rule of the start list, and of each of its scripts and each service that it provides.
    pub rows: Vec<CoverageRow>,
}

/// Returns the coverage of a start list's machine by a scenario's calls with their replies. It has each rule, and each script by
/// service, and whether some call shows it. Fails if the host is out of memory.
pub fn cover(
    alloc: Global,
    list: &StartList,
    exchanges: &[Exchange],
) -> Result<Coverage, AllocError>
    ensures { IfOk result (λ coverage. coverage.rows.items
        ≡ map (row_by list.now (map answer_of exchanges.now)) (rows_of list.now)) }
{
    let mut rows = rows_of(alloc, list)?;
    note_all(alloc, list, exchanges, rows.as_mut_slice())?;
    Ok(Coverage { rows })
}

// Marks the rows that calls show.
fn note_all(
    alloc: Global,
    list: &StartList,
    exchanges: &[Exchange],
    rows: &mut [CoverageRow],
) -> Result<(), AllocError>
    ensures { OnOk result (rows.new ≡ rows_after list.now (map answer_of exchanges.now) rows.old) }
{
    for exchange in exchanges {
        note(alloc, list, exchange, rows)?;
    }
    Ok(())
}

// Marks the rows that an answered line shows.
fn note(
    alloc: Global,
    list: &StartList,
    exchange: &Exchange,
    rows: &mut [CoverageRow],
) -> Result<(), AllocError>
    ensures { OnOk result (rows.new
        ≡ rows_after list.now (answer_of exchange.now ∷ []) rows.old) }
{
    match read_line(exchange.line()) {
        Ok((name, call)) => note_call(alloc, list, name, call, exchange.answer(), rows),
        Err(_) => {
            let answered = CallEvidence {
                asked: None,
                rules: &[],
            };
            answered.note(rows);
            Ok(())
        }
    }
}

// Marks the rows that a component's call shows by its reply.
fn note_call(
    alloc: Global,
    list: &StartList,
    name: &[u8],
    call: Call<'_>,
    answer: Answer<'_>,
    rows: &mut [CoverageRow],
) -> Result<(), AllocError>
    ensures { OnOk result (rows.new ≡ map (row_with (evidence_of list.now
        (Some (record { name = name.now; call = model_call call.entry }))
        answer.entry.text.now)) rows.old) }
{
    let request = request_of(list, name, call, answer);
    let rules = rules_of_request(alloc, list, request)?;
    let answered = CallEvidence {
        asked: asked_in(list, request),
        rules: rules.as_slice(),
    };
    answered.note(rows);
    Ok(())
}
