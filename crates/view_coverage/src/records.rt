//! The coverage of all scenarios as records.
ghost use Rattle.std.specs.Prelude.{◌≡◌, ◌∷◌, ◌++◌, [], flat_map, IfOk, OnOk};
ghost use Rattle.view_records.specs.Cells.{cell_data};
ghost use Rattle.view_records.specs.JsonTexts.{json_text};
ghost use Rattle.view_records.specs.Lists.{records_of};
ghost use Rattle.view_coverage.specs.Records.{coverage_records, kind_of_part, met_record, met_records, part_record, rule_cell, script_cell, service_cell};

use crate::report::{CoveragePart, CoverageReport, CoverageSheet, PartName};
use std::alloc::{AllocError, Global};
use view_records::{Cell, RecordList};

impl CoverageReport {
    /// Returns the report as JSON. It has a record for each rule and session request, with the number of scenarios that meet it. A
    /// record for each one that a scenario meets follows. Fails if the host is out of memory.
    pub fn document(&self, alloc: Global) -> Result<Vec<u8>, AllocError>
        ensures { IfOk result (λ text. text.items ≡ json_text (coverage_records self.now)) }
    {
        let mut records = RecordList::new(alloc);
        for part in &self.parts {
            add_part(&mut records, self, part)?;
        }
        for sheet in &self.sheets {
            add_sheet(&mut records, self, sheet)?;
        }
        records.to_json()
    }
}

// Adds a part of a start list, with the number of scenarios that meet it.
fn add_part<'a>(
    records: &mut RecordList,
    report: &'a CoverageReport,
    part: &'a CoveragePart,
) -> Result<(), AllocError>
    ensures { OnOk result
        (records_of records.new ≡ records_of records.old ++ part_record report.now part.now ∷ []) }
{
    let (rule, script, service) = name_cells(&part.name);
    records.add(&[
        ("kind", Cell::Word(kind_of_part(&part.name))),
        ("list", Cell::Word(report.path_at(part.list))),
        ("scenarios", Cell::Number(report.times_of(part) as u64)),
        ("rule", rule),
        ("script", script),
        ("service", service),
    ])
}

// Returns the word for the kind of a part.
fn kind_of_part(name: &PartName) -> &'static str
    ensures { result.now ≡ kind_of_part name.now }
{
    match name {
        PartName::Rule(_) => "rule",
        PartName::Request(_, _) => "session",
    }
}

// Returns the name of a rule, or a script and a service.
fn name_cells(name: &PartName) -> (Cell<'_>, Cell<'_>, Cell<'_>)
    ensures rule { cell_data result.0 ≡ rule_cell name.now }
    ensures script { cell_data result.1 ≡ script_cell name.now }
    ensures service { cell_data result.2 ≡ service_cell name.now }
{
    match name {
        PartName::Rule(rule) => (Cell::Word(rule.as_str()), Cell::Absent, Cell::Absent),
        PartName::Request(script, service) => (
            Cell::Absent,
            Cell::Word(script.as_str()),
            Cell::Word(service.as_str()),
        ),
    }
}

// Adds those parts of the start list of a scenario that the scenario meets.
fn add_sheet<'a>(
    records: &mut RecordList,
    report: &'a CoverageReport,
    sheet: &'a CoverageSheet,
) -> Result<(), AllocError>
    ensures { OnOk result (records_of records.new ≡ records_of records.old
        ++ flat_map (met_records report.now sheet.now) report.now.parts.items) }
{
    for part in &report.parts {
        add_met(records, report, sheet, part)?;
    }
    Ok(())
}

// Adds a part, if a scenario on its start list meets it.
fn add_met<'a>(
    records: &mut RecordList,
    report: &'a CoverageReport,
    sheet: &'a CoverageSheet,
    part: &'a CoveragePart,
) -> Result<(), AllocError>
    ensures { OnOk result (records_of records.new
        ≡ records_of records.old ++ met_records report.now sheet.now part.now) }
{
    if !sheet.meets_part(part) {
        return Ok(());
    }
    let (rule, script, service) = name_cells(&part.name);
    records.add(&[
        ("kind", Cell::Word("met")),
        ("scenario", Cell::Word(sheet.path.as_str())),
        ("list", Cell::Word(report.path_at(part.list))),
        ("rule", rule),
        ("script", script),
        ("service", service),
    ])
}
