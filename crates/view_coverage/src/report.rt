//! The coverage of all scenarios: which rules decide a session request, and which script requests which service, in total and by
//! file.
ghost use Rattle.std.specs.Prelude.{◌≡◌, ◌++◌, ◌∷◌, [], count_by, length, map, string_bytes, IfOk, OnOk, Some};
ghost use Rattle.view_coverage.specs.Records.{path_at, times_of};
ghost use Rattle.std.specs.Option.{option_and_then};
ghost use Rattle.view_coverage.specs.Names.{names_by, names_in, owner_number, path_of, requested_service, rule_name, rule_text, script_path};
ghost use Rattle.view_coverage.specs.Reported.{is_covered, list_at, list_of_scenario, meets_part, part_of, parts_from, parts_in, parts_with, paths_in, paths_with, place_of, rows_in};

use crate::event::{CoverageEvent, RouteOwner, RulePlace, ScriptService};
use crate::row::CoverageRow;
use crate::scenario_coverage::Coverage;
use list_parser::{Path, StartList};
use list_reach::service_name;
use std::alloc::{AllocError, Global};

/// A report on the coverage of the scenarios of some files.
#[derive(Drop)]
pub struct CoverageReport {
    alloc: Global,
    /// The paths of the start lists.
    pub(crate) lists: Vec<String>,
    /// The parts of each start list, in the order of the start lists.
    pub(crate) parts: Vec<CoveragePart>,
    pub(crate) sheets: Vec<CoverageSheet>,
}

/// A part of a start list that scenarios cover.
#[derive(Drop)]
pub(crate) struct CoveragePart {
    /// The place of the start list.
    pub list: usize,
    /// The place of the part's row.
    pub place: usize,
    pub name: PartName,
}

/// The kind of a part of a start list.
#[derive(Clone, Copy)]
pub(crate) enum PartKind {
    /// A rule of a route.
    Rule,
    /// The session requests of a script for a service.
    Request,
}

impl CoveragePart {
    ghost use Rattle.std.specs.Prelude.{◌≡◌};
    ghost use Rattle.view_coverage.specs.Reported.{is_covered};

    /// Returns whether the part is of this kind, and of the start list at this place.
    pub(crate) fn is_of(&self, list: usize, kind: PartKind) -> bool {
        self.list == list
            && match kind {
                PartKind::Rule => matches!(self.name, PartName::Rule(_)),
                PartKind::Request => matches!(self.name, PartName::Request(_, _)),
            }
    }

    /// Returns whether one of these scenarios is of the part's start list and meets the part's row.
    pub(crate) fn is_covered(&self, sheets: &[CoverageSheet]) -> bool
        ensures { result ≡ is_covered sheets.now self.now }
    {
        sheets.iter().any(|sheet| sheet.meets_part(self))
    }
}

/// The name of a part of a start list.
#[derive(Drop)]
pub(crate) enum PartName {
    /// A rule, by its place in its route and the owner of the route.
    Rule(String),
    /// The session requests of the script with the first path for the service with the second name.
    Request(String, String),
}

/// The number of rules and session requests of all start lists, and the number of those that scenarios cover.
#[derive(Clone, Copy)]
pub struct CoverageCount {
    pub covered: usize,
    pub all: usize,
}

impl CoverageCount {
    ghost use Rattle.std.specs.Prelude.{◌≡◌};
    ghost use Rattle.view_coverage.specs.Reported.{falls_short};

    /// Returns whether fewer than this percentage are covered.
    pub fn falls_short(self, percent: u8) -> bool
        ensures { result ≡ falls_short percent self.covered self.all }
    {
        self.covered as u128 * 100 < percent as u128 * self.all as u128
    }
}

/// The coverage of one scenario.
#[derive(Drop)]
pub(crate) struct CoverageSheet {
    pub path: String,
    /// The place of its start list.
    pub list: usize,
    pub rows: Vec<CoverageRow>,
}

impl CoverageReport {
    /// Returns a report without scenarios, to which scenarios are added.
    pub fn new(alloc: Global) -> CoverageReport
        ensures paths { paths_in result ≡ [] }
        ensures parts { parts_in result ≡ [] }
        ensures rows { rows_in result ≡ [] }
    {
        CoverageReport {
            alloc,
            lists: Vec::new(alloc),
            parts: Vec::new(alloc),
            sheets: Vec::new(alloc),
        }
    }

    /// Adds the coverage of a scenario on the machine of a start list, each with its path. A start list that is new adds its parts.
    /// Fails if the host is out of memory.
    #[tactic(auto, using(crate::proofs::PlaceLemmas::added_on))]
    pub fn add(
        &mut self,
        list: &StartList,
        path: &str,
        scenario: &str,
        coverage: Coverage,
    ) -> Result<(), AllocError>
        ensures list { OnOk result
            (list_of_scenario self.new (length self.old.sheets.items) ≡ Some path.now) }
        ensures rows { OnOk result (rows_in self.new ≡ rows_in self.old ++ coverage.rows.items ∷ []) }
        ensures paths { OnOk result (paths_in self.new ≡ paths_with self.old path.now) }
        ensures parts { OnOk result
            (parts_in self.new ≡ parts_with self.old list.now path.now coverage.rows.items) }
    {
        let place = self.place_of(list, path, coverage.rows.as_slice())?;
        self.sheets.push(CoverageSheet {
            path: String::from_str(self.alloc, scenario)?,
            list: place,
            rows: coverage.rows,
        })?;
        Ok(())
    }

    /// Returns how many rules and session requests the start lists have, and how many of them their scenarios cover.
    pub fn count(&self) -> CoverageCount
        ensures all { result.all ≡ length self.now.parts.items }
        ensures covered { result.covered
            ≡ count_by (is_covered self.now.sheets.items) self.now.parts.items }
    {
        CoverageCount {
            all: self.parts.len(),
            covered: covered_in(self.sheets.as_slice(), self.parts.as_slice()),
        }
    }

    // Returns the place of the start list of this path, which is added with its parts if it isn't there.
    #[tactic(auto, using(crate::proofs::PlaceLemmas::found_at, crate::proofs::PlaceLemmas::last_is))]
    fn place_of(
        &mut self,
        list: &StartList,
        path: &str,
        rows: &[CoverageRow],
    ) -> Result<usize, AllocError>
        ensures sheets { self.new.sheets ≡ self.old.sheets }
        ensures place { IfOk result (λ place. list_at self.new.lists.items place ≡ Some path.now) }
        ensures paths { OnOk result (paths_in self.new ≡ paths_with self.old path.now) }
        ensures parts { OnOk result (parts_in self.new ≡ parts_with self.old list.now path.now rows.now) }
    {
        if let Some(place) = place_in(self.lists.as_slice(), path) {
            return Ok(place);
        }
        let place = self.lists.len();
        add_parts(self.alloc, list, place, rows, &mut self.parts)?;
        self.lists.push(String::from_str(self.alloc, path)?)?;
        Ok(place)
    }

    /// Returns how many scenarios of its start list meet a part.
    pub(crate) fn times_of(&self, part: &CoveragePart) -> usize
        ensures { result ≡ times_of self.now part.now }
    {
        meeting(self.sheets.as_slice(), part)
    }

    /// Returns the path of the start list at a place, which is empty if there is none.
    pub(crate) fn path_at(&self, list: usize) -> &str
        ensures { result.now ≡ path_at self.now list }
    {
        match self.lists.get(list) {
            Some(path) => path.as_str(),
            None => "",
        }
    }
}

impl CoverageSheet {
    ghost use Rattle.std.specs.Prelude.{◌≡◌};
    ghost use Rattle.view_coverage.specs.Reported.{is_met_in, meets_part};

    /// Returns whether the scenario meets the row at a place.
    pub(crate) fn meets(&self, place: usize) -> bool
        ensures { result ≡ is_met_in self.now place }
    {
        match self.rows.get(place) {
            Some(row) => row.met,
            None => false,
        }
    }

    /// Returns whether the scenario is of the start list of a part, and meets its row.
    pub(crate) fn meets_part(&self, part: &CoveragePart) -> bool
        ensures { result ≡ meets_part self.now part.now }
    {
        self.list == part.list && self.meets(part.place)
    }
}

// Returns the place of the start list of a path, if it is there.
fn place_in(lists: &[String], path: &str) -> Option<usize>
    ensures { result ≡ place_of lists.now path.now }
{
    lists.iter().position(|list| list.as_str() == path)
}

// Returns how many of these parts are covered by these scenarios.
fn covered_in(sheets: &[CoverageSheet], parts: &[CoveragePart]) -> usize
    ensures { result ≡ count_by (is_covered sheets.now) parts.now }
{
    parts.iter().filter(|part| part.is_covered(sheets)).count()
}

// Returns how many of these scenarios meet a part.
fn meeting(sheets: &[CoverageSheet], part: &CoveragePart) -> usize
    ensures { result ≡ count_by (λ sheet. meets_part sheet part.now) sheets.now }
{
    sheets.iter().filter(|sheet| sheet.meets_part(part)).count()
}

// Adds the parts of the start list at a place, one for each row.
fn add_parts(
    alloc: Global,
    list: &StartList,
    number: usize,
    rows: &[CoverageRow],
    parts: &mut Vec<CoveragePart>,
) -> Result<(), AllocError>
    ensures { OnOk result (map part_of parts.new.items
        ≡ map part_of parts.old.items ++ parts_from list.now number 0 rows.now) }
{
    for place in 0..rows.len() {
        let name = part_name(alloc, list, rows[place].event)?;
        parts.push(CoveragePart {
            list: number,
            place,
            name,
        })?;
    }
    Ok(())
}

// Returns the name of the part of an event.
fn part_name(alloc: Global, list: &StartList, event: CoverageEvent) -> Result<PartName, AllocError>
    ensures { IfOk result (λ name. names_in name ≡ names_by list.now event) }
{
    match event {
        CoverageEvent::Decided(rule) => {
            let name = rule_name(alloc, list, rule)?;
            Ok(PartName::Rule(name))
        }
        CoverageEvent::Requested(asked) => {
            let path = script_path(alloc, list, asked)?;
            let service = asked_service(alloc, list, asked)?;
            Ok(PartName::Request(path, service))
        }
    }
}

// Returns the path of a script, which is empty if the start list has no component of its number.
fn script_path(alloc: Global, list: &StartList, asked: ScriptService) -> Result<String, AllocError>
    ensures { IfOk result (λ path. string_bytes path ≡ script_path list.now asked.client) }
{
    match path_of(list, asked.client) {
        Some(path) => String::from_str(alloc, path.as_str()),
        None => Ok(String::new(alloc)),
    }
}

// Returns the path of the component of a number, if there is one.
fn path_of(list: &StartList, number: usize) -> Option<Path>
    ensures { result ≡ path_of list.now number }
{
    let entry = list.entries().get(number)?;
    Some(entry.to_path())
}

// Returns the name of a service, which is empty if the start list has no service of its number.
#[tactic(auto, using(crate::proofs::PlaceLemmas::no_service))]
fn asked_service(
    alloc: Global,
    list: &StartList,
    asked: ScriptService,
) -> Result<String, AllocError>
    ensures { IfOk result (λ name. string_bytes name ≡ requested_service list.now asked.service) }
{
    if asked.service < list.service_count() {
        String::from_str(alloc, service_name(list, asked.service))
    } else {
        Ok(String::new(alloc))
    }
}

// Returns the name of a rule: its place in its route, and whose route that is, unless it is the machine's.
fn rule_name(alloc: Global, list: &StartList, rule: RulePlace) -> Result<String, AllocError>
    ensures { IfOk result (λ name. string_bytes name ≡ rule_name list.now rule) }
{
    let owner = owner_path(list, rule.route);
    rule_text(alloc, rule.route.word(), rule.place, owner)
}

// Returns a rule of a route by its place, and the path of the component whose route it is, if there is one.
fn rule_text(
    alloc: Global,
    route: &str,
    place: usize,
    owner: Option<Path>,
) -> Result<String, AllocError>
    ensures { IfOk result (λ name. string_bytes name ≡ rule_text route.now place owner) }
{
    match owner {
        Some(path) => format!(in alloc; "{route}[{place}] of {}", path.as_str()),
        None => format!(in alloc; "{route}[{place}]"),
    }
}

// Returns the path of the component whose route this is, unless it is the machine's.
fn owner_path(list: &StartList, route: RouteOwner) -> Option<Path>
    ensures { result ≡ option_and_then (path_of list.now) (owner_number route) }
{
    path_of(list, route.number()?)
}
