//! A table of reach as text.
use crate::client_reach::Reach;
use crate::reach_cell::ReachCell;
use crate::reach_table::ReachTable;
use crate::texts::PathText;
use list_parser::StartList;
use std::alloc::{AllocError, Global};
use std::fmt::{self, Display};

/// The maximum number of bytes of a set of labels in a row; a longer set is below the table.
const LONGEST_SHOWN: usize = 40;

/// A table of reach as text: a row for each script and a column for each server, and below them the sets of labels that are too
/// long for a row.
#[derive(Drop)]
pub struct ReachText<'a> {
    list: &'a StartList,
    cells: Vec<CellText>,
    sets: Vec<String>,
}

// A cell's script and server by their numbers, and its labels or the name of their set.
#[derive(Drop)]
struct CellText {
    client: usize,
    server: usize,
    text: String,
}

impl<'a> ReachText<'a> {
    /// Returns a table as text. Fails if the host is out of memory.
    pub fn of(alloc: Global, table: &ReachTable<'a>) -> Result<ReachText<'a>, AllocError> {
        let mut sets = Vec::new(alloc);
        let mut cells = Vec::new(alloc);
        for cell in table.cells() {
            let text = row_text(alloc, &mut sets, cell)?;
            cells.push(CellText {
                client: cell.client,
                server: cell.server,
                text,
            })?;
        }
        Ok(ReachText {
            list: table.list,
            cells,
            sets,
        })
    }

    // The length of a component's path in bytes.
    fn path_length(&self, number: usize) -> usize {
        match self.list.entries().get(number) {
            Some(entry) => entry.path().len(),
            None => 0,
        }
    }

    // The length of the longest path of a script.
    fn margin(&self) -> usize {
        let mut most = 0;
        for cell in self.cells.as_slice() {
            most = self.path_length(cell.client).max(most);
        }
        most
    }

    // The length of the longest text of a server's column.
    fn width(&self, server: usize) -> usize {
        let mut most = self.path_length(server);
        for cell in self.cells.as_slice() {
            if cell.server == server {
                most = cell.text.len().max(most);
            }
        }
        most
    }

    // The rows, each after the end of the line before.
    fn show_rows<W: fmt::Write>(&self, f: &mut fmt::Formatter<W>) -> fmt::Result {
        let mut last = None;
        let mut gap = 0;
        for cell in self.cells.as_slice() {
            if !matches!(last, Some(client) if client == cell.client) {
                write!(f, "\n{}", PathText::of(self.list, cell.client))?;
                gap = self.margin().saturating_sub(self.path_length(cell.client));
                last = Some(cell.client);
            }
            show_gap(f, gap)?;
            f.write_str(cell.text.as_str())?;
            gap = self.width(cell.server).saturating_sub(cell.text.len());
        }
        f.write_str("\n")
    }
}

// The labels of a cell, with one of the shortest if the set isn't one label, or the name of the set if that is too long for a row.
// Adds the set unless it is there.
fn row_text(
    alloc: Global,
    sets: &mut Vec<String>,
    cell: &ReachCell<'_>,
) -> Result<String, AllocError> {
    let labels = &cell.labels;
    let text = match &cell.reach {
        Reach::Always => format!(in alloc; "always")?,
        Reach::By(_) if labels.is_one() => format!(in alloc; "{labels}")?,
        Reach::By(label) => format!(in alloc; "{labels} (as \"{label}\")")?,
        Reach::Never => format!(in alloc; "-")?,
    };
    if text.len() <= LONGEST_SHOWN {
        return Ok(text);
    }
    if let Some(place) = sets.iter().position(|set| set.as_str() == text.as_str()) {
        return format!(in alloc; "set {}", place + 1);
    }
    sets.push(text)?;
    format!(in alloc; "set {}", sets.len())
}

// Writes so many spaces, and two more.
fn show_gap<W: fmt::Write>(f: &mut fmt::Formatter<W>, gap: usize) -> fmt::Result {
    f.write_repeated(" ", gap)?;
    f.write_str("  ")
}

impl fmt::Display for ReachText<'_> {
    fn fmt<W: fmt::Write>(&self, f: &mut fmt::Formatter<W>) -> fmt::Result {
        let Some(first) = self.cells.as_slice().first() else {
            return f.write_str("no script, or no server\n");
        };
        let mut gap = self.margin();
        for cell in self.cells.as_slice() {
            if cell.client == first.client {
                show_gap(f, gap)?;
                PathText::of(self.list, cell.server).fmt(f)?;
                let length = self.path_length(cell.server);
                gap = self.width(cell.server).saturating_sub(length);
            }
        }
        self.show_rows(f)?;
        if self.sets.is_empty() {
            return Ok(());
        }
        for (place, set) in self.sets.as_slice().iter().enumerate() {
            write!(f, "\nset {}: {}", place + 1, set.as_str())?;
        }
        f.write_str("\n")
    }
}
