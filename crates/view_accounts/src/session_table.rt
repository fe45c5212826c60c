//! Values of sessions by the component that has the session and the selector that names it.
ghost use Rattle.std.specs.Prelude.{◌≡◌, ◌<◌, ◌==◌, ◌&&◌, ℕ, length, Some, None, OnOk, if◌then◌else◌};
ghost use Rattle.std.specs.Option.{option_map};
ghost use Rattle.view_accounts.specs.SessionTable.{row_value, row_of, value_at};

use std::alloc::{AllocError, Global};
use std::mem;

/// Values of sessions. It finds, sets and takes one without a search.
#[derive(Drop)]
pub(crate) struct SessionTable<T: Drop> {
    alloc: Global,
    // For each component, the values by selectors.
    rows: Vec<Vec<Option<T>>>,
}

impl<T: Drop> SessionTable<T> {
    /// Creates an empty table.
    pub(crate) fn new(alloc: Global) -> SessionTable<T>
        ensures { (component selector : ℕ) → value_at result component selector ≡ None }
    {
        SessionTable {
            alloc,
            rows: Vec::new(alloc),
        }
    }

    /// Returns the value under a selector of a component, or `None` if there is none.
    pub(crate) fn get(&self, component: usize, selector: u64) -> Option<&T>
        ensures { option_map (λ value. value.now) result ≡ value_at self.now component selector }
    {
        match self.rows.get(component) {
            Some(row) => row_value(row.as_slice(), selector),
            None => None,
        }
    }

    /// Sets the value under a selector of a component. An error is out of memory.
    pub(crate) fn set(
        &mut self,
        component: usize,
        selector: u64,
        value: T,
    ) -> Result<(), AllocError>
        ensures { OnOk result ((c q : ℕ) → value_at self.new c q
            ≡ (if c == component && q == selector then Some value else value_at self.old c q)) }
    {
        add_rows(&mut self.rows, component, self.alloc)?;
        set_cell(&mut self.rows[component], selector, value)
    }

    /// Takes the value under a selector of a component out, or returns `None` if there is none.
    pub(crate) fn take(&mut self, component: usize, selector: u64) -> Option<T>
        ensures taken { result ≡ value_at self.old component selector }
        ensures left { (c q : ℕ) → value_at self.new c q
            ≡ (if c == component && q == selector then None else value_at self.old c q) }
    {
        if component < self.rows.len() {
            take_cell(&mut self.rows[component], selector)
        } else {
            None
        }
    }

    /// Takes all values of a component out, and returns them by their selectors.
    pub(crate) fn take_all(&mut self, component: usize) -> Vec<Option<T>>
        ensures taken { result.items ≡ row_of self.old.rows.items component }
        ensures left { (c q : ℕ) → value_at self.new c q
            ≡ (if c == component then None else value_at self.old c q) }
    {
        let none = Vec::new(self.alloc);
        if component < self.rows.len() {
            mem::replace(&mut self.rows[component], none)
        } else {
            none
        }
    }
}

// The value of a row under a selector, or `None` if there is none.
fn row_value<T>(row: &[Option<T>], selector: u64) -> Option<&T>
    ensures { option_map (λ value. value.now) result ≡ row_value row.now selector }
{
    match row.get(selector as usize) {
        Some(Some(value)) => Some(value),
        _ => None,
    }
}

// Sets the value of a row under a selector.
fn set_cell<T: Drop>(row: &mut Vec<Option<T>>, selector: u64, value: T) -> Result<(), AllocError>
    ensures { OnOk result ((q : ℕ) → row_value row.new.items q
        ≡ (if q == selector then Some value else row_value row.old.items q)) }
{
    let place = selector as usize;
    add_cells(row, place)?;
    row[place] = Some(value);
    Ok(())
}

// Takes the value of a row under a selector out.
fn take_cell<T: Drop>(row: &mut Vec<Option<T>>, selector: u64) -> Option<T>
    ensures taken { result ≡ row_value row.old.items selector }
    ensures left { (q : ℕ) → row_value row.new.items q
        ≡ (if q == selector then None else row_value row.old.items q) }
{
    let place = selector as usize;
    if place < row.len() {
        row[place].take()
    } else {
        None
    }
}

// Adds empty rows until there is one of a component.
fn add_rows<T: Drop>(
    rows: &mut Vec<Vec<Option<T>>>,
    component: usize,
    alloc: Global,
) -> Result<(), AllocError>
    ensures same { (c : ℕ) → row_of rows.new.items c ≡ row_of rows.old.items c }
    ensures there { OnOk result (component < length rows.new.items) }
{
    while rows.len() <= component {
        rows.push(Vec::new(alloc))?;
    }
    Ok(())
}

// Adds empty places to a row until there is one of a selector.
fn add_cells<T: Drop>(row: &mut Vec<Option<T>>, place: usize) -> Result<(), AllocError>
    ensures same { (q : ℕ) → row_value row.new.items q ≡ row_value row.old.items q }
    ensures there { OnOk result (place < length row.new.items) }
{
    while row.len() <= place {
        row.push(None)?;
    }
    Ok(())
}
