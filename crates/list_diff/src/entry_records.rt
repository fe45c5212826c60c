//! Changes of entries as records.
ghost use Rattle.std.specs.Prelude.{◌≡◌, ◌∷◌, ◌++◌, [], IfOk, OnOk};
ghost use Rattle.std.specs.Option.{option_copied, option_map};
ghost use Rattle.view_records.specs.Cells.{cell_data};
ghost use Rattle.view_records.specs.JsonTexts.{list_data};
ghost use Rattle.view_records.specs.Lists.{records_of};
ghost use Rattle.view_records.specs.Records.{if_text};
ghost use Rattle.list_diff.specs.EntryRecords.{change_record, data_in, entry_data, entry_record, kinds_by, some_entry};

use crate::entry_changes::EntryChange;
use list_parser::{ListEntry, StartList};
use list_parts::{binary_word, kinds_of, provided_cell, reserve_cells};
use std::alloc::{AllocError, Global};
use view_records::{Cell, RecordList};

/// Adds the record of a change of an entry. Fails if the host is out of memory.
pub(crate) fn add_change<'a>(
    alloc: Global,
    records: &mut RecordList,
    before: &'a StartList,
    after: &'a StartList,
    change: EntryChange,
) -> Result<(), AllocError>
    ensures { OnOk result (records_of records.new
        ≡ records_of records.old ++ change_record before.now after.now change ∷ []) }
{
    let (olds, news) = (before.entries(), after.entries());
    match change {
        EntryChange::Gone(number) => add_sides(alloc, records, "-", olds.get(number), None),
        EntryChange::Came(number) => add_sides(alloc, records, "+", None, news.get(number)),
        EntryChange::Changed(was, now) => {
            add_sides(alloc, records, "~", olds.get(was), news.get(now))
        }
    }
}

// Adds an entry as it was and as it is, if it is on both lists.
fn add_sides<'a>(
    alloc: Global,
    records: &mut RecordList,
    sign: &'static str,
    was: Option<&'a ListEntry>,
    now: Option<&'a ListEntry>,
) -> Result<(), AllocError>
    ensures { OnOk result (records_of records.new ≡ records_of records.old
        ++ entry_record sign.now (option_copied was.entry) (option_copied now.entry) ∷ []) }
{
    let old_kinds = kinds_by(alloc, was)?;
    let kinds = kinds_by(alloc, now)?;
    add_entry(records, sign, was, old_kinds.as_ref(), now, kinds.as_ref())
}

// Returns the kinds that an entry declares, if it is there and declares some.
fn kinds_by(alloc: Global, entry: Option<&ListEntry>) -> Result<Option<RecordList>, AllocError>
    ensures { IfOk result (λ kinds. option_map (λ list. list_data (records_of list)) kinds
        ≡ kinds_by (option_copied entry.entry)) }
{
    match entry {
        Some(entry) => kinds_of(alloc, entry.binary()),
        None => Ok(None),
    }
}

// Returns the path of an entry that one list or both have.
fn some_path<'a>(was: Option<&'a ListEntry>, now: Option<&'a ListEntry>) -> Cell<'a>
    ensures { cell_data result ≡ if_text (option_map (λ entry. entry.path)
        (some_entry (option_copied was.entry) (option_copied now.entry))) }
{
    match (was, now) {
        (_, Some(entry)) => Cell::Text(entry.path()),
        (Some(entry), None) => Cell::Text(entry.path()),
        (None, None) => Cell::Absent,
    }
}

// The cells of an entry: its binary, budget, reserve, service and kinds.
#[derive(Clone, Copy)]
pub(crate) struct EntryCells<'a> {
    pub(crate) binary: Cell<'a>,
    pub(crate) ram: Cell<'a>,
    pub(crate) caps: Cell<'a>,
    pub(crate) reserve_ram: Cell<'a>,
    pub(crate) reserve_caps: Cell<'a>,
    pub(crate) provides: Cell<'a>,
    pub(crate) kinds: Cell<'a>,
}

impl<'a> EntryCells<'a> {
    // Returns the cells of an entry with these kinds, or absent cells if there is no entry.
    fn of(entry: Option<&'a ListEntry>, kinds: Option<&'a RecordList>) -> EntryCells<'a>
        requires { option_map (λ list. list_data (records_of list)) (option_copied kinds)
            ≡ kinds_by (option_copied entry) }
        ensures { data_in result ≡ entry_data (option_copied entry.entry) }
    {
        let Some(entry) = entry else {
            return EntryCells {
                binary: Cell::Absent,
                ram: Cell::Absent,
                caps: Cell::Absent,
                reserve_ram: Cell::Absent,
                reserve_caps: Cell::Absent,
                provides: Cell::Absent,
                kinds: Cell::Absent,
            };
        };
        let (reserve_ram, reserve_caps) = reserve_cells(entry.reserve());
        EntryCells {
            binary: Cell::Word(binary_word(entry.binary())),
            ram: Cell::Number(entry.ram()),
            caps: Cell::Number(u64::from(entry.caps())),
            reserve_ram,
            reserve_caps,
            provides: provided_cell(entry),
            kinds: Cell::if_list(kinds),
        }
    }
}

// Adds an entry with these kinds as it was and as it is.
fn add_entry<'a>(
    records: &mut RecordList,
    sign: &'static str,
    was: Option<&'a ListEntry>,
    old_kinds: Option<&'a RecordList>,
    now: Option<&'a ListEntry>,
    kinds: Option<&'a RecordList>,
) -> Result<(), AllocError>
    requires was { option_map (λ list. list_data (records_of list)) (option_copied old_kinds)
        ≡ kinds_by (option_copied was) }
    requires now { option_map (λ list. list_data (records_of list)) (option_copied kinds)
        ≡ kinds_by (option_copied now) }
    ensures { OnOk result (records_of records.new ≡ records_of records.old
        ++ entry_record sign.now (option_copied was.entry) (option_copied now.entry) ∷ []) }
{
    let old = EntryCells::of(was, old_kinds);
    let new = EntryCells::of(now, kinds);
    records.add(&[
        ("kind", Cell::Word("entry")),
        ("change", Cell::Word(sign)),
        ("name", some_path(was, now)),
        ("was_binary", old.binary),
        ("was_ram", old.ram),
        ("was_caps", old.caps),
        ("was_reserve_ram", old.reserve_ram),
        ("was_reserve_caps", old.reserve_caps),
        ("was_provides", old.provides),
        ("was_kinds", old.kinds),
        ("binary", new.binary),
        ("ram", new.ram),
        ("caps", new.caps),
        ("reserve_ram", new.reserve_ram),
        ("reserve_caps", new.reserve_caps),
        ("provides", new.provides),
        ("kinds", new.kinds),
    ])
}
