//! What a component is, as cells of records: the word of its binary, its service, its reserve, and the kinds of objects that a
//! declared server offers; the kinds also as text.
ghost use Rattle.std.specs.Prelude.{◌≡◌, IfOk, map};
ghost use Rattle.std.specs.Option.{option_map};
ghost use Rattle.core_calls.specs.Quotas.{reserve_amounts};
ghost use Rattle.list_parser.specs.View.{model_binary};
ghost use Rattle.own_model.specs.Amounts.{Amounts};
ghost use Rattle.view_records.specs.Cells.{cell_data};
ghost use Rattle.view_records.specs.JsonTexts.{list_data};
ghost use Rattle.view_records.specs.Lists.{records_of};
ghost use Rattle.view_records.specs.Records.{if_number};
ghost use Rattle.list_parts.specs.Kinds.{binary_word, kind_record, kinds_data, kinds_in, provided_cell};

use core_calls::Reserve;
use list_parser::{Binary, ListEntry};
use object_kinds::ObjectKind;
use std::alloc::{AllocError, Global};
use std::fmt;
use view_records::{Cell, RecordList};

/// Returns the word for a binary, as a start list has it.
#[tactic(auto, using(crate::proofs::WordLemmas::word_is))]
pub fn binary_word(binary: &Binary) -> &'static str
    ensures { result.now ≡ binary_word (model_binary binary.now) }
{
    binary.as_str()
}

// Returns the kinds that a server declares.
fn declared_kinds(binary: &Binary) -> Option<&[ObjectKind]>
    ensures { option_map (λ kinds. kinds.now) result ≡ kinds_in (model_binary binary.now) }
{
    match binary {
        Binary::Declared(service) => Some(service.kinds()),
        Binary::Script | Binary::Server(_) | Binary::Init => None,
    }
}

/// The kinds of a declared server as text, after another text. The text of other binaries is empty.
#[derive(Drop)]
pub struct KindsText<'a> {
    before: &'a str,
    binary: &'a Binary,
}

impl<'a> KindsText<'a> {
    /// Returns the kinds of a binary, after a text.
    pub fn of(before: &'a str, binary: &'a Binary) -> KindsText<'a> {
        KindsText { before, binary }
    }
}

impl fmt::Display for KindsText<'_> {
    fn fmt<W: fmt::Write>(&self, f: &mut fmt::Formatter<W>) -> fmt::Result {
        let Some(kinds) = declared_kinds(self.binary) else {
            return Ok(());
        };
        f.write_str(self.before)?;
        if kinds.is_empty() {
            return f.write_str("no kinds");
        }
        let mut before = "kinds ";
        for kind in kinds {
            let (name, block, bytes) = (kind.name(), kind.block(), kind.bytes());
            write!(f, "{before}{name} ({block} bytes, {bytes} a unit)")?;
            before = ", ";
        }
        Ok(())
    }
}

/// Returns a record for each kind of a declared server, and `None` for other binaries. Fails if the host is out of memory.
pub fn kinds_of(alloc: Global, binary: &Binary) -> Result<Option<RecordList>, AllocError>
    ensures { IfOk result (λ kinds. option_map (λ list. list_data (records_of list)) kinds
        ≡ kinds_data (model_binary binary.now)) }
{
    match declared_kinds(binary) {
        Some(kinds) => Ok(Some(kind_records(alloc, kinds)?)),
        None => Ok(None),
    }
}

/// Returns the service of a server, or null if the entry doesn't provide it. The cell of other entries is absent.
pub fn provided_cell(entry: &ListEntry) -> Cell<'_>
    ensures { cell_data result ≡ provided_cell entry.now }
{
    match entry.service() {
        Some(service) => if entry.provides() {
            Cell::Word(service)
        } else {
            Cell::Null
        },
        None => Cell::Absent,
    }
}

/// Returns the RAM and the capabilities of a reserve, if there is one.
pub fn reserve_cells<'a>(reserve: Option<Reserve>) -> (Cell<'a>, Cell<'a>)
    ensures ram { cell_data result.0
        ≡ if_number (option_map (λ (left : Amounts). left.ram) (option_map reserve_amounts reserve)) }
    ensures caps { cell_data result.1
        ≡ if_number (option_map (λ (left : Amounts). left.caps) (option_map reserve_amounts reserve)) }
{
    match reserve {
        Some(reserve) => (
            Cell::Number(reserve.ram.0),
            Cell::Number(u64::from(reserve.caps.0)),
        ),
        None => (Cell::Absent, Cell::Absent),
    }
}

// Returns a record for each of these kinds.
fn kind_records(alloc: Global, kinds: &[ObjectKind]) -> Result<RecordList, AllocError>
    ensures { IfOk result (λ records. records_of records ≡ map kind_record kinds.now) }
{
    let mut records = RecordList::new(alloc);
    for kind in kinds {
        records.add(&[
            ("kind", Cell::Word(kind.name())),
            ("block", Cell::Number(u64::from(kind.block()))),
            ("bytes", Cell::Number(u64::from(kind.bytes()))),
        ])?;
    }
    Ok(records)
}
