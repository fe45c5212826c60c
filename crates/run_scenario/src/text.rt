//! Pieces of text.
ghost use Rattle.std.specs.Prelude.{◌≡◌, ◌<◌, ◌++◌, [], length, false, is_err, IfSome, IfNone, Some, None};
ghost use Rattle.own_model.specs.Call.{Call as Said};
ghost use Rattle.own_model.specs.Listed.{start_list_of};
ghost use Rattle.own_model.specs.StartList.{entries_of};
ghost use Rattle.own_model.specs.Transcript.{heard_spoken};
ghost use Rattle.core_calls.specs.Call.{model_call};
ghost use Rattle.run_devices.specs.RunOutput.{OutputsUnless};
ghost use Rattle.line_grammar.specs.Read.{IsReadAs};
ghost use Rattle.run_scenario.specs.Said.{caller_by, said_in};

use core_calls::Call;
use itoa::{Buffer, Integer};
use line_friendly::next_word;
use list_parser::StartList;
use run_lines::{DeviceFault, NamedCall, Sink, WriteBuffer};

/// Returns the text of a line from a column, from 1 on, up to the next blank.
pub fn word_at(line: &[u8], column: usize) -> &[u8] {
    let (word, _) = next_word(&line[column.saturating_sub(1).min(line.len())..]);
    word
}

/// Gathers a number in decimal digits. The error is a failed write.
pub fn put_number<I: Integer, K: Sink>(
    number: I,
    gathered: &mut WriteBuffer,
    sink: &mut K,
) -> Result<(), DeviceFault>
    requires { K.has_failed sink.old ≡ false }
    ensures told { OutputsUnless result (K.contents sink.old) gathered.old
        (K.contents sink.new) gathered.new
        (I.text number) }
    ensures failing { K.has_failed sink.new ≡ is_err result }
{
    let mut digits = Buffer::new();
    gathered.put(sink, digits.format(number).as_bytes())
}

/// Gathers three texts, one after another. The error is a failed write.
pub fn put_three<K: Sink>(
    first: &[u8],
    then: &[u8],
    last: &[u8],
    gathered: &mut WriteBuffer,
    sink: &mut K,
) -> Result<(), DeviceFault>
    requires { K.has_failed sink.old ≡ false }
    ensures told { OutputsUnless result (K.contents sink.old) gathered.old
        (K.contents sink.new) gathered.new
        (first.now ++ then.now ++ last.now) }
    ensures failing { K.has_failed sink.new ≡ is_err result }
{
    gathered.put(sink, first)?;
    gathered.put(sink, then)?;
    gathered.put(sink, last)
}

/// Returns the name and the call of an engine's line, if it is a call. `call` is what was parsed of the line.
#[tactic(auto, using(crate::proofs::SaidLemmas::says))]
pub fn said_in<'a>(line: &[u8], call: Option<NamedCall<'a>>) -> Option<(&'a [u8], Call<'a>)>
    requires { IsReadAs line.now call }
    ensures value { IfSome result (λ said.
        said_in line.now ≡ Some (record { name = said.0.now; call = model_call said.1 })) }
    ensures none { IfNone result (said_in line.now ≡ None) }
{
    let _ = line;
    match call {
        Some(said) => Some((said.name, said.call)),
        None => None,
    }
}

/// Returns the component that has a name and can make calls: none if the name is unknown or an init's.
pub fn caller_of(list: &StartList, name: &[u8]) -> Option<usize>
    ensures heard { (call : Said) → heard_spoken (entries_of (start_list_of list.now))
        (Some (record { name = name.now; call = call }))
        ≡ caller_by name.now call result }
    ensures inside { IfSome result (λ component. component < length list.now.entries) }
{
    let component = list.find(name)?;
    if list.is_init(component) {
        None
    } else {
        Some(component)
    }
}
