ghost use Rattle.std.specs.Prelude.{◌≡◌, ◌+◌, ◌-◌, ◌<◌, ◌≤◌, ◌++◌, OnOk, codes, drop, if◌then◌else◌, length, map, pos, slice_index_or, take};
ghost use Rattle.std.specs.Fmt.{signed_decimal};
ghost use Rattle.std.specs.List.{join_with_byte};
ghost use Rattle.tcel_code.specs.Layout.{kind_of, states_of};
ghost use Rattle.tcel_core.specs.Cells.{words_of};
ghost use Rattle.tcel_core.specs.Frames.{state_words};
ghost use Rattle.tcel_image.specs.TraceText.{states_text, value_text};
ghost use Rattle.tcel_num.specs.Arithmetic.{holds};
ghost use Rattle.tcel_tool.specs.StateText.{name_text, own_text, own_words};
ghost use Rattle.tcel_trace.specs.Pieces.{more_numbers};

use crate::writing::{put, put_number};
use tcel_core::{Cells, Keep, Var, VarKind};
use tcel_num::{Name, NoMemory};

/// The names and values of the state variables, in order, with the words that stand first.
pub(crate) fn put_states(out: &mut Vec<u8>, vars: &[Var], cells: &Cells) -> Result<(), NoMemory>
    requires within { state_words vars.now ≤ length cells.now }
    requires small { state_words vars.now ≤ 4096 }
    ensures { OnOk result (out.new.items ≡ out.old.items ++ states_text (states_of vars.now) cells.now) }
{
    let mut place = 0;
    for var in vars {
        put_own(out, var, cells, place)?;
        place += own_words(var);
    }
    Ok(())
}

/// A state variable's name and value; its words begin at this place. Nothing for any other variable.
fn put_own(out: &mut Vec<u8>, var: &Var, cells: &Cells, place: usize) -> Result<(), NoMemory>
    requires within { place + own_words var.now ≤ length cells.now }
    requires small { place + own_words var.now ≤ 4096 }
    ensures { OnOk result (out.new.items ≡ out.old.items ++ own_text var.now (drop place cells.now)) }
{
    match var.keep {
        Keep::Local | Keep::Temp => Ok(()),
        Keep::State => {
            put(out, b" ")?;
            put_name(out, var.name)?;
            put(out, b"=")?;
            put_value(out, var.kind, cells, place)
        }
    }
}

/// How many words a variable has in the state.
fn own_words(var: &Var) -> usize
    ensures { result ≡ own_words var.now }
{
    match (var.keep, var.kind) {
        (Keep::Local | Keep::Temp, _) => 0,
        (Keep::State, VarKind::Int | VarKind::Bool) => 1,
        (Keep::State, VarKind::Array(length)) => length as usize,
    }
}

fn put_name(out: &mut Vec<u8>, name: Option<Name>) -> Result<(), NoMemory>
    ensures { OnOk result (out.new.items ≡ out.old.items ++ name_text name) }
{
    match name {
        None => Ok(()),
        Some(name) => put(out, name.bytes()),
    }
}

/// The value of a variable whose words begin at this place.
fn put_value(out: &mut Vec<u8>, kind: VarKind, cells: &Cells, place: usize) -> Result<(), NoMemory>
    requires within { place + words_of kind ≤ length cells.now }
    requires small { place + words_of kind ≤ 4096 }
    ensures { OnOk result (out.new.items ≡ out.old.items ++ value_text (kind_of kind) (take (words_of kind) (drop place cells.now))) }
{
    match kind {
        VarKind::Int => put_word(out, cells, place),
        VarKind::Bool => put(out, truth_text(cells.word(place))),
        VarKind::Array(count) => {
            put(out, b"[")?;
            put_numbers(out, cells, place, place + count as usize)?;
            put(out, b"]")
        }
    }
}

fn truth_text(word: i64) -> &'static [u8]
    ensures { result.now ≡ (if holds word then codes "true" else codes "false") }
{
    if word != 0 { b"true" } else { b"false" }
}

/// The word of this place.
fn put_word(out: &mut Vec<u8>, cells: &Cells, place: usize) -> Result<(), NoMemory>
    requires { place < length cells.now }
    ensures { OnOk result (out.new.items ≡ out.old.items ++ signed_decimal (slice_index_or cells.now place (pos 0))) }
{
    put_number(out, cells.word(place))
}

/// The words of these places, with a comma between two.
fn put_numbers(out: &mut Vec<u8>, cells: &Cells, from: usize, to: usize) -> Result<(), NoMemory>
    requires within { to ≤ length cells.now }
    ensures { OnOk result (out.new.items ≡ out.old.items ++ join_with_byte 44 (map signed_decimal (take (to - from) (drop from cells.now)))) }
{
    if from >= to {
        return Ok(());
    }
    put_word(out, cells, from)?;
    put_more(out, cells, from + 1, to)
}

/// The words of these places, each behind a comma.
fn put_more(out: &mut Vec<u8>, cells: &Cells, from: usize, to: usize) -> Result<(), NoMemory>
    requires order { from ≤ to }
    requires within { to ≤ length cells.now }
    ensures { OnOk result (out.new.items ≡ out.old.items ++ more_numbers (take (to - from) (drop from cells.now))) }
{
    for place in from..to {
        put(out, b",")?;
        put_word(out, cells, place)?;
    }
    Ok(())
}
