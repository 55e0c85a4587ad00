ghost use Rattle.std.specs.Prelude.{◌≡◌, ◌+◌, ◌-◌, ◌<◌, ◌≤◌, codes, drop, if◌then◌else◌, length, map, pos, slice_index_or, take};
ghost use Rattle.std.specs.Fmt.{signed_decimal};
ghost use Rattle.std.specs.List.{join_with_byte};
ghost use Rattle.std.specs.Option.{option_copied};
ghost use Rattle.tcel_code.specs.Layout.{kind_of, states_of};
ghost use Rattle.tcel_core.specs.Cells.{words_of};
ghost use Rattle.tcel_core.specs.Frames.{state_words};
ghost use Rattle.tcel_image.specs.TraceText.{states_text, value_text};
ghost use Rattle.tcel_judge.specs.StateParts.{name_text, own_text, own_words};
ghost use Rattle.tcel_num.specs.Arithmetic.{holds};
ghost use Rattle.tcel_script.specs.Script.{same};
ghost use Rattle.tcel_trace.specs.Pieces.{more_numbers};
ghost use Rattle.tcel_trace.specs.Reading.{behind};

use tcel_core::{Cells, Keep, Var, VarKind};

/// Whether a text is that of the state variables, in order, with the words that stand first
/// (docs/formats.md).
pub(crate) fn is_state_text(text: &[u8], vars: &[Var], cells: &Cells) -> bool
    requires within { state_words vars.now ≤ length cells.now }
    requires small { state_words vars.now ≤ 4096 }
    ensures { result ≡ same text.now (states_text (states_of vars.now) cells.now) }
{
    match behind_states(text, vars, cells) {
        None => false,
        Some(rest) => rest.is_empty(),
    }
}

/// What stands behind the text of the state variables, where these bytes begin with it.
fn behind_states<'a>(text: &'a [u8], vars: &[Var], cells: &Cells) -> Option<&'a [u8]>
    requires within { state_words vars.now ≤ length cells.now }
    requires small { state_words vars.now ≤ 4096 }
    ensures { option_copied result ≡ behind (states_text (states_of vars.now) cells.now) text.now }
{
    let mut rest = text;
    let mut place = 0;
    for var in vars {
        rest = behind_own(rest, var, cells, place)?;
        place += own_words(var);
    }
    Some(rest)
}

/// What stands behind a state variable's name and value; its words begin at this place. Any other variable
/// has no text.
fn behind_own<'a>(text: &'a [u8], var: &Var, cells: &Cells, place: usize) -> Option<&'a [u8]>
    requires within { place + own_words var.now ≤ length cells.now }
    requires small { place + own_words var.now ≤ 4096 }
    ensures { option_copied result ≡ behind (own_text var.now (drop place cells.now)) text.now }
{
    match var.keep {
        Keep::Local | Keep::Temp => Some(text),
        Keep::State => {
            let name = behind(text, b" ")?;
            let sign = behind_name(name, var)?;
            let value = behind(sign, b"=")?;
            behind_value(value, var.kind, cells, place)
        }
    }
}

/// How many words a variable has in the state.
fn own_words(var: &Var) -> usize
    ensures { result ≡ own_words var.now }
{
    match (var.keep, var.kind) {
        (Keep::Local | Keep::Temp, _) => 0,
        (Keep::State, VarKind::Int | VarKind::Bool) => 1,
        (Keep::State, VarKind::Array(length)) => length as usize,
    }
}

/// What stands behind the variable's name.
fn behind_name<'a>(text: &'a [u8], var: &Var) -> Option<&'a [u8]>
    ensures { option_copied result ≡ behind (name_text var.now.name) text.now }
{
    match var.name {
        None => Some(text),
        Some(name) => behind(text, name.bytes()),
    }
}

/// What stands behind the value of a variable whose words begin at this place.
fn behind_value<'a>(text: &'a [u8], kind: VarKind, cells: &Cells, place: usize) -> Option<&'a [u8]>
    requires within { place + words_of kind ≤ length cells.now }
    requires small { place + words_of kind ≤ 4096 }
    ensures { option_copied result ≡ behind (value_text (kind_of kind) (take (words_of kind) (drop place cells.now))) text.now }
{
    match kind {
        VarKind::Int => behind_word(text, cells, place),
        VarKind::Bool => behind(text, truth_text(cells.word(place))),
        VarKind::Array(count) => {
            let numbers = behind(text, b"[")?;
            let end = behind_numbers(numbers, cells, place, place + count as usize)?;
            behind(end, b"]")
        }
    }
}

fn truth_text(word: i64) -> &'static [u8]
    ensures { result.now ≡ (if holds word then codes "true" else codes "false") }
{
    if word != 0 { b"true" } else { b"false" }
}

/// What stands behind the word of this place.
fn behind_word<'a>(text: &'a [u8], cells: &Cells, place: usize) -> Option<&'a [u8]>
    requires { place < length cells.now }
    ensures { option_copied result ≡ behind (signed_decimal (slice_index_or cells.now place (pos 0))) text.now }
{
    let mut digits = itoa::Buffer::new();
    behind(text, digits.format(cells.word(place)).as_bytes())
}

/// What stands behind the words of these places, with a comma between two.
fn behind_numbers<'a>(text: &'a [u8], cells: &Cells, from: usize, to: usize) -> Option<&'a [u8]>
    requires within { to ≤ length cells.now }
    ensures { option_copied result
        ≡ behind (join_with_byte 44 (map signed_decimal (take (to - from) (drop from cells.now)))) text.now }
{
    if from >= to {
        return Some(text);
    }
    let more = behind_word(text, cells, from)?;
    behind_more(more, cells, from + 1, to)
}

/// What stands behind the words of these places, each behind a comma.
fn behind_more<'a>(text: &'a [u8], cells: &Cells, from: usize, to: usize) -> Option<&'a [u8]>
    requires order { from ≤ to }
    requires within { to ≤ length cells.now }
    ensures { option_copied result ≡ behind (more_numbers (take (to - from) (drop from cells.now))) text.now }
{
    let mut rest = text;
    for place in from..to {
        let word = behind(rest, b",")?;
        rest = behind_word(word, cells, place)?;
    }
    Some(rest)
}

/// What stands behind this front, where the text has it.
fn behind<'a>(text: &'a [u8], front: &[u8]) -> Option<&'a [u8]>
    ensures { option_copied result ≡ behind front.now text.now }
{
    text.strip_prefix(front)
}
