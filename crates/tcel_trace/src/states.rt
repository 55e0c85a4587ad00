ghost use Rattle.std.specs.Prelude.{◌≡◌, ◌+◌, ◌*◌, ◌≤◌, ◌++◌, pos, length, slice_index_or, codes, if◌then◌else◌};
ghost use Rattle.tcel_num.specs.Arithmetic.{holds};
ghost use Rattle.tcel_image.specs.Spelling.{state_words};
ghost use Rattle.tcel_image.specs.TraceText.{value_text, states_text};
ghost use Rattle.tcel_trace.specs.Pieces.{state_text};

use crate::buffer::Buffer;
use crate::numbers::{put_numbers, put_signed};
use tcel_image::{ImageState, StateKind};

fn first_word(words: &[i64]) -> i64
    ensures { result ≡ slice_index_or words.now 0 (pos 0) }
{
    words.first().copied().unwrap_or(0)
}

fn truth_text(word: i64) -> &'static str
    ensures { result.now ≡ (if holds word then codes "true" else codes "false") }
{
    if word != 0 { "true" } else { "false" }
}

fn put_value(buffer: &mut Buffer, kind: StateKind, words: &[i64])
    requires { length buffer.old.bytes + 20 + 21 * length words.now ≤ buffer.old.room }
    ensures bytes { buffer.new.bytes ≡ buffer.old.bytes ++ value_text kind words.now }
    ensures short { length buffer.new.bytes ≤ length buffer.old.bytes + 20 + 21 * length words.now }
    ensures room { buffer.old.room ≤ buffer.new.room }
{
    match kind {
        StateKind::Int => put_signed(buffer, first_word(words)),
        StateKind::Bool => buffer.push(truth_text(first_word(words)).as_bytes()),
        StateKind::Array => {
            buffer.push(b"[");
            put_numbers(buffer, words);
            buffer.push(b"]");
        }
    }
}

fn put_state(buffer: &mut Buffer, state: &ImageState, words: &[i64])
    requires { length buffer.old.bytes + 54 + 21 * length words.now ≤ buffer.old.room }
    ensures bytes { buffer.new.bytes ≡ buffer.old.bytes ++ state_text state.now words.now }
    ensures short { length buffer.new.bytes ≤ length buffer.old.bytes + 54 + 21 * length words.now }
    ensures room { buffer.old.room ≤ buffer.new.room }
{
    buffer.push(b" ");
    buffer.push(state.name.bytes());
    buffer.push(b"=");
    put_value(buffer, state.kind, words);
}

/// The states, in order, with the values of these words.
pub(crate) fn put_states(buffer: &mut Buffer, states: &[ImageState], words: &[i64])
    requires { length buffer.old.bytes + 54 * length states.now + 21 * state_words states.now ≤ buffer.old.room }
    ensures bytes { buffer.new.bytes ≡ buffer.old.bytes ++ states_text states.now words.now }
    ensures short { length buffer.new.bytes ≤ length buffer.old.bytes + 54 * length states.now + 21 * state_words states.now }
    ensures room { buffer.old.room ≤ buffer.new.room }
{
    let mut left = words;
    for state in states {
        let count = (state.words as usize).min(left.len());
        let (own, rest) = left.split_at(count);
        put_state(buffer, state, own);
        left = rest;
    }
}
