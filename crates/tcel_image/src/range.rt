ghost use Rattle.std.specs.Prelude.{◌<◌, ◌≤◌, ◌↔◌, length, All, IsTrue, FitsSigned};
ghost use Rattle.std.specs.Option.{SomeIff};
ghost use Rattle.std.specs.Int.{w64, IsInRange};
ghost use Rattle.tcel_target.specs.Costs.{cost_of, CostsInRange, IsCost};
ghost use Rattle.tcel_image.specs.Spelling.{InstrInRange, IsLength, NamesInRange, StatesInRange, CodeInRange, InRange, state_words, most_words};

use crate::image::{Image, ImageState, ImageTask, Instr, Line};
use crate::reading::most_words;
use tcel_num::Name;
use tcel_target::{CostKey, Costs};

/// What stands many times in an image, within the ranges of its fields or not. A `Name` and an `i64` are so
/// by their type.
trait Ranged {
    ghost fits: { Self → Type 0 };

    fn is_in_range(&self) -> bool
        ensures { IsTrue result ↔ fits self.now };
}

fn all_in_range<T: Ranged>(items: &[T]) -> bool
    ensures { IsTrue result ↔ All T.fits items.now }
{
    for item in items {
        if !item.is_in_range() {
            return false;
        }
    }
    true
}

impl Ranged for Name {
    ghost use Rattle.tcel_num.specs.Name.{IsName};

    ghost fits = { IsName };

    fn is_in_range(&self) -> bool {
        let _bytes = self.bytes();
        true
    }
}

impl Ranged for i64 {
    ghost fits = { FitsSigned w64 };

    fn is_in_range(&self) -> bool {
        let _value = *self;
        true
    }
}

fn is_length(number: u32) -> bool
    ensures { IsTrue result ↔ IsLength number }
{
    1 <= number && number <= 4096
}

fn instr_in_range(instr: Instr) -> bool
    ensures { IsTrue result ↔ InstrInRange instr }
{
    match instr {
        Instr::GetAt(_, length) | Instr::PutAt(_, length) => is_length(length),
        Instr::Loop(_, turns, _) => is_length(turns),
        Instr::Hold(bound) => 1 <= bound && bound <= 1_000_000_000,
        Instr::Copy(_, _, length) => is_length(length),
        _ => true,
    }
}

impl Ranged for Line {
    ghost use Rattle.tcel_image.specs.Spelling.{LineInRange};

    ghost fits = { LineInRange };

    fn is_in_range(&self) -> bool {
        let _depth = self.depth;
        instr_in_range(self.instr)
    }
}

fn names_in_range(names: &[Name]) -> bool
    ensures { IsTrue result ↔ NamesInRange names.now }
{
    names.len() <= 256 && all_in_range(names)
}

impl Ranged for ImageState {
    ghost use Rattle.tcel_image.specs.Spelling.{StateInRange};

    ghost fits = { StateInRange };

    fn is_in_range(&self) -> bool {
        let words = self.words;
        let counted = 1 <= words && words <= most_words(self.kind);
        counted
            && self.first.len() == words as usize
            && self.name.is_in_range()
            && all_in_range(self.first.as_slice())
    }
}

/// The words of all states together; None above 4,096.
fn words_of(states: &[ImageState]) -> Option<u32>
    ensures { SomeIff result (state_words states.now ≤ 4096) (state_words states.now) }
{
    let mut words = 0u32;
    for state in states {
        let more = state.words;
        if more > 4096 - words {
            return None;
        }
        words += more;
    }
    Some(words)
}

fn states_in_range(states: &[ImageState]) -> bool
    ensures { IsTrue result ↔ StatesInRange states.now }
{
    states.len() <= 256 && words_of(states).is_some() && all_in_range(states)
}

fn code_in_range(lines: &[Line]) -> bool
    ensures { IsTrue result ↔ CodeInRange lines.now }
{
    let count = lines.len();
    1 <= count && count <= 65536 && all_in_range(lines)
}

fn cells_in_range(states: &[ImageState], cells: u32) -> bool
    ensures { IsTrue result ↔ ((state_words states.now ≤ 4096) × IsInRange (state_words states.now) 65536 cells) }
{
    match words_of(states) {
        Some(words) => words <= cells && cells <= 65536,
        None => false,
    }
}

impl Ranged for ImageTask {
    ghost use Rattle.tcel_image.specs.Spelling.{TaskInRange};

    ghost fits = { TaskInRange };

    fn is_in_range(&self) -> bool {
        let _period = self.period;
        self.name.is_in_range()
            && names_in_range(self.inputs.as_slice())
            && names_in_range(self.outputs.as_slice())
            && states_in_range(self.states.as_slice())
            && cells_in_range(self.states.as_slice(), self.cells)
            && code_in_range(self.code.as_slice())
    }
}

fn each_is_cost(costs: &Costs, keys: &[CostKey]) -> bool
    ensures { IsTrue result ↔ All (λ key. IsCost key (cost_of costs.now key)) keys.now }
{
    for key in keys {
        let cycles = costs.of(*key);
        if cycles < key.least() || 1000 < cycles {
            return false;
        }
    }
    true
}

fn costs_in_range(costs: &Costs) -> bool
    ensures { IsTrue result ↔ CostsInRange costs.now }
{
    each_is_cost(costs, &CostKey::ALL)
}

/// Whether the image has a spelling: each field within its range (docs/formats.md).
pub fn in_range(image: &Image) -> bool
    ensures { IsTrue result ↔ InRange image.now }
{
    let count = image.tasks.len();
    1 <= count
        && count <= 16
        && costs_in_range(&image.costs)
        && all_in_range(image.tasks.as_slice())
}
