ghost use Rattle.std.specs.Prelude.{◌≡◌, ℕ, List, ◌+◌, ◌-◌, ◌<◌, ◌≤◌, length, Result, Ok, IfOk};
ghost use Rattle.std.specs.List.{prefix_len};
ghost use Rattle.std.specs.Int.{w16, w32, IsInRange};
ghost use Rattle.tcel_num.specs.Name.{may_follow};
ghost use Rattle.tcel_image.specs.Spelling.{magic, state_words, most_words, InRange, spelling};
ghost use Rattle.tcel_image.specs.Reading.{Gives, Answers, number_at, byte_at, many_at, name_front, text_at, names_at, operands_at, const_at, op_from, operator_at, instr_at, code_at, kind_from, state_at, states_from, states_at, cost_at, costs_at, dispatch_at, magic_at, image_at, ended, fault_in, reading};

use crate::fault::{Fault, ImageFail, ReadError};
use crate::image::{Image, ImageState, ImageTask, Instr, Line, StateKind};
use crate::operands::{Operands, Range};
use sqlite_items::Items;
use std::alloc::Global;
use tcel_num::{Name, Op, may_follow, may_start};
use tcel_target::Costs;

/// What is read from an image many times in a row.
trait Piece: Drop {
    ghost use Rattle.tcel_image.specs.declared.fault.Fault.{Fault};

    ghost read_so: { List ℕ → Result (Self × List ℕ) Fault };

    /// Reads it from the front, and gives the bytes after it.
    fn read(alloc: Global, bytes: &[u8]) -> Result<(Self, &[u8]), ReadError>
        ensures { Gives (λ x. (x.0, x.1.now)) result (read_so bytes.now) };
}

fn many<T: Piece>(alloc: Global, count: u32, bytes: &[u8]) -> Result<(Items<T>, &[u8]), ReadError>
    ensures { Gives (λ x. (x.0, x.1.now)) result (many_at T.read_so count bytes.now) }
{
    let mut items = Vec::new(alloc);
    let mut rest = bytes;
    for _ in 0..count {
        let (item, after) = T::read(alloc, rest)?;
        items.push(item)?;
        rest = after;
    }
    Ok((Items::from_vec(items), rest))
}

#[tactic(auto, unfolding(crate::specs::Reading::byte_at))]
fn byte_within(least: u8, greatest: u8, bytes: &[u8]) -> Result<(u8, &[u8]), ReadError>
    ensures given { Gives (λ x. (x.0, x.1.now)) result (byte_at least greatest bytes.now) }
    ensures within { IfOk result (λ x. IsInRange least greatest x.0) }
{
    match bytes {
        [] => Err(ReadError::Fault(Fault::Cut)),
        [byte, rest @ ..] => {
            if *byte < least || greatest < *byte {
                return Err(ReadError::Fault(Fault::Value { left: bytes.len() }));
            }
            Ok((*byte, rest))
        }
    }
}

#[tactic(auto, unfolding(crate::specs::Reading::number_at))]
fn u16_within(least: u16, greatest: u16, bytes: &[u8]) -> Result<(u16, &[u8]), ReadError>
    ensures { Gives (λ x. (x.0, x.1.now)) result (number_at w16 least greatest bytes.now) }
{
    if bytes.len() < 2 {
        return Err(ReadError::Fault(Fault::Cut));
    }
    let (front, rest) = bytes.split_at(2);
    let number = u16::from_le_bytes([front[0], front[1]]);
    if number < least || greatest < number {
        return Err(ReadError::Fault(Fault::Value { left: bytes.len() }));
    }
    Ok((number, rest))
}

#[tactic(auto, unfolding(crate::specs::Reading::number_at))]
fn u32_within(least: u32, greatest: u32, bytes: &[u8]) -> Result<(u32, &[u8]), ReadError>
    ensures given { Gives (λ x. (x.0, x.1.now)) result (number_at w32 least greatest bytes.now) }
    ensures within { IfOk result (λ x. IsInRange least greatest x.0) }
{
    if bytes.len() < 4 {
        return Err(ReadError::Fault(Fault::Cut));
    }
    let (front, rest) = bytes.split_at(4);
    let number = u32::from_le_bytes([front[0], front[1], front[2], front[3]]);
    if number < least || greatest < number {
        return Err(ReadError::Fault(Fault::Value { left: bytes.len() }));
    }
    Ok((number, rest))
}

impl Piece for i64 {
    ghost use Rattle.tcel_image.specs.Reading.{value_at};

    ghost read_so = { value_at };

    #[tactic(auto, unfolding(crate::specs::Reading::value_at, crate::specs::Reading::number_at))]
    fn read(_alloc: Global, bytes: &[u8]) -> Result<(i64, &[u8]), ReadError> {
        if bytes.len() < 8 {
            return Err(ReadError::Fault(Fault::Cut));
        }
        let (front, rest) = bytes.split_at(8);
        let value = i64::from_le_bytes([
            front[0], front[1], front[2], front[3], front[4], front[5], front[6], front[7],
        ]);
        Ok((value, rest))
    }
}

fn following(bytes: &[u8]) -> usize
    ensures count { result ≡ prefix_len may_follow bytes.now }
    ensures within { result ≤ length bytes.now }
{
    bytes.iter().take_while(|byte| may_follow(**byte)).count()
}

/// How many bytes from the front a name can have.
fn name_front(bytes: &[u8]) -> usize
    ensures { result ≡ name_front bytes.now }
{
    match bytes {
        [] => 0,
        [first, rest @ ..] => {
            if may_start(*first) {
                1 + following(rest)
            } else {
                0
            }
        }
    }
}

#[tactic(auto, unfolding(crate::specs::Reading::text_at))]
fn text_of(count: u8, bytes: &[u8]) -> Result<(Name, &[u8]), ReadError>
    requires { IsInRange 1 32 count }
    ensures { Gives (λ x. (x.0, x.1.now)) result (text_at count bytes.now) }
{
    let count = usize::from(count);
    if bytes.len() < count {
        return Err(ReadError::Fault(Fault::Cut));
    }
    let (text, rest) = bytes.split_at(count);
    let front = name_front(text);
    if front < count {
        let left = bytes.len() - front;
        return Err(ReadError::Fault(Fault::Value { left }));
    }
    match Name::new(text) {
        Some(name) => Ok((name, rest)),
        None => Err(ReadError::Fault(Fault::Value {
            left: bytes.len() + 1,
        })),
    }
}

impl Piece for Name {
    ghost use Rattle.tcel_image.specs.Reading.{name_at};

    ghost read_so = { name_at };

    #[tactic(auto, unfolding(crate::specs::Reading::name_at))]
    fn read(_alloc: Global, bytes: &[u8]) -> Result<(Name, &[u8]), ReadError> {
        let (count, rest) = byte_within(1, 32, bytes)?;
        text_of(count, rest)
    }
}

#[tactic(auto, unfolding(crate::specs::Reading::names_at))]
fn names_of(alloc: Global, bytes: &[u8]) -> Result<(Items<Name>, &[u8]), ReadError>
    ensures { Gives (λ x. (x.0, x.1.now)) result (names_at bytes.now) }
{
    let (count, rest) = u16_within(0, 256, bytes)?;
    many(alloc, u32::from(count), rest)
}

const ANY: Range = Range {
    least: 0,
    greatest: u32::MAX,
};

const LENGTH: Range = Range {
    least: 1,
    greatest: 4096,
};

const BOUND: Range = Range {
    least: 1,
    greatest: 1_000_000_000,
};

const UNUSED: Range = Range {
    least: 0,
    greatest: 0,
};

#[tactic(auto, unfolding(crate::specs::Reading::operands_at))]
fn operands_of(a: Range, b: Range, c: Range, bytes: &[u8]) -> Result<(Operands, &[u8]), ReadError>
    ensures { Gives (λ x. (x.0, x.1.now)) result (operands_at a b c bytes.now) }
{
    let (a, rest) = u32_within(a.least, a.greatest, bytes)?;
    let (b, rest) = u32_within(b.least, b.greatest, rest)?;
    let (c, rest) = u32_within(c.least, c.greatest, rest)?;
    Ok((Operands { a, b, c }, rest))
}

#[tactic(auto, unfolding(crate::specs::Reading::const_at))]
fn const_of(alloc: Global, bytes: &[u8]) -> Result<(Instr, &[u8]), ReadError>
    ensures { Gives (λ x. (x.0, x.1.now)) result (const_at bytes.now) }
{
    let (value, rest) = i64::read(alloc, bytes)?;
    let (_, rest) = u32_within(0, 0, rest)?;
    Ok((Instr::Const(value), rest))
}

fn op_from(number: u8) -> Op
    ensures { result ≡ op_from number }
{
    match number {
        1 => Op::Add,
        2 => Op::Sub,
        3 => Op::Mul,
        4 => Op::Div,
        5 => Op::Rem,
        6 => Op::Neg,
        7 => Op::Not,
        8 => Op::And,
        9 => Op::Or,
        10 => Op::Equal,
        11 => Op::Unequal,
        12 => Op::Less,
        13 => Op::LessOrEqual,
        14 => Op::Greater,
        _ => Op::GreaterOrEqual,
    }
}

fn operator_of(opcode: u8, bytes: &[u8]) -> Result<(u8, &[u8]), ReadError>
    ensures { Gives (λ x. (x.0, x.1.now)) result (operator_at opcode bytes.now) }
{
    if opcode == 6 {
        byte_within(1, 15, bytes)
    } else {
        byte_within(0, 0, bytes)
    }
}

#[tactic(auto, unfolding(crate::specs::Reading::instr_at))]
fn instr_of(
    alloc: Global,
    opcode: u8,
    operator: u8,
    bytes: &[u8],
) -> Result<(Instr, &[u8]), ReadError>
    ensures { Gives (λ x. (x.0, x.1.now)) result (instr_at opcode operator bytes.now) }
{
    let (a, b, c) = match opcode {
        1 => return const_of(alloc, bytes),
        2 | 3 | 7 | 8 | 11 => (ANY, UNUSED, UNUSED),
        4 | 5 => (ANY, LENGTH, UNUSED),
        9 => (ANY, LENGTH, ANY),
        10 => (ANY, ANY, UNUSED),
        12 => (BOUND, UNUSED, UNUSED),
        13 => (ANY, ANY, LENGTH),
        _ => (UNUSED, UNUSED, UNUSED),
    };
    let (Operands { a, b, c }, rest) = operands_of(a, b, c, bytes)?;
    let instr = match opcode {
        2 => Instr::Get(a),
        3 => Instr::Put(a),
        4 => Instr::GetAt(a, b),
        5 => Instr::PutAt(a, b),
        6 => Instr::Arith(op_from(operator)),
        7 => Instr::Jump(a),
        8 => Instr::Branch(a),
        9 => Instr::Loop(a, b, c),
        10 => Instr::Receive(a, b),
        11 => Instr::Send(a),
        12 => Instr::Hold(a),
        13 => Instr::Copy(a, b, c),
        14 => Instr::Mark,
        _ => Instr::End,
    };
    Ok((instr, rest))
}

impl Piece for Line {
    ghost use Rattle.tcel_image.specs.Reading.{line_at};

    ghost read_so = { line_at };

    #[tactic(auto, unfolding(crate::specs::Reading::line_at))]
    fn read(alloc: Global, bytes: &[u8]) -> Result<(Line, &[u8]), ReadError> {
        let (opcode, rest) = byte_within(1, 15, bytes)?;
        let (operator, rest) = operator_of(opcode, rest)?;
        let (depth, rest) = u16_within(0, u16::MAX, rest)?;
        let (instr, rest) = instr_of(alloc, opcode, operator, rest)?;
        Ok((Line { instr, depth }, rest))
    }
}

#[tactic(auto, unfolding(crate::specs::Reading::code_at))]
fn code_of(alloc: Global, bytes: &[u8]) -> Result<(Items<Line>, &[u8]), ReadError>
    ensures { Gives (λ x. (x.0, x.1.now)) result (code_at bytes.now) }
{
    let (count, rest) = u32_within(1, 65536, bytes)?;
    many(alloc, count, rest)
}

const MOST_WORDS: u32 = 4096;

fn kind_from(number: u8) -> StateKind
    ensures { result ≡ kind_from number }
{
    match number {
        0 => StateKind::Int,
        1 => StateKind::Bool,
        _ => StateKind::Array,
    }
}

pub(crate) fn most_words(kind: StateKind) -> u32
    ensures { result ≡ most_words kind }
{
    match kind {
        StateKind::Int | StateKind::Bool => 1,
        StateKind::Array => MOST_WORDS,
    }
}

#[tactic(auto, unfolding(crate::specs::Reading::state_at))]
fn state_of(alloc: Global, used: u32, bytes: &[u8]) -> Result<(ImageState, &[u8]), ReadError>
    requires { used ≤ 4096 }
    ensures given { Gives (λ x. (x.0, x.1.now)) result (state_at used bytes.now) }
    ensures room { IfOk result (λ x. used + x.0.words ≤ 4096) }
{
    let (name, rest) = match Name::read(alloc, bytes) {
        Ok(read) => read,
        Err(error) => return Err(error),
    };
    let (kind, rest) = byte_within(0, 2, rest)?;
    let kind = kind_from(kind);
    let most = most_words(kind).min(MOST_WORDS - used);
    let (words, rest) = u32_within(1, most, rest)?;
    let (first, rest) = many(alloc, words, rest)?;
    Ok((
        ImageState {
            name,
            kind,
            words,
            first,
        },
        rest,
    ))
}

/// The states, and how many words they have together.
fn states_from(
    alloc: Global,
    count: u16,
    bytes: &[u8],
) -> Result<(Items<ImageState>, u32, &[u8]), ReadError>
    ensures given { Gives (λ x. (x.0, x.2.now)) result (states_from 0 count bytes.now) }
    ensures words { IfOk result (λ x. x.1 ≡ state_words x.0) }
{
    let mut states = Vec::new(alloc);
    let mut used = 0;
    let mut rest = bytes;
    for _ in 0..count {
        let (state, after) = state_of(alloc, used, rest)?;
        used += state.words;
        states.push(state)?;
        rest = after;
    }
    Ok((Items::from_vec(states), used, rest))
}

#[tactic(auto, unfolding(crate::specs::Reading::states_at))]
fn states_of(alloc: Global, bytes: &[u8]) -> Result<(Items<ImageState>, u32, &[u8]), ReadError>
    ensures given { Gives (λ x. (x.0, x.2.now)) result (states_at bytes.now) }
    ensures words { IfOk result (λ x. x.1 ≡ state_words x.0) }
{
    let (count, rest) = u16_within(0, 256, bytes)?;
    states_from(alloc, count, rest)
}

impl Piece for ImageTask {
    ghost use Rattle.tcel_image.specs.Reading.{task_at};

    ghost read_so = { task_at };

    #[tactic(auto, unfolding(crate::specs::Reading::task_at))]
    fn read(alloc: Global, bytes: &[u8]) -> Result<(ImageTask, &[u8]), ReadError> {
        let (name, rest) = match Name::read(alloc, bytes) {
            Ok(read) => read,
            Err(error) => return Err(error),
        };
        let (period, rest) = u32_within(0, u32::MAX, rest)?;
        let (sliced, rest) = byte_within(0, 1, rest)?;
        let (inputs, rest) = names_of(alloc, rest)?;
        let (outputs, rest) = names_of(alloc, rest)?;
        let (states, words, rest) = states_of(alloc, rest)?;
        let (cells, rest) = u32_within(words, 65536, rest)?;
        let (code, rest) = code_of(alloc, rest)?;
        let task = ImageTask {
            name,
            period,
            sliced: sliced == 1,
            inputs,
            outputs,
            states,
            cells,
            code,
        };
        Ok((task, rest))
    }
}

fn cost_of(bytes: &[u8]) -> Result<(u32, &[u8]), ReadError>
    ensures { Gives (λ x. (x.0, x.1.now)) result (cost_at bytes.now) }
{
    u32_within(1, 1000, bytes)
}

/// The cost of a frame's start in an image of this version.
#[tactic(auto, unfolding(crate::specs::Reading::dispatch_at))]
fn dispatch_of(version: u32, bytes: &[u8]) -> Result<(u32, &[u8]), ReadError>
    ensures { Gives (λ x. (x.0, x.1.now)) result (dispatch_at version bytes.now) }
{
    if version == 1 {
        Ok((0, bytes))
    } else {
        cost_of(bytes)
    }
}

#[tactic(auto, unfolding(crate::specs::Reading::costs_at))]
fn costs_of(version: u32, bytes: &[u8]) -> Result<(Costs, &[u8]), ReadError>
    ensures { Gives (λ x. (x.0, x.1.now)) result (costs_at version bytes.now) }
{
    let (const_, rest) = cost_of(bytes)?;
    let (load, rest) = cost_of(rest)?;
    let (store, rest) = cost_of(rest)?;
    let (load_at, rest) = cost_of(rest)?;
    let (store_at, rest) = cost_of(rest)?;
    let (arith, rest) = cost_of(rest)?;
    let (multiply, rest) = cost_of(rest)?;
    let (divide, rest) = cost_of(rest)?;
    let (jump, rest) = cost_of(rest)?;
    let (branch, rest) = cost_of(rest)?;
    let (loop_, rest) = cost_of(rest)?;
    let (receive, rest) = cost_of(rest)?;
    let (send, rest) = cost_of(rest)?;
    let (mark, rest) = cost_of(rest)?;
    let (end, rest) = cost_of(rest)?;
    let (dispatch, rest) = dispatch_of(version, rest)?;
    let costs = Costs {
        const_,
        load,
        store,
        load_at,
        store_at,
        arith,
        multiply,
        divide,
        jump,
        branch,
        loop_,
        receive,
        send,
        mark,
        end,
        dispatch,
    };
    Ok((costs, rest))
}

#[tactic(auto, unfolding(crate::specs::Reading::magic_at))]
fn after_magic(bytes: &[u8]) -> Result<&[u8], ReadError>
    ensures { Gives (λ x. (magic, x.now)) result (magic_at bytes.now) }
{
    if bytes.starts_with(b"TCEL") {
        Ok(&bytes[4..])
    } else {
        Err(ReadError::Fault(Fault::Magic))
    }
}

#[tactic(auto, unfolding(crate::specs::Reading::image_at))]
fn image_of(alloc: Global, bytes: &[u8]) -> Result<(Image, &[u8]), ReadError>
    ensures { Gives (λ x. (x.0, x.1.now)) result (image_at bytes.now) }
{
    let rest = after_magic(bytes)?;
    let (version, rest) = u32_within(1, 2, rest)?;
    let (count, rest) = u32_within(1, 16, rest)?;
    let (costs, rest) = costs_of(version, rest)?;
    let (tasks, rest) = many(alloc, count, rest)?;
    Ok((Image { costs, tasks }, rest))
}

fn whole_image(alloc: Global, bytes: &[u8]) -> Result<Image, ReadError>
    ensures { Gives (λ i. i) result (ended (image_at bytes.now)) }
{
    let (image, rest) = image_of(alloc, bytes)?;
    if !rest.is_empty() {
        return Err(ReadError::Fault(Fault::Surplus { left: rest.len() }));
    }
    Ok(image)
}

fn fault_in(total: usize, fault: Fault) -> ImageFail
    ensures { result ≡ fault_in total fault }
{
    match fault {
        Fault::Magic => ImageFail::BadMagic,
        Fault::Cut => ImageFail::Short { at: total },
        Fault::Value { left } => ImageFail::BadField {
            at: total.saturating_sub(left),
        },
        Fault::Surplus { left } => ImageFail::Extra {
            at: total.saturating_sub(left),
        },
    }
}

#[tactic(auto, unfolding(crate::specs::Reading::reading))]
fn answer(alloc: Global, bytes: &[u8]) -> Result<Image, ImageFail>
    ensures { Answers result (reading bytes.now) }
{
    match whole_image(alloc, bytes) {
        Ok(image) => Ok(image),
        Err(ReadError::Memory) => Err(ImageFail::NoMemory),
        Err(ReadError::Fault(fault)) => Err(fault_in(bytes.len(), fault)),
    }
}

/// The image that the bytes spell, all of them, or their first fault (docs/formats.md). It takes memory
/// only for what it has read.
pub fn decode(alloc: Global, bytes: &[u8]) -> Result<Image, ImageFail>
    // What is read is in range and spelled so.
    ensures found { IfOk result (λ i. InRange i × (bytes.now ≡ spelling i)) }
    // An image in range is read from its spelling, unless memory runs out.
    ensures only { (i : Image) → InRange i → bytes.now ≡ spelling i → Answers result (Ok i) }
    // Which fault it is.
    ensures exact { Answers result (reading bytes.now) }
{
    answer(alloc, bytes)
}
