ghost use Rattle.std.specs.Prelude.{◌≡◌, ℕ, List, ◌++◌, ◌<◌, All, OnOk, IfOk};
ghost use Rattle.std.specs.List.{flat_map};
ghost use Rattle.std.specs.Int.{w16, w32};
ghost use Rattle.tcel_target.specs.Costs.{cost_of, instruction_keys};
ghost use Rattle.tcel_image.specs.Spelling.{number, byte, op_number, opcode, operator, three, operands, kind_number, names, states, code, costs, dispatch, version, NamesInRange, StatesInRange, CodeInRange, InRange, spelling};

use crate::image::{Image, ImageState, ImageTask, Instr, Line, StateKind};
use std::alloc::Global;
use tcel_num::{Name, NoMemory, Op};
use tcel_target::{CostKey, Costs};

/// What is written into an image.
trait Spelled {
    ghost spelled: { Self → List ℕ };

    ghost fits: { Self → Type 0 };

    /// Writes it at the end.
    fn put(&self, out: &mut Vec<u8>) -> Result<(), NoMemory>
        requires { fits self.now }
        ensures { OnOk result (out.new.items ≡ out.old.items ++ spelled self.now) };
}

fn put_each<T: Spelled>(items: &[T], out: &mut Vec<u8>) -> Result<(), NoMemory>
    requires { All T.fits items.now }
    ensures { OnOk result (out.new.items ≡ out.old.items ++ flat_map T.spelled items.now) }
{
    for item in items {
        item.put(out)?;
    }
    Ok(())
}

fn put_byte(out: &mut Vec<u8>, n: u8) -> Result<(), NoMemory>
    ensures { OnOk result (out.new.items ≡ out.old.items ++ byte n) }
{
    out.push(n)?;
    Ok(())
}

#[tactic(auto, unfolding(crate::specs::Spelling::number))]
fn put_u16(out: &mut Vec<u8>, n: u16) -> Result<(), NoMemory>
    ensures { OnOk result (out.new.items ≡ out.old.items ++ number w16 n) }
{
    out.extend_from_slice(&n.to_le_bytes())?;
    Ok(())
}

#[tactic(auto, unfolding(crate::specs::Spelling::number))]
fn put_u32(out: &mut Vec<u8>, n: u32) -> Result<(), NoMemory>
    ensures { OnOk result (out.new.items ≡ out.old.items ++ number w32 n) }
{
    out.extend_from_slice(&n.to_le_bytes())?;
    Ok(())
}

impl Spelled for i64 {
    ghost use Rattle.tcel_image.specs.Spelling.{value};
    ghost use Rattle.std.specs.Prelude.{FitsSigned};
    ghost use Rattle.std.specs.Int.{w64};

    ghost spelled = { value };

    ghost fits = { FitsSigned w64 };

    #[tactic(auto, unfolding(crate::specs::Spelling::number))]
    fn put(&self, out: &mut Vec<u8>) -> Result<(), NoMemory> {
        out.extend_from_slice(&self.to_le_bytes())?;
        Ok(())
    }
}

impl Spelled for Name {
    ghost use Rattle.tcel_num.specs.Name.{IsName};
    ghost use Rattle.tcel_image.specs.Spelling.{name};

    ghost spelled = { name };

    ghost fits = { IsName };

    fn put(&self, out: &mut Vec<u8>) -> Result<(), NoMemory> {
        let bytes = self.bytes();
        put_byte(out, bytes.len() as u8)?;
        out.extend_from_slice(bytes)?;
        Ok(())
    }
}

fn put_names(out: &mut Vec<u8>, list: &[Name]) -> Result<(), NoMemory>
    requires { NamesInRange list.now }
    ensures { OnOk result (out.new.items ≡ out.old.items ++ names list.now) }
{
    put_u16(out, list.len() as u16)?;
    put_each(list, out)
}

fn kind_number(kind: StateKind) -> u8
    ensures { result ≡ kind_number kind }
{
    match kind {
        StateKind::Int => 0,
        StateKind::Bool => 1,
        StateKind::Array => 2,
    }
}

impl Spelled for ImageState {
    ghost use Rattle.tcel_image.specs.Spelling.{state, StateInRange};

    ghost spelled = { state };

    ghost fits = { StateInRange };

    fn put(&self, out: &mut Vec<u8>) -> Result<(), NoMemory> {
        self.name.put(out)?;
        put_byte(out, kind_number(self.kind))?;
        put_u32(out, self.words)?;
        put_each(self.first.as_slice(), out)
    }
}

fn op_number(op: Op) -> u8
    ensures { result ≡ op_number op }
{
    op as u8 + 1
}

fn opcode(instr: Instr) -> u8
    ensures { result ≡ opcode instr }
{
    match instr {
        Instr::Const(_) => 1,
        Instr::Get(_) => 2,
        Instr::Put(_) => 3,
        Instr::GetAt(..) => 4,
        Instr::PutAt(..) => 5,
        Instr::Arith(_) => 6,
        Instr::Jump(_) => 7,
        Instr::Branch(_) => 8,
        Instr::Loop(..) => 9,
        Instr::Receive(..) => 10,
        Instr::Send(_) => 11,
        Instr::Hold(_) => 12,
        Instr::Copy(..) => 13,
        Instr::Mark => 14,
        Instr::End => 15,
    }
}

fn operator(instr: Instr) -> u8
    ensures { result ≡ operator instr }
{
    match instr {
        Instr::Arith(op) => op_number(op),
        _ => 0,
    }
}

fn put_three(out: &mut Vec<u8>, a: u32, b: u32, c: u32) -> Result<(), NoMemory>
    ensures { OnOk result (out.new.items ≡ out.old.items ++ three a b c) }
{
    put_u32(out, a)?;
    put_u32(out, b)?;
    put_u32(out, c)
}

fn put_operands(out: &mut Vec<u8>, instr: Instr) -> Result<(), NoMemory>
    ensures { OnOk result (out.new.items ≡ out.old.items ++ operands instr) }
{
    match instr {
        Instr::Const(value) => {
            value.put(out)?;
            put_u32(out, 0)
        }
        Instr::Get(a) | Instr::Put(a) | Instr::Jump(a) | Instr::Branch(a) => put_three(
            out, a, 0, 0,
        ),
        Instr::Send(a) | Instr::Hold(a) => put_three(out, a, 0, 0),
        Instr::GetAt(a, b) | Instr::PutAt(a, b) | Instr::Receive(a, b) => put_three(out, a, b, 0),
        Instr::Loop(a, b, c) | Instr::Copy(a, b, c) => put_three(out, a, b, c),
        Instr::Arith(_) | Instr::Mark | Instr::End => put_three(out, 0, 0, 0),
    }
}

impl Spelled for Line {
    ghost use Rattle.tcel_image.specs.Spelling.{line, LineInRange};

    ghost spelled = { line };

    ghost fits = { LineInRange };

    fn put(&self, out: &mut Vec<u8>) -> Result<(), NoMemory> {
        put_byte(out, opcode(self.instr))?;
        put_byte(out, operator(self.instr))?;
        put_u16(out, self.depth)?;
        put_operands(out, self.instr)
    }
}

fn put_states(out: &mut Vec<u8>, list: &[ImageState]) -> Result<(), NoMemory>
    requires { StatesInRange list.now }
    ensures { OnOk result (out.new.items ≡ out.old.items ++ states list.now) }
{
    put_u16(out, list.len() as u16)?;
    put_each(list, out)
}

fn put_code(out: &mut Vec<u8>, lines: &[Line]) -> Result<(), NoMemory>
    requires { CodeInRange lines.now }
    ensures { OnOk result (out.new.items ≡ out.old.items ++ code lines.now) }
{
    put_u32(out, lines.len() as u32)?;
    put_each(lines, out)
}

impl Spelled for ImageTask {
    ghost use Rattle.tcel_image.specs.Spelling.{task, TaskInRange};

    ghost spelled = { task };

    ghost fits = { TaskInRange };

    fn put(&self, out: &mut Vec<u8>) -> Result<(), NoMemory> {
        self.name.put(out)?;
        put_u32(out, self.period)?;
        put_byte(out, u8::from(self.sliced))?;
        put_names(out, self.inputs.as_slice())?;
        put_names(out, self.outputs.as_slice())?;
        put_states(out, self.states.as_slice())?;
        put_u32(out, self.cells)?;
        put_code(out, self.code.as_slice())
    }
}

fn put_costs(out: &mut Vec<u8>, table: &Costs) -> Result<(), NoMemory>
    ensures { OnOk result (out.new.items ≡ out.old.items ++ costs table.now) }
{
    put_cycles(out, table)?;
    put_dispatch(out, table.dispatch)
}

/// Writes the costs of instructions.
fn put_cycles(out: &mut Vec<u8>, table: &Costs) -> Result<(), NoMemory>
    ensures { OnOk result (out.new.items ≡ out.old.items ++ flat_map (λ key. number w32 (cost_of table.now key)) instruction_keys) }
{
    for key in CostKey::INSTRUCTIONS {
        put_u32(out, table.of(key))?;
    }
    Ok(())
}

/// Writes the cost of a frame's start, where there is one.
fn put_dispatch(out: &mut Vec<u8>, ticks: u32) -> Result<(), NoMemory>
    ensures { OnOk result (out.new.items ≡ out.old.items ++ dispatch ticks) }
{
    if ticks == 0 {
        Ok(())
    } else {
        put_u32(out, ticks)
    }
}

fn version(ticks: u32) -> u32
    ensures { result ≡ version ticks }
{
    if ticks == 0 { 1 } else { 2 }
}

/// The one spelling of the image (docs/formats.md).
pub fn encode(alloc: Global, image: &Image) -> Result<Vec<u8>, NoMemory>
    requires { InRange image.now }
    ensures { IfOk result (λ bytes. bytes.items ≡ spelling image.now) }
{
    let mut out = Vec::new(alloc);
    out.extend_from_slice(b"TCEL")?;
    put_u32(&mut out, version(image.costs.dispatch))?;
    put_u32(&mut out, image.tasks.len() as u32)?;
    put_costs(&mut out, &image.costs)?;
    put_each(image.tasks.as_slice(), &mut out)?;
    Ok(out)
}
