ghost use Rattle.std.specs.Prelude.{◌≡◌, ◌+◌, ◌*◌, ◌<◌, ◌≤◌, ◌^◌, length};
ghost use Rattle.tcel_image.specs.Instructions.{operator_cycles, cycles};
ghost use Rattle.tcel_image.specs.Machine.{is_last_cycle};
ghost use Rattle.tcel_image.specs.Spelling.{InstrInRange};
ghost use Rattle.tcel_machine.specs.Task.{running_of, effect_in, Becomes, CanRun, Shows};

use crate::entry::What;
use crate::task::Task;
use tcel_image::Instr;
use tcel_num::Op;
use tcel_script::Script;
use tcel_target::Costs;

fn receive(task: &mut Task, script: &Script, number: usize, port: u32, cell: u32) -> Option<What>
    requires place { task.old.place < 65536 }
    requires can { CanRun (Instr.Receive port cell) (running_of task.old) }
    ensures task { Becomes task.old task.new (effect_in task.old script.now number (Instr.Receive port cell)).task }
    ensures shown { Shows result task.new (effect_in task.old script.now number (Instr.Receive port cell)).shown }
{
    let value = script.value(number, port as usize, task.taken[port as usize]);
    task.receive(port, cell, value);
    Some(What::Receive { port, value })
}

/// The effect of an instruction at its end, in the task of this number.
pub(crate) fn execute(task: &mut Task, script: &Script, number: usize, instr: Instr) -> Option<What>
    requires place { task.old.place < 65536 }
    requires can { CanRun instr (running_of task.old) }
    requires words { task.old.words ≤ length task.old.cells.items }
    requires ended { task.old.ended < 2 ^ 63 }
    ensures task { Becomes task.old task.new (effect_in task.old script.now number instr).task }
    ensures shown { Shows result task.new (effect_in task.old script.now number instr).shown }
{
    match instr {
        Instr::Const(value) => task.push(value),
        Instr::Get(cell) => task.get(cell),
        Instr::Put(cell) => task.put(cell),
        Instr::GetAt(first, size) => task.get_at(first, size),
        Instr::PutAt(first, size) => task.put_at(first, size),
        Instr::Arith(op) => task.arith(op),
        Instr::Jump(target) => task.move_to(target as usize),
        Instr::Branch(target) => task.branch(target),
        Instr::Loop(cell, turns, target) => task.turn(cell, turns, target),
        Instr::Hold(_) => task.go_on(),
        Instr::Copy(from, to, size) => task.copy(from, to, size),
        Instr::Receive(port, cell) => return receive(task, script, number, port, cell),
        Instr::Send(port) => {
            let value = task.send();
            return Some(What::Send { port, value });
        }
        Instr::Mark => {
            task.go_on();
            return Some(What::First);
        }
        Instr::End => {
            task.end();
            return Some(What::End);
        }
    }
    None
}

fn operator_cycles(costs: &Costs, op: Op) -> u32
    ensures { result ≡ operator_cycles costs.now op }
{
    match op {
        Op::Mul => costs.multiply,
        Op::Div | Op::Rem => costs.divide,
        _ => costs.arith,
    }
}

/// The cycles that the cost table declares for an instruction.
fn cycles(costs: &Costs, instr: Instr) -> u64
    requires { InstrInRange instr }
    ensures { result ≡ cycles costs.now instr }
{
    let cycles = match instr {
        Instr::Const(_) => costs.const_,
        Instr::Get(_) => costs.load,
        Instr::Put(_) => costs.store,
        Instr::GetAt(..) => costs.load_at,
        Instr::PutAt(..) => costs.store_at,
        Instr::Arith(op) => operator_cycles(costs, op),
        Instr::Jump(_) => costs.jump,
        Instr::Branch(_) => costs.branch,
        Instr::Loop(..) => costs.loop_,
        Instr::Receive(..) => costs.receive,
        Instr::Send(_) => costs.send,
        Instr::Hold(_) => 1,
        Instr::Copy(_, _, size) => return u64::from(size)
            * (u64::from(costs.load) + u64::from(costs.store)),
        Instr::Mark => costs.mark,
        Instr::End => costs.end,
    };
    u64::from(cycles)
}

/// Whether the cycle from `now` on is the instruction's last.
pub(crate) fn is_last_cycle(costs: &Costs, period: u32, now: u64, instr: Instr, task: &Task) -> bool
    requires range { InstrInRange instr }
    requires now { now < 10 ^ 12 }
    requires spent { task.now.spent ≤ now }
    requires release { task.now.ended * period ≤ now }
    ensures { result ≡ is_last_cycle costs.now period now instr (running_of task.now) }
{
    match instr {
        Instr::Hold(bound) => task.ended * u64::from(period) + u64::from(bound) <= now + 1,
        _ => cycles(costs, instr) <= task.spent + 1,
    }
}
