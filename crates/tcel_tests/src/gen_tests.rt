ghost use Rattle.std.specs.Prelude.{◌≤◌};
ghost use Rattle.tcel_core.specs.Plain.{plain_task};
ghost use Rattle.tcel_core.specs.Sound.{IsSoundTask};

use crate::programs::{own_parts, worked_task};
use sqlite_items::Items;
use std::alloc::Global;
use std::process::Abort;
use std::test::Fail;
use tcel_core::{CoreTask, Set};
use tcel_gen::generate;
use tcel_image::Instr;
use tcel_num::{NoMemory, Op};
use tcel_target::Costs;
use tcel_verify::Ready;

// The depth of the stack and the instruction of each line of
// receive x from s; if x > 0 { y := x; send y to o; } else { y := 5; n := n + y; } y := 7; send y to o;
// n is cell 0, y cell 1 and x cell 2.
const WHOLE: [(u16, Instr); 22] = [
    (0, Instr::Receive(0, 2)),
    (0, Instr::Get(2)),
    (1, Instr::Const(0)),
    (2, Instr::Arith(Op::Greater)),
    (1, Instr::Branch(10)),
    (0, Instr::Get(2)),
    (1, Instr::Put(1)),
    (0, Instr::Get(1)),
    (1, Instr::Send(0)),
    (0, Instr::Jump(16)),
    (0, Instr::Const(5)),
    (1, Instr::Put(1)),
    (0, Instr::Get(0)),
    (1, Instr::Get(1)),
    (2, Instr::Arith(Op::Add)),
    (1, Instr::Put(0)),
    (0, Instr::Const(7)),
    (1, Instr::Put(1)),
    (0, Instr::Get(1)),
    (1, Instr::Send(0)),
    (0, Instr::Mark),
    (0, Instr::End),
];

// The same in two parts: cell 3 is the copy of y, 4 its last value for the rest, and 5 the truth of the test.
const SLICED: [(u16, Instr); 28] = [
    (0, Instr::Receive(0, 2)),
    (0, Instr::Get(2)),
    (1, Instr::Const(0)),
    (2, Instr::Arith(Op::Greater)),
    (1, Instr::Put(5)),
    (0, Instr::Get(5)),
    (1, Instr::Branch(11)),
    (0, Instr::Get(2)),
    (1, Instr::Put(3)),
    (0, Instr::Get(3)),
    (1, Instr::Send(0)),
    (0, Instr::Const(7)),
    (1, Instr::Put(3)),
    (0, Instr::Copy(3, 4, 1)),
    (0, Instr::Get(3)),
    (1, Instr::Send(0)),
    (0, Instr::Mark),
    (0, Instr::Get(5)),
    (1, Instr::Branch(20)),
    (0, Instr::Jump(26)),
    (0, Instr::Const(5)),
    (1, Instr::Put(1)),
    (0, Instr::Get(0)),
    (1, Instr::Get(1)),
    (2, Instr::Arith(Op::Add)),
    (1, Instr::Put(0)),
    (0, Instr::Copy(4, 1, 1)),
    (0, Instr::End),
];

// The image of a set of this task alone.
fn image_of(alloc: Global, task: CoreTask, sliced: usize) -> Result<Ready, NoMemory>
    requires sound { IsSoundTask (plain_task task) }
    requires most { sliced ≤ 1 }
{
    let cut = own_parts(alloc, &task)?;
    let mut tasks = Items::new(alloc);
    tasks.push(task)?;
    let set = Set { tasks };
    let mut cuts = Items::new(alloc);
    cuts.push(cut)?;
    let costs = Costs::unit();
    generate(alloc, &set, cuts.as_slice(), sliced, &costs)
}

// Compares the only task of an image: its code and its cells, and whether it is sliced.
fn compare(rt: &impl Abort, ready: &Ready, code: &[(u16, Instr)], cells: u32, sliced: bool) {
    for task in ready.image().tasks.as_slice() {
        assert_eq!(rt; task.code.len(), code.len());
        for (line, wanted) in task.code.as_slice().iter().zip(code) {
            assert_eq!(rt; (line.depth, line.instr), *wanted);
        }
        assert_eq!(rt;
            (task.cells, task.sliced, task.states.len()),
            (cells, sliced, 2)
        );
    }
    assert_eq!(rt; ready.image().tasks.len(), 1);
}

#[test]
fn the_worked_task(rt: HostRuntime) -> Result<(), Fail> {
    let alloc = rt.alloc();
    let whole = image_of(alloc, worked_task(alloc)?, 0)?;
    compare(&rt, &whole, &WHOLE, 3, false);
    let sliced = image_of(alloc, worked_task(alloc)?, 1)?;
    compare(&rt, &sliced, &SLICED, 6, true);
    Ok(())
}
