ghost use Rattle.std.specs.Prelude.{◌≡◌, ◌<◌, ◌≤◌, ◌^◌, length, slice_index, if◌then◌else◌};
ghost use Rattle.tcel_num.specs.Arithmetic.{is_unary};
ghost use Rattle.tcel_image.specs.Machine.{go_on, top, below, applied, end_frame};
ghost use Rattle.tcel_image.specs.declared.image.Instr.TheVariants as Instr;
ghost use Rattle.tcel_machine.specs.Task.{running_of, Becomes, Does, Holds, HasCells, received, state_of};

use crate::stack::Stack;
use tcel_num::{Op, add};
use tcel_word::{binary, clear, copy, element, holds, set_element, unary};

/// A task that runs. `dispatched` counts the ticks of the current frame's start, `spent` the cycles of the
/// current instruction, `taken` the values that each input has given, `words` the cells of the states.
#[derive(Debug, Drop)]
pub(crate) struct Task {
    pub(crate) cells: Vec<i64>,
    pub(crate) stack: Stack,
    pub(crate) place: usize,
    pub(crate) dispatched: u32,
    pub(crate) spent: u64,
    pub(crate) ended: u64,
    pub(crate) taken: Vec<u64>,
    pub(crate) words: usize,
}

impl Task {
    /// Silently on to a place.
    pub(crate) fn move_to(&mut self, place: usize)
        ensures { Does self.old self.new (Instr.Jump place) }
    {
        self.place = place;
        self.spent = 0;
    }

    /// On to the next instruction.
    pub(crate) fn go_on(&mut self)
        requires { self.old.place < 65536 }
        ensures { Becomes self.old self.new (go_on self.old.stack self.old.cells.items (running_of self.old)).task }
    {
        self.place += 1;
        self.spent = 0;
    }

    pub(crate) fn push(&mut self, value: i64)
        requires place { self.old.place < 65536 }
        requires room { length self.old.stack < 128 }
        ensures { Does self.old self.new (Instr.Const value) }
    {
        self.stack.push(value);
        self.go_on();
    }

    pub(crate) fn get(&mut self, cell: u32)
        requires place { self.old.place < 65536 }
        requires room { length self.old.stack < 128 }
        requires cell { HasCells cell 1 (running_of self.old) }
        ensures { Does self.old self.new (Instr.Get cell) }
    {
        let value = self.cells[cell as usize];
        self.push(value);
    }

    pub(crate) fn put(&mut self, cell: u32)
        requires place { self.old.place < 65536 }
        requires stack { Holds 1 (running_of self.old) }
        requires cell { HasCells cell 1 (running_of self.old) }
        ensures { Does self.old self.new (Instr.Put cell) }
    {
        self.cells[cell as usize] = self.stack.pop();
        self.go_on();
    }

    pub(crate) fn get_at(&mut self, first: u32, size: u32)
        requires place { self.old.place < 65536 }
        requires stack { Holds 1 (running_of self.old) }
        requires cells { HasCells first size (running_of self.old) }
        ensures { Does self.old self.new (Instr.GetAt first size) }
    {
        let index = self.stack.pop();
        let value = element(self.cells.as_slice(), first as usize, size as usize, index);
        self.push(value);
    }

    pub(crate) fn put_at(&mut self, first: u32, size: u32)
        requires place { self.old.place < 65536 }
        requires stack { Holds 2 (running_of self.old) }
        requires cells { HasCells first size (running_of self.old) }
        ensures { Does self.old self.new (Instr.PutAt first size) }
    {
        let value = self.stack.pop();
        let index = self.stack.pop();
        set_element(
            self.cells.as_mut_slice(),
            first as usize,
            size as usize,
            index,
            value,
        );
        self.go_on();
    }

    pub(crate) fn arith(&mut self, op: Op)
        requires place { self.old.place < 65536 }
        requires stack { Holds (if is_unary op then 1 else 2) (running_of self.old) }
        ensures { Does self.old self.new (Instr.Arith op) }
    {
        apply(&mut self.stack, op);
        self.go_on();
    }

    pub(crate) fn branch(&mut self, target: u32)
        requires place { self.old.place < 65536 }
        requires stack { Holds 1 (running_of self.old) }
        ensures { Does self.old self.new (Instr.Branch target) }
    {
        let value = self.stack.pop();
        let place = if holds(value) {
            self.place + 1
        } else {
            target as usize
        };
        self.move_to(place);
    }

    pub(crate) fn turn(&mut self, cell: u32, turns: u32, target: u32)
        requires place { self.old.place < 65536 }
        requires cell { HasCells cell 1 (running_of self.old) }
        ensures { Does self.old self.new (Instr.Loop cell turns target) }
    {
        let count = add(self.cells[cell as usize], 1);
        self.cells[cell as usize] = count;
        let place = if count < i64::from(turns) {
            target as usize
        } else {
            self.place + 1
        };
        self.move_to(place);
    }

    pub(crate) fn copy(&mut self, from: u32, to: u32, size: u32)
        requires place { self.old.place < 65536 }
        requires from { HasCells from size (running_of self.old) }
        requires to { HasCells to size (running_of self.old) }
        ensures { Does self.old self.new (Instr.Copy from to size) }
    {
        copy(
            self.cells.as_mut_slice(),
            from as usize,
            to as usize,
            size as usize,
        );
        self.go_on();
    }

    pub(crate) fn receive(&mut self, port: u32, cell: u32, value: i64)
        requires place { self.old.place < 65536 }
        requires cell { HasCells cell 1 (running_of self.old) }
        requires port { port < length self.old.taken.items }
        requires more { slice_index self.old.taken.items port < 2 ^ 63 }
        ensures { Becomes self.old self.new (received port cell value (running_of self.old)) }
    {
        self.cells[cell as usize] = value;
        self.taken[port as usize] += 1;
        self.go_on();
    }

    /// Pops the value that goes out.
    pub(crate) fn send(&mut self) -> i64
        requires place { self.old.place < 65536 }
        requires stack { Holds 1 (running_of self.old) }
        ensures value { result ≡ top self.old.stack }
        ensures task { Becomes self.old self.new (go_on (below self.old.stack) self.old.cells.items (running_of self.old)).task }
    {
        let value = self.stack.pop();
        self.go_on();
        value
    }

    /// The words of the states.
    pub(crate) fn state(&self) -> &[i64]
        requires { self.now.words ≤ length self.now.cells.items }
        ensures { result.now ≡ state_of self.now }
    {
        &self.cells.as_slice()[..self.words]
    }

    /// On to the next frame.
    pub(crate) fn end(&mut self)
        requires words { self.old.words ≤ length self.old.cells.items }
        requires ended { self.old.ended < 2 ^ 63 }
        ensures { Becomes self.old self.new (end_frame self.old.words (running_of self.old)).task }
    {
        clear(self.cells.as_mut_slice(), self.words);
        self.ended += 1;
        self.place = 0;
        self.dispatched = 0;
        self.spent = 0;
    }
}

fn apply(stack: &mut Stack, op: Op)
    requires holds { (if is_unary op then 1 else 2) ≤ length stack.old }
    requires depth { length stack.old ≤ 128 }
    ensures { stack.new ≡ applied op stack.old }
{
    let a = stack.pop();
    let value = if op.is_unary() {
        unary(op, a)
    } else {
        binary(op, stack.pop(), a)
    };
    stack.push(value);
}
