ghost use Rattle.std.specs.Prelude.{◌≡◌, ◌<◌, [], FitsSigned, IfOk, IfErr, length, map, pos, slice_index_or, slice_set};
ghost use Rattle.std.specs.Int.{w64};
ghost use Rattle.tcel_core.specs.Meaning.{head_or_zero, tail};

use std::alloc::Global;
use std::marker::Model;
use tcel_num::NoMemory;

/// The values that each input of a task has left, in order.
#[derive(Debug, Drop)]
pub struct Inputs {
    lists: Vec<Vec<i64>>,
    /// How many values of each list are gone.
    taken: Vec<usize>,
}

impl Model for Inputs {
    ghost use Rattle.std.specs.Prelude.{◌≡◌, List, ℤ, length};

    ghost Value = { List (List ℤ) };

    ghost use Rattle.tcel_core.specs.Inputs.{left_of};

    ghost view = { λ i. left_of i.lists.items i.taken.items };

    ghost invariant = { λ i. length i.lists.items ≡ length i.taken.items };
}

impl Inputs {
    /// The inputs with these lists, of which nothing is taken yet.
    pub fn new(alloc: Global, lists: Vec<Vec<i64>>) -> Result<Inputs, NoMemory>
        ensures { IfOk result (λ i. i ≡ map (λ list. list.items) lists.items) }
    {
        let taken = vec![in alloc; 0; lists.len()]?;
        Ok(Inputs { lists, taken })
    }
    /// The next value of a port, which is gone then, and 0 where none is left.
    pub(crate) fn next(&mut self, port: u32) -> i64
        ensures value { result ≡ head_or_zero (slice_index_or self.old port []) }
        ensures rest { self.new ≡ slice_set self.old port (tail (slice_index_or self.old port [])) }
    {
        let port = port as usize;
        if port >= self.lists.len() {
            return 0;
        }
        let taken = self.taken[port];
        let list = &self.lists[port];
        if taken >= list.len() {
            return 0;
        }
        let value = value_at(list, taken);
        self.taken[port] = taken + 1;
        value
    }

    /// Makes these values all that a port's list has left; after a refusal it is as it was.
    pub fn set(&mut self, port: usize, values: &[i64]) -> Result<(), NoMemory>
        requires { port < length self.old }
        ensures ok { IfOk result (λ _. self.new ≡ slice_set self.old port values.now) }
        ensures refused { IfErr result (λ _. self.new ≡ self.old) }
    {
        refill(&mut self.lists[port], values)?;
        self.taken[port] = 0;
        Ok(())
    }
}

/// Makes these values all of a list; after a refusal it is as it was.
fn refill(list: &mut Vec<i64>, values: &[i64]) -> Result<(), NoMemory>
    ensures ok { IfOk result (λ _. list.new.items ≡ values.now) }
    ensures refused { IfErr result (λ _. list.new.items ≡ list.old.items) }
{
    list.reserve(values.len())?;
    list.clear();
    list.extend_from_slice(values)?;
    Ok(())
}

fn value_at(list: &Vec<i64>, place: usize) -> i64
    requires { place < length list.now.items }
    ensures value { result ≡ slice_index_or list.now.items place (pos 0) }
    ensures fits { FitsSigned w64 result }
{
    list[place]
}
