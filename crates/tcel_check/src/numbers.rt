ghost use Rattle.std.specs.Prelude.{◌≤◌, length};

use indexmap::IndexSet;
use tcel_num::Name;

/// Names by their numbers, at most 256.
#[derive(Drop)]
pub struct Numbers {
    pub names: IndexSet<Name>,
    ghost few: { length names.keys ≤ 256 },
}

/// The numbers of a task's variables, inputs and outputs.
#[derive(Drop)]
pub struct TaskNumbers {
    pub vars: Numbers,
    pub inputs: Numbers,
    pub outputs: Numbers,
}
