ghost use Rattle.std.specs.Prelude.{◌≡◌, map, position};
ghost use Rattle.tcel_core.specs.Plain.{plain_task};
ghost use Rattle.tcel_core.specs.Sound.{IsSoundSet};
ghost use Rattle.tcel_link.specs.Links.{input_of, output_of};
ghost use Rattle.tcel_script.specs.Script.{same};

use tcel_core::CoreTask;
use tcel_num::Name;

/// A port: the number of its task, and its own among the task's inputs or among its outputs.
#[derive(Clone, Copy, Debug)]
pub(crate) struct Port {
    pub(crate) task: u32,
    pub(crate) port: u32,
}

/// The output of a task by their names, where there is one.
pub(crate) fn output_of(tasks: &[CoreTask], task: &[u8], output: &[u8]) -> Option<Port>
    requires { IsSoundSet (map plain_task tasks.now) }
    ensures { result ≡ output_of (map plain_task tasks.now) task.now output.now }
{
    let number = task_of(tasks, task)?;
    let port = name_at(tasks[number].outputs.as_slice(), output)?;
    Some(Port {
        task: number as u32,
        port: port as u32,
    })
}

/// The input of a task by their names, where there is one.
pub(crate) fn input_of(tasks: &[CoreTask], task: &[u8], input: &[u8]) -> Option<Port>
    requires { IsSoundSet (map plain_task tasks.now) }
    ensures { result ≡ input_of (map plain_task tasks.now) task.now input.now }
{
    let number = task_of(tasks, task)?;
    let port = name_at(tasks[number].inputs.as_slice(), input)?;
    Some(Port {
        task: number as u32,
        port: port as u32,
    })
}

fn task_of(tasks: &[CoreTask], name: &[u8]) -> Option<usize>
    ensures { result ≡ position (λ task. same task.name name.now) tasks.now }
{
    tasks.iter().position(|task| task.name.bytes() == name)
}

fn name_at(names: &[Name], wanted: &[u8]) -> Option<usize>
    ensures { result ≡ position (λ name. same name wanted.now) names.now }
{
    names.iter().position(|name| name.bytes() == wanted)
}
