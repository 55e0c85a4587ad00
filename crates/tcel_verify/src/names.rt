ghost use Rattle.std.specs.Prelude.{◌≡◌, ◌++◌, ◌||◌};
ghost use Rattle.std.specs.List.{list_any};
ghost use Rattle.tcel_image.specs.Validity.{same_name, has_twice, own_names, has_same_name};
ghost use Rattle.tcel_image.specs.declared.image.ImageState.{ImageState};
ghost use Rattle.tcel_image.specs.declared.image.ImageTask.{ImageTask};
ghost use Rattle.tcel_verify.specs.Names.{stands_again, state_names};

use tcel_image::{ImageState, ImageTask};
use tcel_num::Name;

fn is_among(name: &Name, names: &[Name]) -> bool
    ensures { result ≡ list_any (same_name name.now) names.now }
{
    names.iter().any(|other| *name == *other)
}

fn is_state(name: &Name, states: &[ImageState]) -> bool
    ensures { result ≡ list_any (λ (state : ImageState). same_name name.now state.name) states.now }
{
    states.iter().any(|state| *name == state.name)
}

fn is_task(name: &Name, tasks: &[ImageTask]) -> bool
    ensures { result ≡ list_any (λ (other : ImageTask). same_name name.now other.name) tasks.now }
{
    tasks.iter().any(|task| *name == task.name)
}

#[tactic(auto, using(crate::proofs::NameLists::among_all))]
fn stands_among(name: &Name, names: &[Name], others: &[Name], states: &[ImageState]) -> bool
    ensures { result ≡ list_any (same_name name.now) (names.now ++ (others.now ++ state_names states.now)) }
{
    is_among(name, names) || is_among(name, others) || is_state(name, states)
}

#[tactic(auto, using(crate::proofs::NameLists::one_more))]
fn stands_again(names: &[Name], others: &[Name], states: &[ImageState]) -> bool
    ensures { result ≡ stands_again names.now (others.now ++ state_names states.now) }
{
    for (place, name) in names.iter().enumerate() {
        if stands_among(name, &names[place + 1..], others, states) {
            return true;
        }
    }
    false
}

fn state_again(states: &[ImageState]) -> bool
    ensures { result ≡ has_twice (state_names states.now) }
{
    for (place, state) in states.iter().enumerate() {
        if is_state(&state.name, &states[place + 1..]) {
            return true;
        }
    }
    false
}

#[tactic(auto, using(crate::proofs::NameLists::in_two_parts))]
fn has_twice(task: &ImageTask) -> bool
    ensures { result ≡ has_twice (own_names task.now) }
{
    let inputs = task.inputs.as_slice();
    let outputs = task.outputs.as_slice();
    let states = task.states.as_slice();
    stands_again(inputs, outputs, states)
        || stands_again(outputs, &[], states)
        || state_again(states)
}

/// Whether the task has an earlier task's name, or two names within it are one.
pub(crate) fn has_same_name(earlier: &[ImageTask], task: &ImageTask) -> bool
    ensures { result ≡ has_same_name earlier.now task.now }
{
    is_task(&task.name, earlier) || has_twice(task)
}
