ghost use Rattle.tcel_machine.specs.Defaults.{NoStepTakesADefault};

/// No step of the run of a valid image takes a default of the definition: at every time each task stands at a line of its
/// code with a stack as deep as is written there, and finds the values, cells and input that its instruction names
/// (docs/machine.md).
pub fn no_step_takes_a_default()
    ensures law { NoStepTakesADefault }
{}
