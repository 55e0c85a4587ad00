ghost use Rattle.tcel_code.specs.CodeCycles.{ExpressionsCostTheirCode};
ghost use Rattle.tcel_code.specs.Compilable.{ImagesAreValid, WholeTasksAreCompilable};
ghost use Rattle.tcel_code.specs.Domination.{RunsKeepAbreast};
ghost use Rattle.tcel_code.specs.PartsFit.{SlicesMean};
ghost use Rattle.tcel_code.specs.Spellable.{ImagesAreInRange};
ghost use Rattle.tcel_code.specs.Theorem.{SetsMeetTheirSource, WholeSetsMeetTheirSource};

/// The cycles that plans count for an expression are those of its code (docs/analysis.md).
pub fn expressions_cost_their_code()
    ensures law { ExpressionsCostTheirCode }
{}

/// Every run of the image of a set does what the set's source says, in order and in time, whichever of its tasks are sliced,
/// where the parts of each task mean its body, the demand fits and no point is ever late (docs/architecture.md, "How the
/// proof goes").
pub fn sets_meet_their_source()
    ensures headline { SetsMeetTheirSource }
{}

/// So does every run of the image of a set of which no task is sliced: such a task's parts are its body and nothing.
pub fn whole_sets_meet_their_source()
    ensures headline { WholeSetsMeetTheirSource }
{}

/// At every time of every run of such an image each task has made the first of its entries, in order, and its frames have run
/// no fewer ticks than the demand schedule has served them: whether the demand fits or not (docs/architecture.md, "How the
/// proof goes").
pub fn runs_keep_abreast()
    ensures law { RunsKeepAbreast }
{}

/// The image of a set has no flaw, where its names differ, its expressions fit the stack and its ports are there
/// (docs/machine.md).
pub fn images_are_valid()
    ensures law { ImagesAreValid }
    ensures whole { WholeTasksAreCompilable }
{}

/// The image of a set that has no flaw has a spelling, where its names are names and its numbers fit (docs/formats.md).
pub fn images_are_in_range()
    ensures law { ImagesAreInRange }
{}

/// The parts of a checked task by its kept set mean its body, from the start of a frame with any state and any inputs, so
/// that the theorem above speaks of them (docs/slicing.md).
pub fn slices_mean_their_body()
    ensures law { SlicesMean }
{}
