ghost use Rattle.tcel_gen.specs.Generated.{FormsAreReady, ImagesAreReady, ImagesAreSmall, RunsKeepAbreast, RunsMeetTheirSource};

/// The forms of a checked set mean its tasks, fit the stack and the cells, and have their numbers in range, whichever of the
/// last tasks are sliced into their own parts (docs/code.md).
pub fn forms_are_ready()
    ensures law { FormsAreReady }
{}

/// So their image has a spelling and no flaw (docs/formats.md, docs/machine.md).
pub fn images_are_ready()
    ensures law { ImagesAreReady }
{}

/// The code of a task has at most 36,300 lines, and an image at most 16,777,216 bytes (docs/code.md).
pub fn images_are_small()
    ensures law { ImagesAreSmall }
{}

/// Every run of such an image does what the set's source says, in order and in time, where the demand of its plans fits and no
/// point of them is ever late; and whether it fits or not, each task is abreast of the demand schedule at every time
/// (docs/architecture.md, "How the proof goes").
pub fn runs_meet_their_source()
    ensures meet { RunsMeetTheirSource }
    ensures abreast { RunsKeepAbreast }
{}
