ghost use Rattle.tcel_tool.specs.Headline.{CompiledProgramsMeetTheirSource};
ghost use Rattle.tcel_tool.specs.JudgedRuns.{JudgeAcceptsRuns, RunsAreAccepted, RunsOfWrittenImagesAreAccepted};
ghost use Rattle.tcel_tool.specs.LinkedRuns.{LinkedRunsMeetTheirSource};
ghost use Rattle.tcel_tool.specs.WrittenImages.{RunsOfWrittenImagesMeet, WrittenImagesAreTaken};

/// Every run of the image of a choice does what the program's source says, in order and in time (docs/architecture.md, "How the proof goes").
pub fn compiled_programs_meet_their_source()
    ensures headline { CompiledProgramsMeetTheirSource }
{}

/// What `run` makes of an image that `compile` wrote: it refuses no such image, and what it shows meets the program.
pub fn written_images_run_as_their_source()
    ensures headline { RunsOfWrittenImagesMeet }
    ensures taken { WrittenImagesAreTaken }
{}

/// What `linked` writes meets the linked meaning of the program, and its own sends explain what linked inputs
/// receive (docs/language.md, "Linked tasks").
pub fn linked_runs_meet_their_source()
    ensures { LinkedRunsMeetTheirSource }
{}

/// What `judge` makes of a run of such an image: the text of every run is that of lines of which it says yes,
/// and so is what `run` shows of the written image.
pub fn runs_are_accepted()
    ensures headline { RunsAreAccepted }
    ensures written { RunsOfWrittenImagesAreAccepted }
    ensures judged { JudgeAcceptsRuns }
{}
