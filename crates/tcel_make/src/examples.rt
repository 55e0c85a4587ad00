ghost use Rattle.std.specs.Prelude.{◌≡◌, ◌++◌, []};
ghost use Rattle.tcel_make.specs.Examples.{first_line, first_task, second_line, second_task, text_of};
ghost use Rattle.tcel_make.specs.Program.{program_text};
ghost use Rattle.tcel_make.specs.Script.{script_text};

/// The program of seed 1 with two tasks, and the script for it (docs/formats.md).
pub fn text_examples()
    ensures program { program_text 1 2 ≡ text_of (first_task ++ second_task) }
    ensures script { script_text 2 ≡ first_line ++ second_line }
    ensures none { program_text 1 0 ≡ [] }
{}
