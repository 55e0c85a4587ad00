ghost use Rattle.tcel_check.specs.Soundness.{FewWords, sets_are_sound, sound_tasks_are_in_scope};

/// The set of a program without faults is sound, and each sound task is in scope of the theorem on sets;
/// its expressions need few words of stack (docs/language.md).
pub fn set_laws()
    ensures sound { sets_are_sound }
    ensures in_scope { sound_tasks_are_in_scope }
    ensures stack { FewWords }
{}
