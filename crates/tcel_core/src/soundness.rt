ghost use Rattle.std.specs.Prelude.{pos};
ghost use Rattle.tcel_num.specs.declared.op.Op.TheVariants.{Greater, Not};
ghost use Rattle.tcel_core.specs.Language.{number, variable, element, unary, binary};
ghost use Rattle.tcel_core.specs.SlicingExamples.{branch_task, mixed_vars};
ghost use Rattle.tcel_core.specs.Sound.{IsSoundTask};
ghost use Rattle.tcel_core.specs.Typing.{HasType, int, bool};

/// A task of a checked program, and expressions that have a type and that have none (docs/language.md).
pub fn sound_examples()
    ensures sound { IsSoundTask branch_task }
    ensures compared { HasType mixed_vars (binary Greater (element 0 (variable 1)) (number (pos 5))) bool }
    ensures not_int { ¬ (HasType mixed_vars (binary Greater (element 0 (variable 1)) (number (pos 5))) int) }
    ensures truth { HasType mixed_vars (unary Not (number (pos 1))) bool }
    ensures not_truth { ¬ (HasType mixed_vars (unary Not (number (pos 2))) bool) }
    ensures not_scalar { ¬ (HasType mixed_vars (variable 0) int) }
    ensures not_array { ¬ (HasType mixed_vars (element 1 (number (pos 0))) int) }
    ensures not_there { ¬ (HasType mixed_vars (variable 5) int) }
{}
