ghost use Rattle.std.specs.Prelude.{◌≡◌, ◌++◌, [], ◌∷◌, filter};
ghost use Rattle.tcel_core.specs.declared.var.VarKind.{VarKind};
ghost use Rattle.tcel_core.specs.declared.var.Keep.{Keep};
ghost use Rattle.tcel_core.specs.Kept.{by_item, by_test};
ghost use Rattle.tcel_core.specs.Kinds.{is_fetched, is_kind_1, is_kind_2, is_kind_3};
ghost use Rattle.tcel_core.specs.Numbering.{numbers_from};
ghost use Rattle.tcel_core.specs.Parts.{parts_of};
ghost use Rattle.tcel_core.specs.SlicingExamples.{added_var, branch, branch_body, branch_first, branch_rest, branch_users, branch_vars, live, mixed, mixed_first, mixed_rest, mixed_vars, reaching, standing_around, step, step_first, step_rest, step_vars};

/// What reaches what, the kinds of variables and the two parts, worked out on an `if` of which one branch is left for
/// the rest (docs/slicing.md).
pub fn split_example()
    ensures reaching { reaching branch_body (numbers_from 0 7) branch_users (numbers_from 0 3) ≡
        (0, by_item 1, 2) ∷ (0, by_test 0, 2) ∷ (1, by_item 2, 1) ∷ (3, by_item 4, 1) ∷ (5, by_item 6, 1) ∷ [] }
    ensures around { standing_around branch_body 0 (numbers_from 0 7) ≡ 1 ∷ 2 ∷ 3 ∷ 4 ∷ [] }
    ensures kind_1 { filter (is_kind_1 branch) (numbers_from 0 3) ≡ 2 ∷ [] }
    ensures kind_2 { filter (is_kind_2 branch) (numbers_from 0 3) ≡ 0 ∷ [] }
    ensures kind_3 { filter (is_kind_3 branch) (numbers_from 0 3) ≡ 1 ∷ [] }
    ensures fetched { filter (is_fetched branch) (numbers_from 0 3) ≡ [] }
    ensures live { live branch (numbers_from 0 7) (numbers_from 0 3) ≡
        (0, []) ∷ (1, []) ∷ (2, []) ∷ (3, []) ∷ (4, []) ∷ (5, 1 ∷ []) ∷ (6, []) ∷ [] }
    ensures parts { parts_of branch ≡ record {
      first = branch_first;
      rest = branch_rest;
      vars = branch_vars ++ (added_var VarKind.Int ∷ added_var VarKind.Int ∷ added_var VarKind.Bool ∷ []);
      words = 6;
    } }
{}

/// A value that the rest reads before the first part changes it (docs/slicing.md).
pub fn saved_example()
    ensures live { live (step Keep.Local) (numbers_from 0 4) (numbers_from 0 2) ≡
        (0, 1 ∷ []) ∷ (1, []) ∷ (2, []) ∷ (3, []) ∷ [] }
    ensures parts { parts_of (step Keep.Local) ≡ record {
      first = step_first;
      rest = step_rest;
      vars = step_vars Keep.Local ++ (added_var VarKind.Int ∷ added_var VarKind.Int ∷ []);
      words = 4;
    } }

    // A state is wanted at the body's end too.
    ensures live_state { live (step Keep.State) (numbers_from 0 4) (numbers_from 0 2) ≡
        (0, 1 ∷ []) ∷ (1, []) ∷ (2, 1 ∷ []) ∷ (3, []) ∷ [] }
    ensures words_of_state { (parts_of (step Keep.State)).words ≡ 5 }
{}

/// An array that the first part reads before it writes it whole, a block with a window, an `if` without kept items, and a
/// loop as one item (docs/slicing.md).
pub fn fetched_example()
    ensures kind_3 { filter (is_kind_3 mixed) (numbers_from 0 5) ≡ 0 ∷ [] }
    ensures fetched { filter (is_fetched mixed) (numbers_from 0 5) ≡ 0 ∷ [] }
    ensures parts { parts_of mixed ≡ record {
      first = mixed_first;
      rest = mixed_rest;
      vars = mixed_vars ++ (added_var (VarKind.Array 2) ∷ added_var (VarKind.Array 2) ∷ []);
      words = 11;
    } }
{}
