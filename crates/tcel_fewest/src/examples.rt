ghost use Rattle.std.specs.Prelude.{◌≡◌, [], ◌∷◌, true, false};
ghost use Rattle.tcel_fewest.specs.Examples.{plan_for};
ghost use Rattle.tcel_fewest.specs.Sets.{Precedes, has, plans_of, size_of};

/// Of three tasks, number 5 is the set of tasks 0 and 2, since 5 is 4 and 1; of twelve tasks, number 2048
/// is task 0 alone, and number 4095 has all.
pub fn set_examples()
    ensures highest { has 5 2 ≡ true }
    ensures middle { has 5 1 ≡ false }
    ensures lowest { has 5 0 ≡ true }
    ensures two { size_of 3 5 ≡ 2 }
    ensures none { size_of 3 0 ≡ 0 }
    ensures alone { size_of 12 2048 ≡ 1 }
    ensures all { size_of 12 4095 ≡ 12 }
{}

/// Of three tasks: task 0 alone, number 4, comes before tasks 1 and 2, number 3; task 2 alone, number 1,
/// before task 1 alone, number 2.
pub fn order_examples()
    ensures by_size { Precedes 3 4 3 }
    ensures not_by_number { ¬ (Precedes 3 3 4) }
    ensures by_number { Precedes 3 1 2 }
    ensures not_back { ¬ (Precedes 3 2 1) }
    ensures not_itself { ¬ (Precedes 3 5 5) }
{}

/// Of three tasks with the totals 1, 2 and 3 whole and 4, 5 and 6 sliced, the set of task 0, number 4,
/// and that of tasks 1 and 2, number 3.
pub fn plan_examples()
    ensures first { plans_of 4 (plan_for 1 ∷ plan_for 2 ∷ plan_for 3 ∷ [])
        (plan_for 4 ∷ plan_for 5 ∷ plan_for 6 ∷ [])
        ≡ plan_for 4 ∷ plan_for 2 ∷ plan_for 3 ∷ [] }
    ensures others { plans_of 3 (plan_for 1 ∷ plan_for 2 ∷ plan_for 3 ∷ [])
        (plan_for 4 ∷ plan_for 5 ∷ plan_for 6 ∷ [])
        ≡ plan_for 1 ∷ plan_for 5 ∷ plan_for 6 ∷ [] }
{}
