ghost use Rattle.std.specs.Prelude.{◌≡◌, [], ◌∷◌, pos, None, Some};
ghost use Rattle.tcel_num.specs.declared.op.Op.TheVariants.{Greater};
ghost use Rattle.tcel_core.specs.Examples.{plus, window};
ghost use Rattle.tcel_core.specs.Language.{assign, binary, done, next, number, receive, send, timed, variable};
ghost use Rattle.tcel_core.specs.SlicingExamples.{branch_body};
ghost use Rattle.tcel_flow.specs.Shape.{at_item, changes, closes, opens, places};

/// The steps of a body with an `if`, which a block around it doesn't change (docs/slicing.md).
pub fn shape_example()
    ensures shape { places branch_body ≡
        at_item 0 (receive 2 0)
        ∷ opens 0 (binary Greater (variable 2) (number (pos 0)))
        ∷ at_item 1 (assign 1 (variable 2))
        ∷ at_item 2 (send (variable 1) 0)
        ∷ changes
        ∷ at_item 3 (assign 1 (number (pos 5)))
        ∷ at_item 4 (assign 0 (plus 0 (variable 1)))
        ∷ closes
        ∷ at_item 5 (assign 1 (number (pos 7)))
        ∷ at_item 6 (send (variable 1) 0)
        ∷ [] }
    ensures in_block { places (next (timed 1 (window None None (Some 9)) branch_body) done) ≡ places branch_body }
{}
