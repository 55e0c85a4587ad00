ghost use Rattle.std.specs.Prelude.{Ok, Err, codes};
ghost use Rattle.tcel_target.specs.declared.costs.CostKey.TheVariants as keys;
ghost use Rattle.tcel_target.specs.declared.fail.TargetFail.TheVariants.{NotToml, Strange, Missing, Range};
ghost use Rattle.tcel_target.specs.Costs.{unit_costs};
ghost use Rattle.tcel_target.specs.Examples.{dispatched, dispatched_text, unit_text};
ghost use Rattle.tcel_target.specs.Target.{Says};

/// What targets say, worked out (docs/formats.md), and what they don't say.
pub fn target_examples()
    ensures unit { Says unit_text (Ok unit_costs) }
    ensures dispatched { Says dispatched_text (Ok dispatched) }
    ensures not_toml { Says (codes "const =") (Err NotToml) }
    ensures strange { Says (codes "b = 1\na = 1\nconst = 0\n") (Err (Strange (codes "a"))) }
    ensures missing { Says (codes "load = 0\n") (Err (Missing keys.Const)) }
    ensures range { Says (codes "const = 1\nload = 0\n") (Err (Range keys.Load)) }

    ensures no_dispatch { ¬ (Says unit_text (Err (Missing keys.Dispatch))) }
    ensures other_costs { ¬ (Says dispatched_text (Ok unit_costs)) }
    ensures other_strange { ¬ (Says (codes "b = 1\na = 1\nconst = 0\n") (Err (Strange (codes "b")))) }
    ensures later_fault { ¬ (Says (codes "load = 0\n") (Err (Range keys.Load))) }
{}
