ghost use Rattle.tcel_cost.specs.Answers.{ListsOfPlansAreUnique, PlansAreUnique};
ghost use Rattle.tcel_cost.specs.Steady.{WalksAreSteady};

/// Every walk through a body has its events in order, and from a later entry there is a walk with as many events, each no
/// earlier, that ends no earlier (docs/analysis.md).
pub fn walks_are_steady()
    ensures law { WalksAreSteady }
{}

/// A task has one plan at most in each form, and so has a set (docs/analysis.md).
pub fn plans_are_unique()
    ensures one { PlansAreUnique }
    ensures lists { ListsOfPlansAreUnique }
{}
