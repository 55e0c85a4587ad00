ghost use Rattle.tcel_target.specs.Laws.{SayOneThing, TargetsAreInRange};

/// Laws of targets, for proofs: bytes say one table of costs or one fault, and the costs are in their ranges.
pub fn target_laws()
    ensures told { SayOneThing }
    ensures ranges { TargetsAreInRange }
{}
