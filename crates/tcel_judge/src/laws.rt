ghost use Rattle.tcel_judge.specs.Laws.{IsSaidOnce, IsYesOnlyWhereMet, IsYesWhereMet};

/// Laws of what a judge says, for proofs: of one trace there is at most one verdict, and lines are accepted
/// exactly where they are those of a trace that meets the set.
pub fn verdict_laws()
    ensures once { IsSaidOnce }
    ensures only { IsYesOnlyWhereMet }
    ensures met { IsYesWhereMet }
{}
