ghost use Rattle.tcel_parts.specs.Fitting.{OwnPartsAreInScope};
ghost use Rattle.tcel_parts.specs.SliceLaw.{PartsMeanTheBody};

/// The law of slicing: from any words of a checked task's variables and of the copies and temporaries, and any inputs, the
/// first part and then the rest make the body's events in the body's blocks, the rest none of them, and leave its inputs
/// and its states (docs/slicing.md).
pub fn parts_mean_the_body()
    ensures law { PartsMeanTheBody }
{}

/// The parts of a checked task are statements of which the code's theorem speaks (docs/slicing.md).
pub fn own_parts_are_in_scope()
    ensures law { OwnPartsAreInScope }
{}
