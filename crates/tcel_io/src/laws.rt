ghost use Rattle.std.specs.Prelude.{◌≡◌, ℕ, List, length};
ghost use Rattle.std.specs.List.{concat};
ghost use Rattle.tcel_io.specs.Count.{PutsAtMost, Rose};
ghost use Rattle.tcel_io.specs.InTurn.{AreCutOff, AreTaken, ArePut};
ghost use Rattle.tcel_io.specs.Reach.{ReachesWithin};
ghost use Rattle.tcel_io.specs.Seen.{Seen};
ghost use Rattle.tcel_io.specs.Taken.{Takes, TakesPrefix};

/// What pieces that are put one after another do together (docs/commands.md, "Writing to a stream").
pub fn pieces_laws()
    // Where all are taken, their text is taken whole, and no fault is counted.
    ensures whole { (pieces : List (List ℕ)) (old new : Seen) → AreTaken pieces old new → Takes (concat pieces) old.taken new.taken }
    ensures no_fault { (pieces : List (List ℕ)) (old new : Seen) → AreTaken pieces old new → new.faults ≡ old.faults }

    // Where a fault cuts them off, the count of faults rose.
    ensures fault { (pieces : List (List ℕ)) (old new : Seen) → AreCutOff pieces old new → Rose old.faults new.faults }

    // In both cases a prefix of the text is taken, no put reaches past it, and each piece is one put at most.
    ensures prefix { (pieces : List (List ℕ)) (old new : Seen) → ArePut pieces old new → TakesPrefix (concat pieces) old.taken new.taken }
    ensures reach { (pieces : List (List ℕ)) (old new : Seen) → ArePut pieces old new
        → ReachesWithin (concat pieces) old.taken old.reach new.reach }
    ensures puts { (pieces : List (List ℕ)) (old new : Seen) → ArePut pieces old new → PutsAtMost (length pieces) old.puts new.puts }
{}
