ghost use Rattle.std.specs.Prelude.{◌≡◌, ◌⊎◌, List};
ghost use Rattle.tcel_num.specs.declared.at.At.{At};
ghost use Rattle.tcel_token.specs.Terminal.{Terminal};
ghost use Rattle.tcel_tree.specs.Language.{Task};
ghost use Rattle.tcel_grammar.specs.declared.deep.Deep.{Deep};
ghost use Rattle.tcel_grammar.specs.Programs.{IsProgram};
ghost use Rattle.tcel_grammar.specs.Faults.{IsAccepted, IsSyntaxFault, IsDepthFault, place_of};
ghost use Rattle.tcel_grammar.specs.Machine.{program, run, zero_counts, accepted, stopped, deep};

/// Tokens are those of one program at most.
pub fn one_tree()
    ensures { (ts : List Terminal) (p q : List Task) → IsProgram ts p → IsProgram ts q → p ≡ q }
{}

/// Tokens have a tree and are nowhere too deep, or a place where syntax goes wrong, or one where they go too deep.
pub fn some_answer()
    ensures { (ts : List Terminal) (end : At) → ((p : List Task) × IsAccepted ts p)
        ⊎ (((at : At) × IsSyntaxFault ts end at) ⊎ ((what : Deep) × (at : At) × IsDepthFault ts what at)) }
{}

/// They have one of the three, and one place.
pub fn one_answer()
    ensures no_syntax { (ts : List Terminal) (end at : At) (p : List Task) → IsAccepted ts p → ¬ IsSyntaxFault ts end at }
    ensures no_depth { (ts : List Terminal) (what : Deep) (at : At) (p : List Task) → IsAccepted ts p → ¬ IsDepthFault ts what at }
    ensures first { (ts : List Terminal) (end a b : At) (what : Deep) → IsSyntaxFault ts end a → ¬ IsDepthFault ts what b }
    ensures syntax_place { (ts : List Terminal) (end a b : At) → IsSyntaxFault ts end a → IsSyntaxFault ts end b → a ≡ b }
    ensures depth_place { (ts : List Terminal) (v w : Deep) (a b : At) → IsDepthFault ts v a → IsDepthFault ts w b → (v ≡ w) × (a ≡ b) }
{}

/// How the greedy machine ends says which of the three it is, and where.
pub fn machine_laws()
    ensures accepted { (ts : List Terminal) → run zero_counts program ts ≡ accepted → (p : List Task) × IsAccepted ts p }
    ensures syntax { (ts rest : List Terminal) (end : At) → run zero_counts program ts ≡ stopped rest → IsSyntaxFault ts end (place_of rest end) }
    ensures depth { (ts rest : List Terminal) (end : At) (what : Deep) → run zero_counts program ts ≡ deep what rest
        → IsDepthFault ts what (place_of rest end) }
{}
