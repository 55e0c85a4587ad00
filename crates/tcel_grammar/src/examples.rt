ghost use Rattle.std.specs.Prelude.{[]};
ghost use Rattle.tcel_grammar.specs.declared.deep.Deep.{Deep};
ghost use Rattle.tcel_grammar.specs.Faults.{IsAccepted, IsSyntaxFault, IsDepthFault};
ghost use Rattle.tcel_grammar.specs.Examples.{around, chain, chain_tree, column, doubled, end_of, nested, summed, task_around, tokens_of};
ghost use Rattle.tcel_tree.specs.Language.{Task};
ghost use Rattle.std.specs.Prelude.{List};

/// Tokens that are a program's, with its tree.
pub fn tree_examples()
    ensures chain { IsAccepted (tokens_of (around chain)) (task_around chain_tree) }
    ensures nested { (p : List Task) × IsAccepted (tokens_of (around (nested 30))) p }
    ensures summed { (p : List Task) × IsAccepted (tokens_of (around (summed 64))) p }
{}

/// Tokens that are none, with the place of the first fault: a second operator in front of an operand, an empty text, brackets 33
/// deep and 65 operators.
pub fn fault_examples()
    ensures doubled { IsSyntaxFault (tokens_of (around doubled)) (end_of 16) (column 12) }
    ensures empty { IsSyntaxFault [] (end_of 0) (column 1) }
    ensures nested { IsDepthFault (tokens_of (around (nested 31))) Deep.Nesting (column 40) }
    ensures summed { IsDepthFault (tokens_of (around (summed 65))) Deep.Operators (column 139) }
{}
