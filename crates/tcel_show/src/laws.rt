ghost use Rattle.std.specs.Prelude.{List, ℕ};
ghost use Rattle.tcel_grammar.specs.Faults.{IsAccepted, IsShallow};
ghost use Rattle.tcel_grammar.specs.Programs.{IsProgram};
ghost use Rattle.tcel_show.specs.ReadsBack.{ReadsBack};
ghost use Rattle.tcel_token.specs.Terminal.{terminals};
ghost use Rattle.tcel_token.specs.Tokens.{HasTokens};
ghost use Rattle.tcel_token.specs.declared.token.Tokens.{Tokens};
ghost use Rattle.tcel_tree.specs.Language.{Task};

/// The canonical text of a program that a text gives is read as this program again, but for its places, and its
/// canonical text is the same. Where the text is nowhere too deep, its canonical text is nowhere too deep.
pub fn show_laws()
    ensures read { (text : List ℕ) (tokens : Tokens) (p : List Task) → HasTokens text tokens → IsProgram (terminals tokens.list) p → ReadsBack p }
    ensures accepted { (text : List ℕ) (tokens : Tokens) (p : List Task) → HasTokens text tokens → IsAccepted (terminals tokens.list) p
        → (back : ReadsBack p) × IsShallow (terminals back.tokens.list) }
{}
