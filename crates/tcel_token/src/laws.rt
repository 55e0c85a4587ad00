ghost use Rattle.std.specs.Prelude.{◌≡◌, List, ℕ, All};
ghost use Rattle.tcel_token.specs.Terminal.{Terminal, terminals};
ghost use Rattle.tcel_token.specs.Tokens.{HasFault, HasTokens};
ghost use Rattle.tcel_token.specs.WellFormed.{AreWellFormed, IsWritable};
ghost use Rattle.tcel_token.specs.declared.fail.LexFail.{LexFail};
ghost use Rattle.tcel_token.specs.declared.token.Tokens.{Tokens};

/// A text has one list of tokens or one fault, and its tokens are such as a text can spell, at places that rise.
pub fn token_laws()
    ensures one_list { (text : List ℕ) (a b : Tokens) → HasTokens text a → HasTokens text b → a ≡ b }
    ensures one_fault { (text : List ℕ) (a b : LexFail) → HasFault text a → HasFault text b → a ≡ b }
    ensures no_both { (text : List ℕ) (tokens : Tokens) (fault : LexFail) → HasTokens text tokens → HasFault text fault → ⊥ }
    ensures well_formed { (text : List ℕ) (tokens : Tokens) → HasTokens text tokens → AreWellFormed (terminals tokens.list) tokens.end }
    ensures writable { (text : List ℕ) (tokens : Tokens) → HasTokens text tokens → All (λ (t : Terminal). IsWritable t.kind) (terminals tokens.list) }
{}
