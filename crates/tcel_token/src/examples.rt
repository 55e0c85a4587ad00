ghost use Rattle.std.specs.Prelude.{◌≡◌, [], ◌∷◌, codes, false, map};
ghost use Rattle.tcel_num.specs.Name.{reserved_words};
ghost use Rattle.tcel_token.specs.Examples.{at, first_line, less_is, letters, name, number, tokens, two_line_tokens, two_lines, two_slashes, two_words};
ghost use Rattle.tcel_token.specs.Pieces.{are_pieces};
ghost use Rattle.tcel_token.specs.Spelling.{word_bytes, words};
ghost use Rattle.tcel_token.specs.Tokens.{HasFault, HasTokens};
ghost use Rattle.tcel_token.specs.declared.fail.LexFail.TheVariants.{BadByte, BadNumber, NameTooLong};

/// What some texts are read as (docs/language.md).
pub fn token_examples()
    ensures words { map word_bytes words ≡ reserved_words }
    ensures lines { HasTokens two_lines two_line_tokens }
    ensures empty { HasTokens [] (tokens [] (at 1 1)) }
    ensures last_comment { HasTokens (codes "x//") (tokens (first_line (name (codes "x")) 0 1 ∷ []) (at 1 4)) }
    ensures longest_name { HasTokens (letters 32) (tokens (first_line (name (letters 32)) 0 32 ∷ []) (at 1 33)) }
    ensures too_long { HasFault (letters 33) (NameTooLong (at 1 1)) }
    ensures greatest { HasTokens (codes "9223372036854775807") (tokens (first_line (number 9223372036854775807) 0 19 ∷ []) (at 1 20)) }
    ensures too_large { HasFault (codes "0 9223372036854775808 @") (BadNumber (at 1 3)) }
    ensures bad_byte { HasFault (10 ∷ 13 ∷ codes "a : b") (BadByte (at 2 4)) }
    ensures not_alone { HasFault (codes "!") (BadByte (at 1 1)) }
    ensures longer_sign { are_pieces less_is [] ≡ false }
    ensures longer_word { are_pieces two_words [] ≡ false }
    ensures comment { are_pieces two_slashes [] ≡ false }
{}
