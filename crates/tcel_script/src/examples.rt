ghost use Rattle.std.specs.Prelude.{◌≡◌, [], ◌∷◌, map, pos, Ok, codes};
ghost use Rattle.tcel_script.specs.Script.{HasStreams, script_of, with_stream};
ghost use Rattle.tcel_script.specs.Examples.{text, one_port, three_ports, scripts};

/// What some scripts say (docs/formats.md).
pub fn script_examples()
    ensures one { map (λ e. script_of one_port e.0) scripts ≡ map (λ e. e.1) scripts }
    // Each stream stands at its task and input, whatever the order of the lines.
    ensures several { script_of three_ports (text (codes "u b 2 3" ∷ codes "t s 1" ∷ []))
        ≡ Ok (((pos 1 ∷ []) ∷ []) ∷ ([] ∷ (pos 2 ∷ pos 3 ∷ []) ∷ []) ∷ []) }
    // A stream is set whole, at its task and input.
    ensures set { with_stream (((pos 1 ∷ []) ∷ []) ∷ ([] ∷ (pos 2 ∷ pos 3 ∷ []) ∷ []) ∷ []) 1 1 (pos 4 ∷ [])
        ≡ ((pos 1 ∷ []) ∷ []) ∷ ([] ∷ (pos 4 ∷ []) ∷ []) ∷ [] }
    // A stream for each input, and then one too few.
    ensures whole { HasStreams three_ports (([] ∷ []) ∷ ([] ∷ (pos 2 ∷ []) ∷ []) ∷ []) }
    ensures few { ¬ (HasStreams three_ports (([] ∷ []) ∷ ([] ∷ []) ∷ [])) }
{}
