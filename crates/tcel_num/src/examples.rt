ghost use Rattle.std.specs.Prelude.{◌≡◌, map};
ghost use Rattle.tcel_num.specs.Arithmetic.{unary_value, binary_value};
ghost use Rattle.tcel_num.specs.Examples.{unary_examples, binary_examples};

/// Edge values of the operators (docs/language.md).
pub fn arithmetic_example()
    ensures unary { map (λ e. unary_value e.0 e.1) unary_examples ≡ map (λ e. e.2) unary_examples }
    ensures binary { map (λ e. binary_value e.0 e.1 e.2) binary_examples
        ≡ map (λ e. e.3) binary_examples }
{}
