ghost use Rattle.std.specs.Prelude.{◌≡◌, ◌+ℤ◌, ◌-ℤ◌, ◌*ℤ◌, neg_ℤ};
ghost use Rattle.tcel_num.specs.Arithmetic.{wrapped, quotient, remainder};

/// The sum, wrapped into 64 bits (docs/language.md).
#[tactic(auto, using(std::proofs::lemmas::Int::wraps))]
pub fn add(a: i64, b: i64) -> i64
    ensures { result ≡ wrapped (a +ℤ b) }
{
    a.wrapping_add(b)
}

/// The difference, wrapped into 64 bits.
#[tactic(auto, using(std::proofs::lemmas::Int::wraps))]
pub fn sub(a: i64, b: i64) -> i64
    ensures { result ≡ wrapped (a -ℤ b) }
{
    a.wrapping_sub(b)
}

/// The product, wrapped into 64 bits.
#[tactic(auto, using(std::proofs::lemmas::Int::wraps))]
pub fn mul(a: i64, b: i64) -> i64
    ensures { result ≡ wrapped (a *ℤ b) }
{
    a.wrapping_mul(b)
}

/// The quotient, rounded towards 0: 0 where `b` is 0, and the least number where it is divided by -1.
pub fn div(a: i64, b: i64) -> i64
    ensures { result ≡ quotient a b }
{
    if b == 0 { 0 } else { a.wrapping_div(b) }
}

/// The remainder, with the sign of `a`: 0 where `b` is 0.
pub fn rem(a: i64, b: i64) -> i64
    ensures { result ≡ remainder a b }
{
    if b == 0 { 0 } else { a.wrapping_rem(b) }
}

/// The opposite number: that of the least number is itself.
#[tactic(auto, using(std::proofs::lemmas::Int::wraps))]
pub fn neg(a: i64) -> i64
    ensures { result ≡ wrapped (neg_ℤ a) }
{
    a.wrapping_neg()
}
