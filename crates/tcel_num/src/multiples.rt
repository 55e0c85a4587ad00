ghost use Rattle.std.specs.Prelude.{ℕ, [], ◌∷◌, ◌+◌, ◌*◌, ◌^◌, ◌<◌, ◌≤◌, All, IfSome, IfNone};
ghost use Rattle.std.specs.Int.{IsGcd};
ghost use Rattle.tcel_num.specs.Hyperperiod.{IsLeastCommonMultiple};

/// The least number of parts of the size `b` that hold `a`: `a / b`, rounded up.
pub fn ceil_div(a: u64, b: u64) -> u64
    requires some { 0 < b }
    requires fits { a + b < 2 ^ 64 }
    ensures enough { a ≤ result * b }
    ensures least { (parts : ℕ) → a ≤ parts * b → result ≤ parts }
{
    (a + b - 1) / b
}

/// The least common multiple of the periods, of 1 to 10^9 ticks each; that of no periods is 1. None
/// exactly where it is above the limit, of at most 10^12 ticks (docs/analysis.md).
pub fn lcm_within(periods: &[u64], limit: u64) -> Option<u64>
    requires periods { All (λ period. (0 < period) × (period ≤ 10 ^ 9)) periods.now }
    requires limit { limit ≤ 10 ^ 12 }
    ensures value { IfSome result (IsLeastCommonMultiple periods.now) }
    ensures within { IfSome result (λ multiple. multiple ≤ limit) }
    ensures above { IfNone result ((multiple : ℕ)
        × IsLeastCommonMultiple periods.now multiple × (limit < multiple)) }
{
    let mut multiple = 1;
    for period in periods {
        multiple = lcm_of_two(multiple, *period, limit)?;
    }
    if multiple <= limit {
        Some(multiple)
    } else {
        None
    }
}

fn lcm_of_two(a: u64, b: u64, limit: u64) -> Option<u64>
    requires first { 0 < a }
    requires second { 0 < b }
    ensures value { IfSome result (IsLeastCommonMultiple (a ∷ b ∷ [])) }
    ensures within { IfSome result (λ multiple. multiple ≤ limit) }
    ensures above { IfNone result ((multiple : ℕ)
        × IsLeastCommonMultiple (a ∷ b ∷ []) multiple × (limit < multiple)) }
{
    let divisor = gcd(a, b);
    let factor = b / divisor;
    if factor <= limit / a {
        Some(a * factor)
    } else {
        None
    }
}

fn gcd(a: u64, b: u64) -> u64
    ensures { IsGcd a b result }
{
    let mut first = a;
    let mut second = b;
    while second != 0 {
        let rest = first % second;
        first = second;
        second = rest;
    }
    first
}
