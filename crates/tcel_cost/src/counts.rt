ghost use Rattle.std.specs.Prelude.{◌≡◌, ◌+◌, ◌*◌, ◌<◌, ◌^◌, IfSome, Some};
ghost use Rattle.tcel_cost.specs.CostSteps.{both, from_start, greater, held_count, quiet_rounds, times, where_some};

/// The greater of two counts, or the one that is there.
pub(crate) fn greater(one: Option<u64>, other: Option<u64>) -> Option<u64>
    ensures { result ≡ greater one other }
{
    match one {
        None => other,
        Some(count) => match other {
            None => one,
            Some(next) => Some(count.max(next)),
        },
    }
}

/// A count from another start.
pub(crate) fn from_start(start: u64, count: Option<u64>) -> Option<u64>
    requires { IfSome count (λ n. start + n < 2 ^ 64) }
    ensures { result ≡ from_start start count }
{
    match count {
        None => None,
        Some(n) => Some(start + n),
    }
}

/// The sum of two counts, where both are there.
pub(crate) fn both(one: Option<u64>, other: Option<u64>) -> Option<u64>
    requires { IfSome one (λ n. IfSome other (λ m. n + m < 2 ^ 64)) }
    ensures { result ≡ both one other }
{
    match one {
        None => None,
        Some(n) => from_start(n, other),
    }
}

/// A count, where the other is there.
pub(crate) fn where_some(other: Option<u64>, count: Option<u64>) -> Option<u64>
    ensures { result ≡ where_some other count }
{
    match other {
        None => None,
        Some(_) => count,
    }
}

/// So many times a count.
pub(crate) fn times(turns: u64, count: Option<u64>) -> Option<u64>
    requires { IfSome count (λ n. turns * n < 2 ^ 64) }
    ensures { result ≡ times turns count }
{
    match count {
        None => None,
        Some(n) => Some(turns * n),
    }
}

/// What so many rounds take without an event, or nothing where no round is without one.
pub(crate) fn quiet_rounds(turns: u64, count: Option<u64>) -> u64
    requires { IfSome count (λ n. turns * n < 2 ^ 64) }
    ensures { result ≡ quiet_rounds turns count }
{
    match count {
        None => 0,
        Some(n) => turns * n,
    }
}

/// A count behind a hold up to this bound.
pub(crate) fn held_count(bound: u64, count: Option<u64>) -> Option<u64>
    requires { IfSome count (λ n. n + 1 < 2 ^ 64) }
    ensures { result ≡ held_count (Some bound) count }
{
    match count {
        None => None,
        Some(n) => Some((n + 1).max(bound)),
    }
}
