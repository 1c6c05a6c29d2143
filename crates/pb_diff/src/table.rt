ghost use Rattle.std.specs.Prelude.{◌≡◌, ℕ, ◌-◌, ◌^◌, ◌<◌, ◌≤◌, pos, MatchOption, IsTrue, ◌↔◌};
ghost use Rattle.pb_diff.specs.Systems.{IsWithin, number};
ghost use Rattle.pb_diff.specs.Tables.{IsWithinIf, IsThere, Holds, cell, through, reach, IsNearTable, HasLows, IsEliminated, IsLeast, HasNoSolution, IsMet, IsAbove};

/// The bound of each ordered pair of six variables, where there is one: that of `a - b` stands at `6 * a + b`.
pub(crate) type Table = [Option<i64>; 36];

/// The lesser of the bound and the sum of two bounds that follow on each other.
fn through(direct: Option<i64>, to: Option<i64>, from: Option<i64>) -> Option<i64>
    requires to { IsWithinIf (2 ^ 45) to }
    requires from { IsWithinIf (2 ^ 45) from }
    ensures { result ≡ through direct to from }
{
    match (to, from) {
        (Some(x), Some(y)) => Some(smaller(direct, x + y)),
        _ => direct,
    }
}

/// The lesser of the bound, where there is one, and another.
pub(crate) fn smaller(direct: Option<i64>, other: i64) -> i64
    ensures { Some result ≡ through direct (Some other) (Some (pos 0)) }
{
    match direct {
        Some(d) if d <= other => d,
        _ => other,
    }
}

/// The table of the same bounds on the other variables, without the variable `gone`.
fn eliminated(table: &Table, gone: usize) -> Table
    requires variable { gone < 6 }
    requires near { IsNearTable (2 ^ 45) table.now }
    ensures { IsEliminated gone table.now result }
{
    let mut out = [None; 36];
    for i in 0..36 {
        out[i] = through(table[i], table[6 * (i / 6) + gone], table[6 * gone + i % 6]);
    }
    out
}

fn allows_zero(bound: Option<i64>) -> bool
    ensures { IsTrue result ↔ Holds bound (pos 0) }
{
    match bound {
        Some(c) => 0 <= c,
        None => true,
    }
}

/// The least number for the variable `last` that its bounds below the numbers of the first `count` variables allow.
fn raised(table: &Table, numbers: &[i64; 6], last: usize, count: usize) -> i64
    requires some { 0 < count }
    requires few { count ≤ 6 }
    requires variable { last < 6 }
    requires near { IsNearTable (2 ^ 45) table.now }
    requires lows { IsThere (cell table.now 0 last) }
    requires close { (v : ℕ) → IsWithin (2 ^ 45) (number numbers.now v) }
    ensures above { IsAbove table.now numbers.now last count result }
    ensures met { IsMet table.now numbers.now last count result }
{
    let end = count - 1;
    match table[6 * end + last] {
        None => raised(table, numbers, last, end),
        Some(c) => {
            let own = numbers[end] - c;
            if end == 0 {
                return own;
            }
            let rest = raised(table, numbers, last, end);
            if rest < own { own } else { rest }
        }
    }
}

/// The least numbers for the first `vars` variables, with 0 for the others.
pub(crate) fn solved(table: &Table, vars: usize) -> Option<[i64; 6]>
    requires some { 0 < vars }
    requires few { vars ≤ 6 }
    requires near { IsNearTable (reach vars) table.now }
    requires lows { HasLows table.now vars }
    ensures { MatchOption result (HasNoSolution table.now vars) (λ x. IsLeast table.now vars x) }
{
    let last = vars - 1;
    if !allows_zero(table[7 * last]) {
        return None;
    }
    if last == 0 {
        return Some([0; 6]);
    }
    let smaller = eliminated(table, last);
    match solved(&smaller, last) {
        None => None,
        Some(mut numbers) => {
            numbers[last] = raised(table, &numbers, last, last);
            Some(numbers)
        }
    }
}
