ghost use Rattle.std.specs.Prelude.{◌≡◌, ℕ, ◌<◌, ◌≤◌, ◌*◌, ◌+ℤ◌, ◌*ℤ◌, ◌≤ℤ◌, ◌<ℤ◌, pos, negsuc};
ghost use Rattle.pb_cost_pieces.specs.Joined.{lasts_to, StaysBelow, Lasts};

use crate::ray::Ray;

/// For how many numbers behind its start the lower line isn't above the upper one; None where it never is.
pub(crate) fn stays_below(lower: Ray, upper: Ray) -> Option<u64>
    requires { lower.start ≤ℤ upper.start }
    ensures { StaysBelow result lower upper }
{
    lasts(upper.start - lower.start, upper.slope - lower.slope)
}

/// For how many steps a gap that changes by `slope` with each stays at 0 or above; None where it always does.
#[tactic(auto, using(crate::proofs::Crossings::always, crate::proofs::Crossings::for_some))]
fn lasts(gap: i64, slope: i64) -> Option<u64>
    requires low { pos 0 ≤ℤ gap }
    requires high { gap ≤ℤ pos 8000000000000000000 }
    requires slope_low { negsuc 8199999 ≤ℤ slope }
    ensures { Lasts result gap slope }
{
    if 0 <= slope {
        return None;
    }
    Some(quotient(natural(gap), natural(0 - slope)))
}

/// A number that isn't below 0.
fn natural(x: i64) -> u64
    requires { pos 0 ≤ℤ x }
    ensures { pos result ≡ x }
{
    x as u64
}

/// How often `b` goes into `a`.
fn quotient(a: u64, b: u64) -> u64
    requires { 0 < b }
    ensures below { (j : ℕ) → j ≤ result → b * j ≤ a }
    ensures above { (j : ℕ) → result < j → a < b * j }
{
    a / b
}
