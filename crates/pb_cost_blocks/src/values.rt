ghost use Rattle.std.specs.Prelude.{◌≡◌, ◌+ℤ◌, ◌-ℤ◌, ◌≤◌, ◌≤ℤ◌, ◌*ℤ◌, ◌&&◌, pos, negsuc, true, MatchOption};
ghost use Rattle.pb_core_language.specs.Sound.{is_bound, is_small};
ghost use Rattle.pb_cost_blocks.specs.Values.{IsEndOf, IsValuesOf};

use crate::end::End;
use pb_core_language::{Base, Lin};
use pb_cost_joins::{Line, Ray, Span};

/// The furthest that an end of a foreach is from nothing, or from N.
const MOST_OFF: i64 = 100_000;

/// How many values the variable has, from the span's first number on: `high - low + 1`, which may be below 0. None where an
/// end is none of a foreach.
pub(crate) fn values_of(span: Span, low: Lin, high: Lin) -> Option<Ray>
    ensures { MatchOption result (is_bound low ≡ true → is_bound high ≡ true → ⊥) (λ ray. (is_bound low ≡ true) × (is_bound high ≡ true) × IsValuesOf span low high ray) }
{
    let Some(first) = end_of(span, low) else {
        return None;
    };
    let Some(last) = end_of(span, high) else {
        return None;
    };
    Some(between(first, last))
}

/// An end of a foreach, from the span's first number on.
fn end_of(span: Span, lin: Lin) -> Option<End>
    ensures { MatchOption result (is_bound lin ≡ true → ⊥) (λ e. (is_bound lin ≡ true) × IsEndOf span lin e) }
{
    let off = i64::from(lin.off);
    if !is_small(off) {
        return None;
    }
    match lin.base {
        Base::Fixed => Some(fixed(off)),
        Base::Param => Some(param(span, off)),
        Base::Var => None,
    }
}

/// A number as an end.
fn fixed(off: i64) -> End
    requires low { negsuc 99999 ≤ℤ off }
    requires high { off ≤ℤ pos 100000 }
    ensures start { result.start ≡ off }
    ensures slope { result.slope ≡ pos 0 }
{
    End {
        start: off,
        slope: 0,
    }
}

/// `N + off` as an end.
fn param(span: Span, off: i64) -> End
    requires low { negsuc 99999 ≤ℤ off }
    requires high { off ≤ℤ pos 100000 }
    ensures start { result.start ≡ span.from +ℤ off }
    ensures slope { result.slope ≡ pos 1 }
{
    End {
        start: span.from + off,
        slope: 1,
    }
}

/// Whether it is within 100,000 of zero.
fn is_small(off: i64) -> bool
    ensures { result ≡ is_small off }
{
    -MOST_OFF <= off && off <= MOST_OFF
}

/// The line of how many numbers there are from one end to the other.
fn between(first: End, last: End) -> Ray
    ensures start { result.start ≡ (last.start +ℤ pos 1) -ℤ first.start }
    ensures slope { result.slope ≡ last.slope -ℤ first.slope }
{
    Ray {
        start: last.start + 1 - first.start,
        slope: last.slope - first.slope,
    }
}

/// The line of what is counted, so much for each value.
pub(crate) fn line_of(once: u64, values: Ray) -> Line
    requires once { once ≤ 4100000 }
    requires start_low { negsuc 900000200000 ≤ℤ values.start }
    requires start_high { values.start ≤ℤ pos 900000200001 }
    requires slope_low { negsuc 0 ≤ℤ values.slope }
    requires slope_high { values.slope ≤ℤ pos 1 }
    ensures weight { result.weight ≡ pos once }
    ensures start { result.ray.start ≡ pos once *ℤ values.start }
    ensures slope { result.ray.slope ≡ pos once *ℤ values.slope }
{
    let weight = signed(once);
    Line {
        weight,
        ray: Ray {
            start: start_of(weight, values.start),
            slope: slope_of(weight, values.slope),
        },
    }
}

/// A small number.
fn signed(once: u64) -> i64
    requires { once ≤ 4100000 }
    ensures { result ≡ pos once }
{
    once as i64
}

/// The line's first number.
#[tactic(auto, using(crate::proofs::Products::start_low, crate::proofs::Products::start_high))]
fn start_of(weight: i64, start: i64) -> i64
    requires weight_low { pos 0 ≤ℤ weight }
    requires weight_high { weight ≤ℤ pos 4100000 }
    requires low { negsuc 900000200000 ≤ℤ start }
    requires high { start ≤ℤ pos 900000200001 }
    ensures is { result ≡ weight *ℤ start }
    ensures least { negsuc 3999999999999999999 ≤ℤ result }
    ensures most { result ≤ℤ pos 4000000000000000000 }
{
    weight * start
}

/// The line's slope.
#[tactic(auto, using(crate::proofs::Products::slope_low, crate::proofs::Products::slope_high))]
fn slope_of(weight: i64, slope: i64) -> i64
    requires weight_low { pos 0 ≤ℤ weight }
    requires weight_high { weight ≤ℤ pos 4100000 }
    requires low { negsuc 0 ≤ℤ slope }
    requires high { slope ≤ℤ pos 1 }
    ensures is { result ≡ weight *ℤ slope }
    ensures least { negsuc 4099999 ≤ℤ result }
    ensures most { result ≤ℤ pos 4100000 }
{
    weight * slope
}
