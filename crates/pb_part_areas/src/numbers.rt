ghost use Rattle.std.specs.Prelude.{◌≡◌, ℤ, pos, ◌+ℤ◌, ◌-ℤ◌, ◌≤ℤ◌, ◌⊎◌, ◌&&◌, int_le, int_lt, true, false, List};
ghost use Rattle.pb_affine.specs.declared.lin.Lin.{Lin};
ghost use Rattle.pb_affine.specs.declared.range.NRange.{NRange};
ghost use Rattle.pb_part_areas.specs.Areas.{at, is_before, is_param};
ghost use Rattle.pb_part_areas.specs.Fits.{IsCutOf, IsEdgeOf, IsEdgeOfIf};

use pb_affine::{Base, Lin};

/// The later of two numbers N.
pub(crate) fn later(from: u32, t: u32) -> u32
    ensures is { (n : ℤ) → int_le (pos result) n ≡ int_le (pos from) n && int_le (pos t) n }
    ensures edge { (range : NRange) (cuts : List Lin) → IsEdgeOf range cuts (pos from) → IsEdgeOf range cuts (pos t) → IsEdgeOf range cuts (pos result) }
{
    if from < t { t } else { from }
}

/// The earlier of an end of the numbers N and another.
pub(crate) fn earlier(until: Option<u32>, t: u32) -> Option<u32>
    ensures is { (n : ℤ) → is_before n result ≡ is_before n until && int_lt n (pos t) }
    ensures edge { (range : NRange) (cuts : List Lin) → IsEdgeOfIf range cuts until → IsEdgeOf range cuts (pos t) → IsEdgeOfIf range cuts result }
{
    match until {
        None => Some(t),
        Some(until) => Some(sooner(until, t)),
    }
}

fn sooner(until: u32, t: u32) -> u32
    ensures is { (n : ℤ) → int_lt n (pos result) ≡ int_lt n (pos until) && int_lt n (pos t) }
    ensures edge { (range : NRange) (cuts : List Lin) → IsEdgeOf range cuts (pos until) → IsEdgeOf range cuts (pos t) → IsEdgeOf range cuts (pos result) }
{
    if t < until { t } else { until }
}

/// True where a lin with this base grows with N. Takes no memory.
pub fn is_param(base: Base) -> bool
    ensures { result ≡ is_param base }
{
    match base {
        Base::Fixed => false,
        Base::Param => true,
        Base::Var => false,
    }
}

/// How far the first offset is above the second.
fn gap(high: Lin, low: Lin) -> u32
    requires { low.off ≤ℤ high.off }
    ensures { pos result ≡ high.off -ℤ low.off }
{
    (i64::from(high.off) - i64::from(low.off)) as u32
}

#[tactic(auto, using(crate::proofs::Meets::meet_at_once, crate::proofs::Meets::zero_edge))]
/// The first N from 0 on at which a cut that grows with N isn't below one that doesn't. Takes no memory.
pub fn meet(fixed: Lin, param: Lin) -> u32
    requires still { is_param fixed.base ≡ false }
    requires grows { is_param param.base ≡ true }
    ensures is { (n : ℤ) → int_le (pos result) n ≡ int_le (pos 0) n && int_le (at fixed n) (at param n) }
    ensures edge { (range : NRange) (cuts : List Lin) → IsCutOf cuts fixed → IsCutOf cuts param → IsEdgeOf range cuts (pos result) }
    ensures value { (result ≡ 0) ⊎ (pos result ≡ fixed.off -ℤ param.off) }
{
    if fixed.off <= param.off {
        0
    } else {
        gap(fixed, param)
    }
}

/// A sum that fits.
pub(crate) fn plus(a: i32, more: u32) -> i64
    ensures { result ≡ a +ℤ pos more }
{
    i64::from(a) + i64::from(more)
}

/// Whether one sum is at most another.
pub(crate) fn is_at_most(a: i32, more: u32, b: i32, other: u32) -> bool
    ensures { result ≡ int_le (a +ℤ pos more) (b +ℤ pos other) }
{
    let first = plus(a, more);
    let second = plus(b, other);
    first <= second
}
