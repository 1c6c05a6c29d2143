ghost use Rattle.std.specs.Prelude.{◌≡◌, ℕ, ℤ, pos, ◌&&◌, int_le, int_lt, false, not, List};
ghost use Rattle.pb_affine.specs.declared.lin.Lin.{Lin};
ghost use Rattle.pb_affine.specs.declared.range.NRange.{NRange};
ghost use Rattle.pb_part_areas.specs.Areas.{has, is_before};
ghost use Rattle.pb_part_areas.specs.Fits.{Fits, IsEdgeOf, IsEdgeOfIf};

use crate::numbers::{earlier, later};
use pb_affine::Lin;

/// The ranks of one role whose index lies from `low` on and before `end`, for the N from `from` on and before `until`.
/// The lins have no variable; one that has counts with 0 for it.
#[derive(Clone, Copy)]
pub struct Area {
    /// The role's number.
    pub role: u32,
    /// The least index.
    pub low: Lin,
    /// The index after the greatest.
    pub end: Lin,
    /// The least N.
    pub from: u32,
    /// The N after the greatest. None where there is no greatest.
    pub until: Option<u32>,
}

/// The part of the area from N = t on. Takes no memory.
#[tactic(auto, using(crate::proofs::Parts::since_is))]
pub fn since(a: Area, t: u32) -> Area
    ensures is { (n : ℤ) (role : ℕ) (x : ℤ) → has result n role x ≡ has a n role x && int_le (pos t) n }
    ensures fits { (range : NRange) (cuts : List Lin) → Fits range cuts a → IsEdgeOf range cuts (pos t) → Fits range cuts result }
{
    let from = later(a.from, t);
    Area { from, ..a }
}

/// The part of the area before N = t. Takes no memory.
#[tactic(auto, using(crate::proofs::Parts::until_is))]
pub fn until(a: Area, t: u32) -> Area
    ensures is { (n : ℤ) (role : ℕ) (x : ℤ) → has result n role x ≡ has a n role x && int_lt n (pos t) }
    ensures fits { (range : NRange) (cuts : List Lin) → Fits range cuts a → IsEdgeOf range cuts (pos t) → Fits range cuts result }
{
    let end = earlier(a.until, t);
    Area { until: end, ..a }
}

/// No part of the area. Takes no memory.
#[tactic(auto, using(crate::proofs::Parts::nowhere_is, crate::proofs::Meets::zero_edge))]
pub fn nowhere(a: Area) -> Area
    ensures is { (n : ℤ) (role : ℕ) (x : ℤ) → has result n role x ≡ false }
    ensures fits { (range : NRange) (cuts : List Lin) → Fits range cuts a → Fits range cuts result }
{
    Area {
        from: 0,
        until: Some(0),
        ..a
    }
}

/// The part of the area before the end of some numbers N.
pub(crate) fn ahead(a: Area, end: Option<u32>) -> Area
    ensures is { (n : ℤ) (role : ℕ) (x : ℤ) → has result n role x ≡ has a n role x && is_before n end }
    ensures fits { (range : NRange) (cuts : List Lin) → Fits range cuts a → IsEdgeOfIf range cuts end → Fits range cuts result }
{
    match end {
        None => a,
        Some(t) => until(a, t),
    }
}

/// The part of the area from the end of some numbers N on.
pub(crate) fn behind(a: Area, end: Option<u32>) -> Area
    ensures is { (n : ℤ) (role : ℕ) (x : ℤ) → has result n role x ≡ has a n role x && not (is_before n end) }
    ensures fits { (range : NRange) (cuts : List Lin) → Fits range cuts a → IsEdgeOfIf range cuts end → Fits range cuts result }
{
    match end {
        None => nowhere(a),
        Some(t) => since(a, t),
    }
}
