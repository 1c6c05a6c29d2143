ghost use Rattle.std.specs.Prelude.{◌≡◌, ◌<◌, ℕ, ℤ, pos, ◌&&◌, int_le, true, false, List, IfSome};
ghost use Rattle.pb_affine.specs.declared.lin.Lin.{Lin};
ghost use Rattle.pb_affine.specs.declared.range.NRange.{NRange};
ghost use Rattle.pb_part_areas.specs.Areas.{has, at, is_before, IsUpright, IsSomewhere, LiesBack};
ghost use Rattle.pb_part_areas.specs.Fits.{Fits};

use crate::area::{Area, since, until};
use crate::numbers::{is_at_most, is_param, meet};

/// The same ranks, for no N at which the end is below the low end, where the ends meet at some N.
pub(crate) fn tightened(a: Area) -> Area
    ensures is { (n : ℤ) (role : ℕ) (x : ℤ) → has result n role x ≡ has a n role x }
    ensures fits { (range : NRange) (cuts : List Lin) → Fits range cuts a → Fits range cuts result }
{
    if is_param(a.low.base) == is_param(a.end.base) {
        a
    } else if is_param(a.end.base) {
        let t = meet(a.low, a.end);
        since(a, t)
    } else {
        let t = meet(a.end, a.low);
        until(a, t)
    }
}

/// True where the first number is before the end.
pub(crate) fn is_open(from: u32, until: Option<u32>) -> bool
    ensures open { result ≡ true → IfSome until (λ b. from < b) }
    ensures closed { result ≡ false → (n : ℤ) → int_le (pos from) n && is_before n until ≡ false }
{
    match until {
        None => true,
        Some(until) => from < until,
    }
}

#[tactic(auto, using(crate::proofs::Parts::empty_same, crate::proofs::Parts::empty_from, crate::proofs::Parts::empty_until, crate::proofs::Wide::wide_same, crate::proofs::Wide::wide_from, crate::proofs::Wide::wide_late, crate::proofs::Wide::wide_until))]
/// True exactly where the area has no index, for each N that it speaks of, if it speaks of any.
fn is_narrow(a: Area) -> bool
    ensures narrow { result ≡ true → (n : ℤ) (role : ℕ) (x : ℤ) → has a n role x ≡ false }
    ensures wide { result ≡ false → IfSome a.until (λ b. a.from < b) → IsSomewhere a }
{
    if is_param(a.low.base) == is_param(a.end.base) {
        a.end.off <= a.low.off
    } else if is_param(a.low.base) {
        is_at_most(a.end.off, 0, a.low.off, a.from)
    } else {
        match a.until {
            None => false,
            Some(until) => is_at_most(a.end.off, until, a.low.off, 1),
        }
    }
}

/// True exactly where the area holds of nothing.
#[tactic(auto, using(crate::proofs::Parts::over))]
pub fn is_empty(a: Area) -> bool
    ensures empty { result ≡ true → (n : ℤ) (role : ℕ) (x : ℤ) → has a n role x ≡ false }
    ensures some { result ≡ false → IsSomewhere a }
{
    if is_open(a.from, a.until) {
        is_narrow(a)
    } else {
        true
    }
}

#[tactic(auto, using(crate::proofs::Parts::upright_same, crate::proofs::Parts::upright_from, crate::proofs::Parts::upright_until, crate::proofs::Wide::back_same, crate::proofs::Wide::back_from, crate::proofs::Wide::back_late, crate::proofs::Wide::back_until))]
/// True exactly where the area's end isn't below its low end, for each N that it speaks of, if it speaks of any.
pub(crate) fn is_upright(a: Area) -> bool
    ensures upright { result ≡ true → IsUpright a }
    ensures back { result ≡ false → IfSome a.until (λ b. a.from < b) → LiesBack a }
{
    if is_param(a.low.base) == is_param(a.end.base) {
        a.low.off <= a.end.off
    } else if is_param(a.end.base) {
        is_at_most(a.low.off, 0, a.end.off, a.from)
    } else {
        match a.until {
            None => false,
            Some(until) => is_at_most(a.low.off, until, a.end.off, 1),
        }
    }
}
