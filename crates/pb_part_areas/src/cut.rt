ghost use Rattle.std.specs.Prelude.{◌≡◌, ℕ, ℤ, ◌&&◌, int_le, int_lt, List};
ghost use Rattle.pb_affine.specs.declared.lin.Lin.{Lin};
ghost use Rattle.pb_affine.specs.declared.range.NRange.{NRange};
ghost use Rattle.pb_part_areas.specs.Areas.{has, have_two, at, is_param};
ghost use Rattle.pb_part_areas.specs.Fits.{Fits, FitTwo, IsCutOf};

use crate::area::{Area, nowhere, since, until};
use crate::numbers::{is_param, meet};
use pb_affine::Lin;

/// Two areas.
#[derive(Clone, Copy)]
pub struct Two {
    pub first: Area,
    pub second: Area,
}

/// The lower of two cuts with the same base.
#[tactic(auto, using(crate::proofs::Meets::lower_first, crate::proofs::Meets::lower_second))]
pub(crate) fn lower(a: Lin, b: Lin) -> Lin
    requires { is_param a.base ≡ is_param b.base }
    ensures is { (n x : ℤ) → int_lt x (at result n) ≡ int_lt x (at a n) && int_lt x (at b n) }
    ensures cut { (cuts : List Lin) → IsCutOf cuts a → IsCutOf cuts b → IsCutOf cuts result }
{
    if a.off < b.off { a } else { b }
}

/// The higher of two cuts with the same base.
#[tactic(auto, using(crate::proofs::Meets::higher_first, crate::proofs::Meets::higher_second))]
pub(crate) fn higher(a: Lin, b: Lin) -> Lin
    requires { is_param a.base ≡ is_param b.base }
    ensures is { (n x : ℤ) → int_le (at result n) x ≡ int_le (at a n) x && int_le (at b n) x }
    ensures cut { (cuts : List Lin) → IsCutOf cuts a → IsCutOf cuts b → IsCutOf cuts result }
{
    if a.off < b.off { b } else { a }
}

#[tactic(auto, using(crate::proofs::Cuts::end_lowered))]
/// The part of the area whose indices are below the cut.
pub(crate) fn below(a: Area, cut: Lin) -> Two
    ensures is { (n : ℤ) (role : ℕ) (x : ℤ) → have_two result n role x ≡ has a n role x && int_lt x (at cut n) }
    ensures fits { (range : NRange) (cuts : List Lin) → Fits range cuts a → IsCutOf cuts cut → FitTwo range cuts result }
{
    if is_param(a.end.base) == is_param(cut.base) {
        let end = lower(a.end, cut);
        Two {
            first: Area { end, ..a },
            second: nowhere(a),
        }
    } else if is_param(cut.base) {
        let t = meet(a.end, cut);
        Two {
            first: since(a, t),
            second: until(Area { end: cut, ..a }, t),
        }
    } else {
        let t = meet(cut, a.end);
        Two {
            first: since(Area { end: cut, ..a }, t),
            second: until(a, t),
        }
    }
}

#[tactic(auto, using(crate::proofs::Cuts::low_raised))]
/// The part of the area whose indices aren't below the cut.
pub(crate) fn above(a: Area, cut: Lin) -> Two
    ensures is { (n : ℤ) (role : ℕ) (x : ℤ) → have_two result n role x ≡ has a n role x && int_le (at cut n) x }
    ensures fits { (range : NRange) (cuts : List Lin) → Fits range cuts a → IsCutOf cuts cut → FitTwo range cuts result }
{
    if is_param(a.low.base) == is_param(cut.base) {
        let low = higher(a.low, cut);
        Two {
            first: Area { low, ..a },
            second: nowhere(a),
        }
    } else if is_param(cut.base) {
        let t = meet(a.low, cut);
        Two {
            first: since(Area { low: cut, ..a }, t),
            second: until(a, t),
        }
    } else {
        let t = meet(cut, a.low);
        Two {
            first: since(a, t),
            second: until(Area { low: cut, ..a }, t),
        }
    }
}
