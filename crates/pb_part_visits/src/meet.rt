ghost use Rattle.std.specs.Prelude.{◌≡◌, ◌≤ℤ◌, ◌+ℤ◌, ◌-ℤ◌, ℕ, ℤ, pos, ◌&&◌, int_le, int_lt, true, false, List};
ghost use Rattle.std.specs.Ordering.{int_eq};
ghost use Rattle.pb_affine.specs.declared.lin.Lin.{Lin};
ghost use Rattle.pb_affine.specs.declared.range.NRange.{NRange};
ghost use Rattle.pb_part_areas.specs.Areas.{has, at, is_param};
ghost use Rattle.pb_part_areas.specs.Fits.{Fits, IsCutOf, IsEdgeOf};
ghost use Rattle.pb_part_visits.specs.Visits.{is_small_off};

use pb_affine::Lin;
use pb_part_areas::{Area, is_param, meet, since, until};

/// The number behind the difference of two offsets.
fn distance(fixed: Lin, param: Lin) -> i64
    ensures { result ≡ (fixed.off -ℤ param.off) +ℤ pos 1 }
{
    i64::from(fixed.off) - i64::from(param.off) + 1
}

/// The same number, where it is none below 0 and not above 4,000,000.
fn gap(fixed: Lin, param: Lin) -> u32
    ensures { pos 0 ≤ℤ ((fixed.off -ℤ param.off) +ℤ pos 1) → ((fixed.off -ℤ param.off) +ℤ pos 1) ≤ℤ pos 4000000 → pos result ≡ (fixed.off -ℤ param.off) +ℤ pos 1 }
{
    let wide = distance(fixed, param);
    if 0 <= wide && wide <= 4_000_000 {
        wide as u32
    } else {
        0
    }
}

/// The first N from 0 on at which a cut that grows with N is above one that doesn't, for cuts near 0. Takes no memory.
fn pass(fixed: Lin, param: Lin) -> u32
    requires still { is_param fixed.base ≡ false }
    requires grows { is_param param.base ≡ true }
    ensures is { is_small_off fixed.off ≡ true → is_small_off param.off ≡ true → (n : ℤ) → int_le (pos result) n ≡ int_le (pos 0) n && int_lt (at fixed n) (at param n) }
    ensures edge { is_small_off fixed.off ≡ true → is_small_off param.off ≡ true → (range : NRange) (cuts : List Lin) → IsCutOf cuts fixed → IsCutOf cuts param → IsEdgeOf range cuts (pos result) }
{
    if fixed.off < param.off {
        0
    } else {
        gap(fixed, param)
    }
}

/// The part of the area for the N at which the first cut is below the second, for cuts near 0. Takes no memory.
pub fn where_below(a: Area, low: Lin, end: Lin) -> Area
    ensures is { is_small_off low.off ≡ true → is_small_off end.off ≡ true → (n : ℤ) (role : ℕ) (x : ℤ) → has result n role x ≡ has a n role x && int_lt (at low n) (at end n) }
    ensures fits { is_small_off low.off ≡ true → is_small_off end.off ≡ true → (range : NRange) (cuts : List Lin) → Fits range cuts a → IsCutOf cuts low → IsCutOf cuts end → Fits range cuts result }
{
    if is_param(low.base) == is_param(end.base) {
        if low.off < end.off { a } else { until(a, 0) }
    } else if is_param(end.base) {
        let t = pass(low, end);
        since(a, t)
    } else {
        let t = meet(end, low);
        until(a, t)
    }
}

/// The part of the area for the N at which a cut that grows with N is one that doesn't. Takes no memory.
fn where_met(a: Area, fixed: Lin, param: Lin) -> Area
    requires still { is_param fixed.base ≡ false }
    requires grows { is_param param.base ≡ true }
    ensures is { is_small_off fixed.off ≡ true → is_small_off param.off ≡ true → (n : ℤ) (role : ℕ) (x : ℤ) → has result n role x ≡ has a n role x && int_eq (at fixed n) (at param n) }
    ensures fits { is_small_off fixed.off ≡ true → is_small_off param.off ≡ true → (range : NRange) (cuts : List Lin) → Fits range cuts a → IsCutOf cuts fixed → IsCutOf cuts param → Fits range cuts result }
{
    let from = since(a, meet(fixed, param));
    until(from, pass(fixed, param))
}

/// The part of the area for the N at which the two cuts are the same. Takes no memory.
pub fn where_same(a: Area, one: Lin, other: Lin) -> Area
    ensures is { is_small_off one.off ≡ true → is_small_off other.off ≡ true → (n : ℤ) (role : ℕ) (x : ℤ) → has result n role x ≡ has a n role x && int_eq (at one n) (at other n) }
    ensures fits { is_small_off one.off ≡ true → is_small_off other.off ≡ true → (range : NRange) (cuts : List Lin) → Fits range cuts a → IsCutOf cuts one → IsCutOf cuts other → Fits range cuts result }
{
    if is_param(one.base) == is_param(other.base) {
        if one.off == other.off { a } else { until(a, 0) }
    } else if is_param(other.base) {
        where_met(a, one, other)
    } else {
        where_met(a, other, one)
    }
}
