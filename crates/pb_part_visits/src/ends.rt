ghost use Rattle.std.specs.Prelude.{◌≡◌, ◌≤ℤ◌, ℕ, ℤ, pos, ◌&&◌, int_le, nat_eq, true, false, List, Some};
ghost use Rattle.pb_affine.specs.declared.lin.Lin.{Lin};
ghost use Rattle.pb_affine.specs.declared.range.NRange.{NRange};
ghost use Rattle.pb_affine.specs.Values.{value};
ghost use Rattle.pb_part_areas.specs.Fits.{Fits, IsCutOf};
ghost use Rattle.pb_core_language.specs.Cuts.{edges, end_cuts, moving};
ghost use Rattle.pb_core_language.specs.Sound.{is_small};
ghost use Rattle.pb_part_areas.specs.Areas.{has, at};
ghost use Rattle.pb_core_flat.specs.Seated.{is_at};
ghost use Rattle.pb_core_flat.specs.Meets.{is_moving, is_passed};
ghost use Rattle.pb_part_takers.specs.Pieces.{AreAmong};
ghost use Rattle.pb_part_visits.specs.Visits.{IsBounded, is_small_off};

use crate::lins::{moved, next};
use crate::meet::{where_below, where_same};
use crate::visit::is_moving;
use pb_affine::Lin;
use pb_core_language::{Bounds, CoreEnd};
use pb_part_areas::{Area, nowhere};
use pb_part_takers::end_area;

/// The ranks at an end that stays, where there is a value of the variable. Takes no memory.
fn staying_area(end: CoreEnd, over: Bounds) -> Area
    ensures fits { is_moving end ≡ false → is_small end.at.off ≡ true → IsBounded over → (range : NRange) (cuts : List Lin) → AreAmong (edges over.low over.high) cuts → AreAmong (end_cuts (Some over) end) cuts → Fits range cuts result }
    ensures is { is_small end.at.off ≡ true → IsBounded over → (n : ℤ) (role : ℕ) (x : ℤ) → pos 0 ≤ℤ n →
        has result n role x ≡ is_at end n (pos 0) role x && int_le (at over.low n) (at over.high n) }
{
    where_below(end_area(end), over.low, next(over.high))
}

/// Where the rank at an end is at the first value of the variable.
fn first_place(end: CoreEnd, over: Bounds) -> Lin
    ensures is { is_small end.at.off ≡ true → IsBounded over → (n : ℤ) → at result n ≡ value end.at n (at over.low n) }
    ensures small { is_small end.at.off ≡ true → is_small_off result.off ≡ true }
    ensures cut { (cuts : List Lin) → is_small end.at.off ≡ true → IsBounded over → AreAmong (end_cuts (Some over) end) cuts → IsCutOf cuts result }
{
    if is_moving(end) {
        moved(over.low, end.at)
    } else {
        end.at
    }
}

/// The ranks at an end that stays, for the N at which another end is there at the first value. Takes no memory.
pub fn meeting_area(end: CoreEnd, other: CoreEnd, over: Bounds) -> Area
    ensures fits { is_moving end ≡ false → is_small end.at.off ≡ true → is_small other.at.off ≡ true → IsBounded over → (range : NRange) (cuts : List Lin) →
        AreAmong (edges over.low over.high) cuts → AreAmong (end_cuts (Some over) end) cuts → AreAmong (end_cuts (Some over) other) cuts → Fits range cuts result }
    ensures is { is_moving end ≡ false → is_small end.at.off ≡ true → is_small other.at.off ≡ true → IsBounded over → (n : ℤ) (role : ℕ) (x : ℤ) → pos 0 ≤ℤ n →
        has result n role x ≡ (int_le (at over.low n) (at over.high n) && is_at end n (pos 0) role x) && is_at other n (at over.low n) role x }
{
    let area = staying_area(end, over);
    if end.role == other.role {
        where_same(area, end.at, first_place(other, over))
    } else {
        nowhere(area)
    }
}

/// The ranks at an end that moves, for some value of the variable. Takes no memory.
pub fn passed_area(end: CoreEnd, over: Bounds) -> Area
    ensures fits { is_small end.at.off ≡ true → IsBounded over → (range : NRange) (cuts : List Lin) → AreAmong (moving (Some over) end.at.off) cuts → Fits range cuts result }
    ensures is { is_small end.at.off ≡ true → IsBounded over → (n : ℤ) (role : ℕ) (x : ℤ) → pos 0 ≤ℤ n →
        has result n role x ≡ nat_eq end.role role && is_passed end.at.off (at over.low n) (at over.high n) x }
{
    Area {
        role: end.role,
        low: moved(over.low, end.at),
        end: next(moved(over.high, end.at)),
        from: 0,
        until: None,
    }
}
