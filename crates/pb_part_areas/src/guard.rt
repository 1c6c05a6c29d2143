ghost use Rattle.std.specs.Prelude.{◌≡◌, ◌<◌, ◌≤◌, ℕ, ℤ, pos, ◌+ℤ◌, negsuc, int_le, ◌||◌, true, false, IfOk, OnOk, IfSome, Some};
ghost use Rattle.std.specs.List.{All};
ghost use Rattle.pb_affine.specs.Values.{holds, hold, is_from_on, is_up_to, IsSmallGuard};
ghost use Rattle.pb_cases.specs.Breakpoints.{Division, IsInRange};
ghost use Rattle.pb_cases.specs.Bounds.{IsAligned, IsEdgeIf};
ghost use Rattle.pb_part_areas.specs.Areas.{has, have, is_before};
ghost use Rattle.pb_part_areas.specs.Fits.{Fits, IsEdgeOf, IsEdgeOfIf};
ghost use Rattle.pb_part_areas.specs.Small.{IsSmallArea};

use crate::area::Area;
use crate::empty::is_open;
use pb_affine::{Guard, Guards, NRange};
use pb_text::NoMemory;
use std::alloc::Global;

/// The least N that a guard says, where it says more than the range.
fn from_of(from: u32, range: NRange) -> Option<u32>
    ensures is { (n : ℤ) → IsInRange range n → is_from_on n result ≡ int_le (pos from) n }
    ensures edge { (d : Division) → IsEdgeOf d.range d.cuts (pos from) → IsEdgeIf d (pos 0) result }
{
    if from <= range.low { None } else { Some(from) }
}

/// True exactly where the number is past the end of the range.
fn is_past(n: u32, range: NRange) -> bool
    ensures past { result ≡ true → (m : ℤ) → IsInRange range m → is_before m (Some n) ≡ true }
    ensures near { result ≡ false → is_up_to (pos n) range.high ≡ true }
{
    match range.high {
        None => false,
        Some(high) => high < n,
    }
}

/// The greatest N that a guard says, where it says more than the range.
fn to_of(until: Option<u32>, range: NRange) -> Option<u32>
    requires { IfSome until (λ b. 0 < b) }
    ensures is { (n : ℤ) → IsInRange range n → is_up_to n result ≡ is_before n until }
    ensures edge { (d : Division) → IsEdgeOfIf d.range d.cuts until → IsEdgeIf d (pos 1) result }
{
    match until {
        None => None,
        Some(until) => {
            if is_past(until, range) {
                None
            } else {
                Some(until - 1)
            }
        }
    }
}

/// The guard that holds of the area's ranks at each N of the range. Takes no memory.
pub fn guard_of(a: Area, range: NRange) -> Guard
    requires small { IsSmallArea a }
    requires some { IfSome a.until (λ b. 0 < b) }
    ensures is { (n : ℤ) (role : ℕ) (x : ℤ) → IsInRange range n → holds result n (pos 0) role x ≡ has a n role x }
    ensures aligned { (d : Division) → Fits d.range d.cuts a → IsAligned d result }
    ensures small { IsSmallGuard result }
{
    let high = a.end.shift(-1);
    let from = from_of(a.from, range);
    let to = to_of(a.until, range);
    Guard {
        role: a.role,
        low: Some(a.low),
        high: Some(high),
        from,
        to,
    }
}

/// Guards that hold of the ranks of the areas at each N of the range.
pub fn guards_of(alloc: Global, list: &[Area], range: NRange) -> Result<Guards, NoMemory>
    requires { All IsSmallArea list.now }
    ensures is { IfOk result (λ g. (n : ℤ) (role : ℕ) (x : ℤ) → IsInRange range n → hold g n (pos 0) role x ≡ have list.now n role x) }
    ensures aligned { IfOk result (λ g. (d : Division) → All (Fits d.range d.cuts) list.now → All (IsAligned d) g) }
    ensures small { IfOk result (λ g. All IsSmallGuard g) }
{
    let mut guards = Guards::new(alloc);
    for a in list {
        add_guard(&mut guards, *a, range)?;
    }
    Ok(guards)
}

/// Adds the area's guard, unless the area has no N.
fn add_guard(guards: &mut Guards, a: Area, range: NRange) -> Result<(), NoMemory>
    requires { IsSmallArea a }
    ensures is { OnOk result ((n : ℤ) (role : ℕ) (x : ℤ) → IsInRange range n → hold guards.new n (pos 0) role x ≡ hold guards.old n (pos 0) role x || has a n role x) }
    ensures aligned { OnOk result ((d : Division) → All (IsAligned d) guards.old → Fits d.range d.cuts a → All (IsAligned d) guards.new) }
    ensures small { OnOk result (All IsSmallGuard guards.old → All IsSmallGuard guards.new) }
{
    if is_open(a.from, a.until) {
        guards.push(guard_of(a, range))?;
        Ok(())
    } else {
        Ok(())
    }
}
