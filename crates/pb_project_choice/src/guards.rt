ghost use Rattle.std.specs.Prelude.{◌≡◌, ◌≤◌, ◌<◌, ◌⊎◌, ◌||◌, ◌&&◌, int_le, ◌++◌, ◌∷◌, [], ℕ, ℤ, length, List, None, true, false, IfOk, OnOk, IfSome};
ghost use Rattle.std.specs.List.{All};
ghost use Rattle.pb_affine.specs.declared.lin.Lin.{Lin};
ghost use Rattle.pb_affine.specs.Values.{hold, IsSmall, IsSmallGuard};
ghost use Rattle.pb_part_areas.specs.Areas.{has, have};
ghost use Rattle.pb_part_areas.specs.Fits.{Fits};
ghost use Rattle.pb_part_areas.specs.Small.{IsSmallArea};
ghost use Rattle.pb_cases.specs.Breakpoints.{IsCut};
ghost use Rattle.pb_core_language.specs.declared.protocol.CoreRole.{CoreRole};
ghost use Rattle.pb_core_language.specs.Verdict.{IsIn};
ghost use Rattle.pb_core_flat.specs.Seated.{is_rank};
ghost use Rattle.pb_local.specs.Tree.{Program};
ghost use Rattle.pb_local.specs.WellMade.{IsRange, IsGuard, IsBoundIf};
ghost use Rattle.pb_project_choice.specs.Sayable.{AreSayable, IsBeyond, IsGuardOf};

use pb_affine::{Guard, Guards, NRange};
use pb_part_areas::{Area, guard_of};
use pb_text::{LEAST_OFFSET, MOST_NUMBER, MOST_OFFSET, NoMemory};
use std::alloc::Global;

/// Whether a guard may name the number.
fn is_named(number: Option<u32>) -> bool
    ensures named { result ≡ true → IsBoundIf number }
    ensures beyond { result ≡ false → IsBeyond number }
{
    match number {
        None => true,
        Some(n) => n <= MOST_NUMBER,
    }
}

/// The number, if a guard may name it.
fn capped(to: Option<u32>) -> Option<u32>
    ensures bound { IsBoundIf result }
    ensures same { (result ≡ to) ⊎ ((result ≡ None) × IsBeyond to) }
{
    if is_named(to) { to } else { None }
}

/// The guard of an area. A greatest N that it may not name is past the range.
fn guard_in(a: Area, range: NRange) -> Guard
    requires small { IsSmallArea a }
    requires some { IfSome a.until (λ b. 0 < b) }
    ensures { IsGuardOf range a result }
{
    let guard = guard_of(a, range);
    let to = capped(guard.to);
    Guard { to, ..guard }
}

fn is_small_off(off: i32, low: i32, high: i32) -> bool
    ensures { result ≡ (int_le low off && int_le off high) }
{
    low <= off && off <= high
}

fn is_small(a: Area) -> bool
    ensures small { result ≡ true → IsSmallArea a }
    ensures large { result ≡ false → (range : NRange) (cuts : List Lin) → Fits range cuts a → ⊥ }
{
    is_small_off(a.low.off, LEAST_OFFSET, MOST_OFFSET)
        && is_small_off(a.end.off, LEAST_OFFSET + 1, MOST_OFFSET)
}

fn is_open(a: Area) -> bool
    ensures open { result ≡ true → IfSome a.until (λ b. 0 < b) }
    ensures closed { result ≡ false → (n : ℤ) (role : ℕ) (x : ℤ) → has a n role x ≡ false }
{
    match a.until {
        None => true,
        Some(until) => a.from < until,
    }
}

/// Adds the guard, if it is of one of the roles, and from a number that it may name.
fn add_said(guards: &mut Guards, guard: Guard, roles: u32) -> Result<(), NoMemory>
    ensures is { OnOk result ((guards.new ≡ guards.old ++ guard ∷ []) ⊎ ((guards.new ≡ guards.old) × ((roles ≤ guard.role) ⊎ IsBeyond guard.from))) }
    ensures each { OnOk result ((p : Program) → length p.roles ≡ roles → IsSmallGuard guard → IsBoundIf guard.to → All (IsGuard p) guards.old → All (IsGuard p) guards.new) }
{
    if guard.role < roles && is_named(guard.from) {
        guards.push(guard)?;
    }
    Ok(())
}

/// Adds the area's guard, if some rank may be in it.
fn add(guards: &mut Guards, a: Area, range: NRange, roles: u32) -> Result<(), NoMemory>
    ensures hold { OnOk result ((cuts : List Lin) (list : List CoreRole) (n i : ℤ) (role : ℕ) (x : ℤ) → length list ≡ roles → IsRange range → All IsCut cuts → Fits range cuts a → IsIn range n → is_rank list n role x ≡ true →
        hold guards.new n i role x ≡ hold guards.old n i role x || has a n role x) }
    ensures each { OnOk result ((p : Program) → length p.roles ≡ roles → All (IsGuard p) guards.old → All (IsGuard p) guards.new) }
{
    if is_open(a) && is_small(a) {
        add_said(guards, guard_in(a, range), roles)?;
    }
    Ok(())
}

/// Guards that hold of exactly the ranks in the areas, at each N of the range.
pub fn guards_in(
    alloc: Global,
    list: &[Area],
    range: NRange,
    roles: u32,
) -> Result<Guards, NoMemory>
    ensures hold { IfOk result (λ g. (list_roles : List CoreRole) (n i : ℤ) (role : ℕ) (x : ℤ) → length list_roles ≡ roles → IsRange range → AreSayable range list.now → IsIn range n → is_rank list_roles n role x ≡ true →
        hold g n i role x ≡ have list.now n role x) }
    ensures each { IfOk result (λ g. (p : Program) → length p.roles ≡ roles → All (IsGuard p) g) }
{
    let mut guards = Guards::new(alloc);
    for a in list {
        add(&mut guards, *a, range, roles)?;
    }
    Ok(guards)
}
