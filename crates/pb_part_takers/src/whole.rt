ghost use Rattle.std.specs.Prelude.{◌≡◌, ◌≤◌, ℕ, ℤ, pos, ◌&&◌, ◌||◌, nat_eq, int_le, true, length, List, IfOk};
ghost use Rattle.std.specs.List.{All};
ghost use Rattle.pb_affine.specs.declared.lin.Lin.{Lin};
ghost use Rattle.pb_affine.specs.Values.{value};
ghost use Rattle.pb_cases.specs.Breakpoints.{IsInRange};
ghost use Rattle.pb_part_areas.specs.Areas.{has, have, is_before};
ghost use Rattle.pb_part_areas.specs.Fits.{Fits, IsEdgeOfIf};
ghost use Rattle.pb_core_language.specs.Cuts.{edges, role_cuts};
ghost use Rattle.pb_core_language.specs.Sound.{is_bound, are_roles};
ghost use Rattle.pb_core_flat.specs.Seated.{is_rank};
ghost use Rattle.pb_part_takers.specs.Pieces.{AreAmong};

use crate::ends::next_to;
use pb_affine::NRange;
use pb_core_language::{Bounds, CoreRole};
use pb_part_areas::{Area, push};
use pb_text::NoMemory;
use std::alloc::Global;

/// The N after the range, where there is one that fits.
fn after(range: NRange) -> Option<u32>
    ensures is { (n : ℤ) → IsInRange range n → is_before n result ≡ true }
    ensures edge { (cuts : List Lin) → IsEdgeOfIf range cuts result }
{
    match range.high {
        None => None,
        Some(high) => {
            if high < u32::MAX {
                Some(high + 1)
            } else {
                None
            }
        }
    }
}

/// The area of the ranks of a role, at each N of the range.
fn role_area(number: u32, over: Bounds, range: NRange) -> Area
    ensures is { (n : ℤ) (role : ℕ) (x : ℤ) → is_bound over.high ≡ true → IsInRange range n → has result n role x ≡ nat_eq role number && (int_le (value over.low n (pos 0)) x && int_le x (value over.high n (pos 0))) }
    ensures fits { (cuts : List Lin) → is_bound over.low ≡ true → is_bound over.high ≡ true → AreAmong (edges over.low over.high) cuts → Fits range cuts result }
{
    let end = next_to(over.high);
    let until = after(range);
    Area {
        role: number,
        low: over.low,
        end,
        from: range.low,
        until,
    }
}

/// The areas of all ranks, at each N of the range.
pub fn areas_of_roles(
    alloc: Global,
    roles: &[CoreRole],
    range: NRange,
) -> Result<Vec<Area>, NoMemory>
    requires { length roles.now ≤ 64 }
    ensures is { IfOk result (λ v. (n : ℤ) (role : ℕ) (x : ℤ) → are_roles roles.now ≡ true → IsInRange range n → have v.items n role x ≡ is_rank roles.now n role x) }
    ensures fits { IfOk result (λ v. (cuts : List Lin) → are_roles roles.now ≡ true → AreAmong (role_cuts roles.now) cuts → All (Fits range cuts) v.items) }
{
    let mut out = Vec::new(alloc);
    for (i, role) in roles.iter().enumerate() {
        let over = Bounds {
            low: role.low,
            high: role.high,
        };
        push(&mut out, role_area(i as u32, over, range))?;
    }
    Ok(out)
}
