//! One area around two, and the areas of a list that are near one.

ghost use Rattle.std.specs.Prelude.{◌≡◌, ℕ, ℤ, true, ◌&&◌, ◌||◌, List, OnOk, IfOk, IfSome};
ghost use Rattle.std.specs.List.{All};
ghost use Rattle.pb_affine.specs.declared.lin.Lin.{Lin};
ghost use Rattle.pb_affine.specs.declared.range.NRange.{NRange};
ghost use Rattle.pb_part_areas.specs.Areas.{has, have, is_param};
ghost use Rattle.pb_part_areas.specs.Fits.{Fits};

use crate::area::Area;
use crate::clip::{later_end, least};
use crate::cover::is_apart;
use crate::cut::{higher, lower};
use crate::numbers::is_param;
use crate::pair::keep;
use pb_text::NoMemory;
use std::alloc::Global;

/// One area around two of one role whose ends move alike.
fn widest(a: Area, b: Area) -> Area
    requires role { a.role ≡ b.role }
    requires low { is_param a.low.base ≡ is_param b.low.base }
    requires end { is_param a.end.base ≡ is_param b.end.base }
    ensures { (n : ℤ) (role : ℕ) (x : ℤ) → has a n role x || has b n role x ≡ true → has result n role x ≡ true }
{
    let low = lower(a.low, b.low);
    let end = higher(a.end, b.end);
    let from = least(a.from, b.from);
    let until = later_end(a.until, b.until);
    Area {
        role: a.role,
        low,
        end,
        from,
        until,
    }
}

/// An area that holds of all that two areas of one role hold of, where their ends move alike.
pub fn spanned(a: Area, b: Area) -> Option<Area>
    ensures { IfSome result (λ m. (n : ℤ) (role : ℕ) (x : ℤ) → has a n role x || has b n role x ≡ true → has m n role x ≡ true) }
{
    if a.role == b.role
        && is_param(a.low.base) == is_param(b.low.base)
        && is_param(a.end.base) == is_param(b.end.base)
    {
        Some(widest(a, b))
    } else {
        None
    }
}

/// Adds `a`, unless nothing is of both `a` and `to`.
#[tactic(auto, using(crate::proofs::Around::passed))]
fn keep_near(out: &mut Vec<Area>, a: Area, to: Area) -> Result<(), NoMemory>
    ensures is { OnOk result ((n : ℤ) (role : ℕ) (x : ℤ) → have out.new.items n role x && has to n role x ≡ (have out.old.items n role x || has a n role x) && has to n role x) }
    ensures fits { OnOk result ((range : NRange) (cuts : List Lin) → All (Fits range cuts) out.old.items → Fits range cuts a → All (Fits range cuts) out.new.items) }
{
    if is_apart(a, to) {
        Ok(())
    } else {
        keep(out, a)
    }
}

/// The areas of the list that may have something in common with the area.
pub fn near(alloc: Global, list: &[Area], to: Area) -> Result<Vec<Area>, NoMemory>
    ensures is { IfOk result (λ v. (n : ℤ) (role : ℕ) (x : ℤ) → have v.items n role x && has to n role x ≡ have list.now n role x && has to n role x) }
    ensures fits { IfOk result (λ v. (range : NRange) (cuts : List Lin) → All (Fits range cuts) list.now → All (Fits range cuts) v.items) }
{
    let mut out = Vec::new(alloc);
    for a in list {
        keep_near(&mut out, *a, to)?;
    }
    Ok(out)
}
