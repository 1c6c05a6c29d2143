//! Long lists of areas, as they are.

ghost use Rattle.std.specs.Prelude.{◌≡◌, ℕ, ℤ, ◌||◌, List, OnOk, IfOk};
ghost use Rattle.std.specs.List.{All};
ghost use Rattle.pb_affine.specs.declared.lin.Lin.{Lin};
ghost use Rattle.pb_affine.specs.declared.range.NRange.{NRange};
ghost use Rattle.pb_part_areas.specs.Areas.{has, have, AreSomewhere};
ghost use Rattle.pb_part_areas.specs.Fits.{Fits};

use crate::area::Area;
use crate::pair::keep;
use crate::sets::add_new;
use crate::tidy::{SHORT, attach};
use pb_text::NoMemory;
use std::alloc::Global;

/// Adds what the area holds of: to a short list as far as it isn't there, and to a long one the whole area, as `attach` does.
/// So many areas are added in time that grows with their number.
pub fn gather(alloc: Global, out: &mut Vec<Area>, a: Area) -> Result<(), NoMemory>
    ensures is { OnOk result ((n : ℤ) (role : ℕ) (x : ℤ) → have out.new.items n role x ≡ have out.old.items n role x || has a n role x) }
    ensures fits { OnOk result ((range : NRange) (cuts : List Lin) → All (Fits range cuts) out.old.items → Fits range cuts a → All (Fits range cuts) out.new.items) }
    ensures some { OnOk result (AreSomewhere out.old.items → AreSomewhere out.new.items) }
{
    if out.len() <= SHORT {
        add_new(alloc, out, a)?;
    } else {
        attach(out, a)?;
    }
    Ok(())
}

/// Adds what the list holds of, each area as `gather` does.
pub fn gather_all(alloc: Global, out: &mut Vec<Area>, more: &[Area]) -> Result<(), NoMemory>
    ensures is { OnOk result ((n : ℤ) (role : ℕ) (x : ℤ) → have out.new.items n role x ≡ have out.old.items n role x || have more.now n role x) }
    ensures fits { OnOk result ((range : NRange) (cuts : List Lin) → All (Fits range cuts) out.old.items → All (Fits range cuts) more.now → All (Fits range cuts) out.new.items) }
{
    for a in more {
        gather(alloc, out, *a)?;
    }
    Ok(())
}

/// The same areas once more.
pub fn cloned(alloc: Global, list: &[Area]) -> Result<Vec<Area>, NoMemory>
    ensures is { IfOk result (λ v. (n : ℤ) (role : ℕ) (x : ℤ) → have v.items n role x ≡ have list.now n role x) }
    ensures fits { IfOk result (λ v. (range : NRange) (cuts : List Lin) → All (Fits range cuts) list.now → All (Fits range cuts) v.items) }
{
    let mut copy = Vec::with_capacity(alloc, list.len())?;
    for a in list {
        keep(&mut copy, *a)?;
    }
    Ok(copy)
}
