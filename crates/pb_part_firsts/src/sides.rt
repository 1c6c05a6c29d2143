//! Parts that a statement meets, and the others.

ghost use Rattle.std.specs.Prelude.{◌≡◌, ℕ, ℤ, true, false, ◌&&◌, ◌||◌, List, IfOk, OnOk};
ghost use Rattle.std.specs.List.{All};
ghost use Rattle.pb_affine.specs.declared.lin.Lin.{Lin};
ghost use Rattle.pb_affine.specs.declared.range.NRange.{NRange};
ghost use Rattle.pb_part_areas.specs.Areas.{have};
ghost use Rattle.pb_part_areas.specs.Fits.{Fits};
ghost use Rattle.pb_part_firsts.specs.Parts.{flat, IsAround, AreAround};

use crate::parts::Part;
use pb_part_areas::{Area, NoMemory, is_apart};
use std::alloc::Global;

/// The parts that may have ranks of some areas, and the others.
#[derive(Drop)]
pub(crate) struct Sides {
    pub met: Vec<Part>,
    pub others: Vec<Part>,
}

/// True only where the part has no rank of the areas.
fn is_beside(part: &Part, list: &[Area]) -> bool
    ensures { result ≡ true → IsAround part.now → (n : ℤ) (role : ℕ) (x : ℤ) → have part.now.areas.items n role x && have list.now n role x ≡ false }
{
    for a in list {
        if !is_apart(part.around, *a) {
            return false;
        }
    }
    true
}

/// Adds the part to the others where it is beside the areas, else to those that are met.
fn put_aside(
    part: Part,
    list: &[Area],
    met: &mut Vec<Part>,
    others: &mut Vec<Part>,
) -> Result<(), NoMemory>
    ensures is { OnOk result ((n : ℤ) (role : ℕ) (x : ℤ) → have (flat met.new.items) n role x || have (flat others.new.items) n role x ≡ (have (flat met.old.items) n role x || have (flat others.old.items) n role x) || have part.areas.items n role x) }
    ensures apart { OnOk result (IsAround part → (n : ℤ) (role : ℕ) (x : ℤ) → have (flat others.old.items) n role x && have list.now n role x ≡ false → have (flat others.new.items) n role x && have list.now n role x ≡ false) }
    ensures around { OnOk result (IsAround part → AreAround met.old.items → AreAround others.old.items → AreAround met.new.items × AreAround others.new.items) }
    ensures fits { OnOk result ((range : NRange) (cuts : List Lin) → All (Fits range cuts) part.areas.items → All (Fits range cuts) (flat met.old.items) → All (Fits range cuts) (flat others.old.items) → All (Fits range cuts) (flat met.new.items) × All (Fits range cuts) (flat others.new.items)) }
{
    if is_beside(&part, list) {
        others.push(part)?;
        return Ok(());
    }
    met.push(part)?;
    Ok(())
}

/// The parts, those beside the areas apart from the others.
pub(crate) fn sides_of(alloc: Global, parts: Vec<Part>, list: &[Area]) -> Result<Sides, NoMemory>
    ensures is { IfOk result (λ s. (n : ℤ) (role : ℕ) (x : ℤ) → have (flat s.met.items) n role x || have (flat s.others.items) n role x ≡ have (flat parts.items) n role x) }
    ensures apart { IfOk result (λ s. AreAround parts.items → (n : ℤ) (role : ℕ) (x : ℤ) → have (flat s.others.items) n role x && have list.now n role x ≡ false) }
    ensures around { IfOk result (λ s. AreAround parts.items → AreAround s.met.items × AreAround s.others.items) }
    ensures fits { IfOk result (λ s. (range : NRange) (cuts : List Lin) → All (Fits range cuts) (flat parts.items) → All (Fits range cuts) (flat s.met.items) × All (Fits range cuts) (flat s.others.items)) }
{
    let mut met = Vec::new(alloc);
    let mut others = Vec::new(alloc);
    for part in parts {
        put_aside(part, list, &mut met, &mut others)?;
    }
    Ok(Sides { met, others })
}

/// All parts of both lists.
pub(crate) fn both_sides(parts: Vec<Part>, more: Vec<Part>) -> Result<Vec<Part>, NoMemory>
    ensures is { IfOk result (λ v. (n : ℤ) (role : ℕ) (x : ℤ) → have (flat v.items) n role x ≡ have (flat parts.items) n role x || have (flat more.items) n role x) }
    ensures around { IfOk result (λ v. AreAround parts.items → AreAround more.items → AreAround v.items) }
    ensures fits { IfOk result (λ v. (range : NRange) (cuts : List Lin) → All (Fits range cuts) (flat parts.items) → All (Fits range cuts) (flat more.items) → All (Fits range cuts) (flat v.items)) }
{
    let mut all = parts;
    for part in more {
        all.push(part)?;
    }
    Ok(all)
}
