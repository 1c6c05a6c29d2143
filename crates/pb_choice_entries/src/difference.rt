//! Areas without those of a long list. Halves are compared with what is near them alone.

ghost use Rattle.std.specs.Prelude.{◌≡◌, ℕ, ℤ, ◌&&◌, ◌||◌, true, not, IfOk, IfSome, OnOk};
ghost use Rattle.pb_part_areas.specs.Areas.{has, have};

use crate::close::widened;
use pb_part_areas::{Area, attach_all, cloned, near, without};
use pb_text::NoMemory;
use std::alloc::Global;

/// How many areas are compared with all others.
const FEW: usize = 4;

/// An area that holds of all that the areas hold of.
fn around(list: &[Area]) -> Option<Area>
    ensures { IfSome result (λ a. (n : ℤ) (role : ℕ) (x : ℤ) → have list.now n role x ≡ true → has a n role x ≡ true) }
{
    let mut all = *list.first()?;
    for area in list {
        all = widened(all, *area)?;
    }
    Some(all)
}

/// The others that may have something in common with the list, unless they are nearly all or no area is known around the list.
fn few_near(alloc: Global, list: &[Area], others: &[Area]) -> Result<Option<Vec<Area>>, NoMemory>
    ensures { IfOk result (λ o. IfSome o (λ v. (n : ℤ) (role : ℕ) (x : ℤ) → have list.now n role x && not (have v.items n role x) ≡ have list.now n role x && not (have others.now n role x))) }
{
    match around(list) {
        None => Ok(None),
        Some(area) => {
            let met = near(alloc, others, area)?;
            if met.len() > others.len() / 4 * 3 {
                return Ok(None);
            }
            Ok(Some(met))
        }
    }
}

/// What some area of `list` holds of and none of `others`.
pub fn less(alloc: Global, list: &[Area], others: &[Area]) -> Result<Vec<Area>, NoMemory>
    ensures { IfOk result (λ v. (n : ℤ) (role : ℕ) (x : ℤ) → have v.items n role x ≡ have list.now n role x && not (have others.now n role x)) }
{
    let mut out = Vec::new(alloc);
    add_less(alloc, &mut out, list, others)?;
    Ok(out)
}

#[cycle(halving)]
fn add_less(
    alloc: Global,
    out: &mut Vec<Area>,
    list: &[Area],
    others: &[Area],
) -> Result<(), NoMemory>
    ensures { OnOk result ((n : ℤ) (role : ℕ) (x : ℤ) → have out.new.items n role x ≡ have out.old.items n role x || (have list.now n role x && not (have others.now n role x))) }
{
    if list.len() <= FEW || others.is_empty() {
        return add_few(alloc, out, list, others);
    }
    let (first, second) = list.split_at(list.len() / 2);
    add_near(alloc, out, first, others)?;
    add_near(alloc, out, second, others)
}

#[cycle(halving)]
fn add_near(
    alloc: Global,
    out: &mut Vec<Area>,
    list: &[Area],
    others: &[Area],
) -> Result<(), NoMemory>
    ensures { OnOk result ((n : ℤ) (role : ℕ) (x : ℤ) → have out.new.items n role x ≡ have out.old.items n role x || (have list.now n role x && not (have others.now n role x))) }
{
    match few_near(alloc, list, others)? {
        None => add_less(alloc, out, list, others),
        Some(met) => add_less(alloc, out, list, &met),
    }
}

fn add_few(
    alloc: Global,
    out: &mut Vec<Area>,
    list: &[Area],
    others: &[Area],
) -> Result<(), NoMemory>
    ensures { OnOk result ((n : ℤ) (role : ℕ) (x : ℤ) → have out.new.items n role x ≡ have out.old.items n role x || (have list.now n role x && not (have others.now n role x))) }
{
    let few = cloned(alloc, list)?;
    let left = without(alloc, few, others)?;
    attach_all(out, &left)?;
    Ok(())
}
