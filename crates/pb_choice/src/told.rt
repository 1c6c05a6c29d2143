ghost use Rattle.std.specs.Prelude.{◌≡◌, ℕ, ℤ, IfOk, map};
ghost use Rattle.pb_part_areas.specs.Areas.{have};
ghost use Rattle.pb_core_language.specs.Plain.{plain_block, branches_of};
ghost use Rattle.pb_choice.specs.Told.{AreTold, AreAmong};

use crate::setting::Setting;
use pb_core_language::{CoreBlock, CoreEnd};
use pb_part_areas::{Area, common, one, without};
use pb_part_takers::{Held, end_area, takers_in};
use pb_text::NoMemory;
use std::alloc::Global;

/// The areas of those that are told of a choice: they take part in some branch, and aren't the chooser. The areas lie
/// within the range, so that what is cut of them later isn't cut at numbers N outside.
#[tactic(auto, using(crate::proofs::Tolds::told_within))]
pub fn told_of(
    branches: &[CoreBlock],
    alloc: Global,
    setting: &Setting,
    held: &[Held],
    at: &CoreEnd,
) -> Result<Vec<Area>, NoMemory>
    ensures { IfOk result (λ v. AreTold setting.now.range setting.now.whole.now held.now at.now (branches_of (map plain_block branches.now)) v.items) }
{
    let told = told_anywhere(branches, alloc, setting, held, at)?;
    let within = common(alloc, &told, setting.whole)?;
    Ok(within)
}

// The same, at other numbers N too.
fn told_anywhere(
    branches: &[CoreBlock],
    alloc: Global,
    setting: &Setting,
    held: &[Held],
    at: &CoreEnd,
) -> Result<Vec<Area>, NoMemory>
    ensures { IfOk result (λ v. AreTold setting.now.range setting.now.whole.now held.now at.now (branches_of (map plain_block branches.now)) v.items) }
{
    let takers = takers_among(branches, alloc, setting, held)?;
    let chooser = one(alloc, end_area(*at))?;
    let told = without(alloc, takers, &chooser)?;
    Ok(told)
}

fn takers_among(
    branches: &[CoreBlock],
    alloc: Global,
    setting: &Setting,
    held: &[Held],
) -> Result<Vec<Area>, NoMemory>
    ensures { IfOk result (λ v. AreAmong setting.now.range setting.now.whole.now held.now (branches_of (map plain_block branches.now)) v.items) }
{
    let mut areas = Vec::new(alloc);
    for branch in branches {
        takers_in(branch, alloc, setting.whole, held, &mut areas)?;
    }
    Ok(areas)
}
