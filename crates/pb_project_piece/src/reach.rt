ghost use Rattle.std.specs.Prelude.{◌≡◌, true, Some, IfOk};
ghost use Rattle.pb_project_piece.specs.Comers.{AreComers, IsSomeComer, IsComing};

use crate::seen::{is_seen, some_shared};
use crate::setting::Setting;
use crate::somebody::is_somebody;
use pb_core_language::{Bounds, CoreEnd};
use pb_part_areas::{Area, clipped, common, one};
use pb_part_takers::{end_area, met_area};
use pb_text::NoMemory;
use std::alloc::Global;

/// Those who come to an end. In a foreach, with the bounds `over`, they are at the end for some value of its variable, and among
/// `fixed`.
pub fn comers(
    alloc: Global,
    over: Option<Bounds>,
    fixed: &[Area],
    end: CoreEnd,
) -> Result<Vec<Area>, NoMemory>
    ensures { IfOk result (λ v. AreComers over fixed.now end v.items) }
{
    match over {
        None => one(alloc, end_area(end)),
        Some(over) => met_comers(alloc, over, fixed, end),
    }
}

fn met_comers(
    alloc: Global,
    over: Bounds,
    fixed: &[Area],
    end: CoreEnd,
) -> Result<Vec<Area>, NoMemory>
    ensures { IfOk result (λ v. AreComers (Some over) fixed.now end v.items) }
{
    let met = one(alloc, met_area(end, over))?;
    common(alloc, fixed, &met)
}

/// Some of those who come to an end, as far as they are ranks of `whole`.
fn some_comer(
    alloc: Global,
    whole: &[Area],
    over: Option<Bounds>,
    fixed: &[Area],
    end: CoreEnd,
) -> Result<Option<Area>, NoMemory>
    ensures { IfOk result (λ o. IsSomeComer whole.now over fixed.now end o) }
{
    match over {
        None => Ok(None),
        Some(over) => some_met_comer(alloc, whole, over, fixed, end),
    }
}

fn some_met_comer(
    alloc: Global,
    whole: &[Area],
    over: Bounds,
    fixed: &[Area],
    end: CoreEnd,
) -> Result<Option<Area>, NoMemory>
    ensures { IfOk result (λ o. IsSomeComer whole.now (Some over) fixed.now end o) }
{
    let met = met_area(end, over);
    let near = clipped(met, whole);
    let some = some_shared(alloc, fixed, near)?;
    Ok(some)
}

/// True only where some rank comes to an end: a part of those who do is tried.
fn is_soon_coming(
    alloc: Global,
    setting: &Setting,
    over: Option<Bounds>,
    fixed: &[Area],
    end: CoreEnd,
) -> Result<bool, NoMemory>
    ensures { IfOk result (λ t. t ≡ true → IsComing setting.now.range setting.now.whole.now over fixed.now end true) }
{
    let some = some_comer(alloc, setting.whole, over, fixed, end)?;
    let seen = is_seen(alloc, setting, some)?;
    Ok(seen)
}

fn is_ever_coming(
    alloc: Global,
    setting: &Setting,
    over: Option<Bounds>,
    fixed: &[Area],
    end: CoreEnd,
) -> Result<bool, NoMemory>
    ensures { IfOk result (λ t. IsComing setting.now.range setting.now.whole.now over fixed.now end t) }
{
    let areas = comers(alloc, over, fixed, end)?;
    let there = is_somebody(alloc, setting, &areas)?;
    Ok(there)
}

/// Whether some rank comes to an end, for some N of the range. A part is tried first: the whole may be long.
pub(crate) fn is_coming(
    alloc: Global,
    setting: &Setting,
    over: Option<Bounds>,
    fixed: &[Area],
    end: CoreEnd,
) -> Result<bool, NoMemory>
    ensures { IfOk result (λ t. IsComing setting.now.range setting.now.whole.now over fixed.now end t) }
{
    let soon = is_soon_coming(alloc, setting, over, fixed, end)?;
    if soon {
        return Ok(true);
    }
    is_ever_coming(alloc, setting, over, fixed, end)
}
