ghost use Rattle.std.specs.Prelude.{◌≡◌, ◌&&◌, not, IfOk};
ghost use Rattle.pb_part_areas.specs.Areas.{has, have};
ghost use Rattle.pb_project_piece.specs.Seen.{IsPart, IsSeen, is_soon};

use crate::setting::Setting;
use pb_cases::Bad;
use pb_part_areas::{Area, common, is_apart, one, without};
use pb_part_first::first_of;
use pb_text::NoMemory;
use std::alloc::Global;

/// At an N up to this one a protocol has few ranks.
const LATE: i64 = 3_000_000;

fn is_soon(first: Option<Bad>) -> bool
    ensures { result ≡ is_soon first }
{
    match first {
        None => false,
        Some(bad) => bad.n <= LATE,
    }
}

/// True only where the area holds of a rank, for some N of the range up to `LATE`.
fn is_area_seen(alloc: Global, setting: &Setting, area: Area) -> Result<bool, NoMemory>
    ensures { IfOk result (λ t. IsSeen setting.now.range setting.now.whole.now (Some area) t) }
{
    let list = one(alloc, area)?;
    let ranks = common(alloc, &list, setting.whole)?;
    let first = first_of(&ranks, setting.range);
    Ok(is_soon(first))
}

/// True only where there is an area and it holds of a rank, for some N of the range up to `LATE`.
pub(crate) fn is_seen(
    alloc: Global,
    setting: &Setting,
    part: Option<Area>,
) -> Result<bool, NoMemory>
    ensures { IfOk result (λ t. IsSeen setting.now.range setting.now.whole.now part t) }
{
    match part {
        None => Ok(false),
        Some(area) => is_area_seen(alloc, setting, area),
    }
}

/// Some part of `a` beside `b`.
fn beside(alloc: Global, a: Area, b: Area) -> Result<Option<Area>, NoMemory>
    ensures { IfOk result (λ o. IsPart o (λ n role x. has a n role x && not (has b n role x))) }
{
    if is_apart(a, b) {
        return Ok(Some(a));
    }
    let all = one(alloc, a)?;
    let other = one(alloc, b)?;
    let mut rest = without(alloc, all, &other)?;
    Ok(rest.pop())
}

/// Some part of what is left of an area without a list.
pub(crate) fn some_left(alloc: Global, a: Area, less: &[Area]) -> Result<Option<Area>, NoMemory>
    ensures { IfOk result (λ o. IsPart o (λ n role x. has a n role x && not (have less.now n role x))) }
{
    let mut left = a;
    for b in less {
        let part = beside(alloc, left, *b)?;
        match part {
            None => return Ok(None),
            Some(next) => left = next,
        }
    }
    Ok(Some(left))
}

/// Some part of what both areas hold of.
fn shared(alloc: Global, a: Area, b: Area) -> Result<Option<Area>, NoMemory>
    ensures { IfOk result (λ o. IsPart o (λ n role x. has a n role x && has b n role x)) }
{
    if is_apart(a, b) {
        return Ok(None);
    }
    let all = one(alloc, a)?;
    let other = one(alloc, b)?;
    let mut both = common(alloc, &all, &other)?;
    Ok(both.pop())
}

/// Some part of what the area and the list hold of.
pub(crate) fn some_shared(alloc: Global, list: &[Area], a: Area) -> Result<Option<Area>, NoMemory>
    ensures { IfOk result (λ o. IsPart o (λ n role x. have list.now n role x && has a n role x)) }
{
    for b in list {
        let here = shared(alloc, *b, a)?;
        if here.is_some() {
            return Ok(here);
        }
    }
    Ok(None)
}
