ghost use Rattle.std.specs.Prelude.{◌≡◌, IfOk};
ghost use Rattle.pb_core_language.specs.Plain.{plain_block};
ghost use Rattle.pb_choice.specs.Found.{mark_of, lone_if};
ghost use Rattle.pb_choice.specs.Walks.{AreInBody, FirstLone};

use crate::empty::first_empty;
use crate::found::{Found, Mark, earlier};
use crate::round::comes_round;
use crate::setting::Setting;
use pb_core_language::CoreBlock;
use pb_part_areas::{Area, common};
use pb_part_takers::{Held, takers_in, with_loop};
use pb_text::NoMemory;
use std::alloc::Global;

/// The areas of those that take part in the body of a loop, for a reason other than its continue.
pub fn body_takers(
    body: &CoreBlock,
    alloc: Global,
    setting: &Setting,
    held: &[Held],
    id: u32,
) -> Result<Vec<Area>, NoMemory>
    ensures { IfOk result (λ v. AreInBody setting.now.range setting.now.whole.now held.now id (plain_block body.now).block v.items) }
{
    let inside = with_loop(alloc, held, id, Vec::new(alloc))?;
    let mut areas = Vec::new(alloc);
    takers_in(body, alloc, setting.whole, &inside, &mut areas)?;
    Ok(areas)
}

/// The earlier of the best so far and the first breach of rule 9 at a loop in whose body these areas take part.
pub fn lone_kept(
    body: &CoreBlock,
    alloc: Global,
    setting: &Setting,
    held: &[Held],
    mark: Mark,
    id: u32,
    areas: &[Area],
    best: Option<Found>,
) -> Result<Option<Found>, NoMemory>
    ensures { IfOk result (λ new. FirstLone setting.now.range setting.now.whole.now held.now (mark_of mark) id (plain_block body.now).block areas.now best new) }
{
    let round = comes_round(body, alloc, held, id)?;
    if !round {
        return Ok(best);
    }
    let ranks = common(alloc, areas, setting.whole)?;
    let first = first_empty(&ranks, setting.range);
    Ok(lone_if(mark, first, best))
}

// The earlier of the best so far and a breach by nobody at this N.
fn lone_if(mark: Mark, n: Option<i64>, best: Option<Found>) -> Option<Found>
    ensures { result ≡ lone_if mark n best }
{
    match n {
        None => best,
        Some(n) => earlier(
            best,
            Found {
                rule: 9,
                mark,
                n,
                at: None,
            },
        ),
    }
}
