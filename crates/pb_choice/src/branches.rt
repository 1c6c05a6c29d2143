//! The branches of a choice, without what is inside them.

ghost use Rattle.std.specs.Prelude.{◌≡◌, IfOk, map};
ghost use Rattle.pb_core_language.specs.Plain.{plain_block, branches_of};
ghost use Rattle.pb_choice.specs.Senders.{AreCurrent};
ghost use Rattle.pb_choice.specs.Walks.{FirstAmong, FirstWithin};
ghost use Rattle.pb_choice.specs.Settled.{FirstTold};

use crate::branch::rules_kept;
use crate::found::{Found, Mark};
use crate::past::Past;
use crate::setting::Setting;
use crate::settled::are_settled;
use crate::told::told_of;
use pb_core_language::{CoreBlock, CoreEnd};
use pb_part_areas::{Area, cloned};
use pb_part_firsts::firsts_in;
use pb_part_takers::Held;
use pb_text::NoMemory;
use std::alloc::Global;

/// The earlier of the best so far and the first breach of the rules 10 to 12 at these branches of a choice. Where none there can be
/// before the best so far, nobody asks who is told.
pub fn branches_kept(
    branches: &[CoreBlock],
    alloc: Global,
    setting: &Setting,
    held: &[Held],
    at: &CoreEnd,
    best: Option<Found>,
) -> Result<Option<Found>, NoMemory>
    ensures { IfOk result (λ new. FirstTold setting.now.range setting.now.whole.now held.now at.now (branches_of (map plain_block branches.now)) best new) }
{
    if are_settled(branches, 0, best) {
        return Ok(best);
    }
    let told = told_of(branches, alloc, setting, held, at)?;
    let last = among_kept(branches, alloc, setting, held, &told, best)?;
    Ok(last)
}

// The same, where these areas are told.
fn among_kept(
    branches: &[CoreBlock],
    alloc: Global,
    setting: &Setting,
    held: &[Held],
    told: &[Area],
    best: Option<Found>,
) -> Result<Option<Found>, NoMemory>
    ensures { IfOk result (λ new. FirstAmong setting.now.range setting.now.whole.now held.now told.now (branches_of (map plain_block branches.now)) best new) }
{
    let mut best = best;
    let mut past = Past {
        entries: Vec::new(alloc),
        sources: Vec::new(alloc),
        mixed: Vec::new(alloc),
    };
    for (i, branch) in branches.iter().enumerate() {
        if are_settled(branches, i, best) {
            return Ok(best);
        }
        best = branch_kept(branch, alloc, setting, held, told, &mut past, best)?;
    }
    Ok(best)
}

// The same at one branch, behind others.
fn branch_kept(
    branch: &CoreBlock,
    alloc: Global,
    setting: &Setting,
    held: &[Held],
    told: &[Area],
    past: &mut Past,
    best: Option<Found>,
) -> Result<Option<Found>, NoMemory>
    ensures first { IfOk result (λ new. AreCurrent past.old.sources.items past.old.entries.items → FirstWithin setting.now.range setting.now.whole.now held.now told.now (plain_block branch.now).mark (plain_block branch.now).block
        past.old.entries.items past.old.mixed.items past.new.entries.items past.new.mixed.items best new) }
    ensures current { IfOk result (λ new. AreCurrent past.old.sources.items past.old.entries.items → AreCurrent past.new.sources.items past.new.entries.items) }
{
    let mark = Mark {
        number: branch.number,
        place: branch.place,
    };
    let reach = cloned(alloc, told)?;
    let mut here = Vec::new(alloc);
    let left = firsts_in(branch, alloc, setting.whole, held, reach, &mut here)?;
    let last = rules_kept(alloc, setting, mark, &here, &left, past, best)?;
    Ok(last)
}
