ghost use Rattle.std.specs.Prelude.{IfOk};
ghost use Rattle.pb_choice.specs.Found.{mark_of};
ghost use Rattle.pb_choice.specs.Senders.{AreCurrent};
ghost use Rattle.pb_choice.specs.Walks.{FirstOf};

use crate::areas::strangers;
use crate::found::{Found, Mark};
use crate::least::told_kept;
use crate::past::Past;
use crate::rule::ChoiceRule;
use crate::setting::Setting;
use crate::split::{add_entries, split_of};
use pb_choice_entries::clashes;
use pb_part_areas::{Area, attach_all};
use pb_part_firsts::Entry;
use pb_text::NoMemory;
use std::alloc::Global;

/// The earlier of the best so far and the first breach of the rules 10 to 12 at a branch in which the told ranks find these
/// entries first, or nothing if they are left. Adds what they find to the past.
pub fn rules_kept(
    alloc: Global,
    setting: &Setting,
    mark: Mark,
    here: &[Entry],
    left: &[Area],
    past: &mut Past,
    best: Option<Found>,
) -> Result<Option<Found>, NoMemory>
    ensures first { IfOk result (λ new. AreCurrent past.old.sources.items past.old.entries.items → FirstOf setting.now.range setting.now.whole.now here.now left.now (mark_of mark) past.old.entries.items past.old.mixed.items past.new.entries.items past.new.mixed.items best new) }
    ensures current { IfOk result (λ new. AreCurrent past.old.sources.items past.old.entries.items → AreCurrent past.new.sources.items past.new.entries.items) }
{
    let strange = strangers(alloc, here, left)?;
    let split = split_of(alloc, here, &past.entries, &past.mixed, &mut past.sources)?;
    let shared = clashes(alloc, here, &past.entries)?;
    let first = told_kept(
        alloc,
        setting,
        ChoiceRule::OnlyReceives,
        mark,
        &strange,
        best,
    )?;
    let second = told_kept(alloc, setting, ChoiceRule::OneSource, mark, &split, first)?;
    let third = told_kept(alloc, setting, ChoiceRule::OwnLabels, mark, &shared, second)?;
    add_entries(&mut past.entries, here)?;
    attach_all(&mut past.mixed, &split)?;
    Ok(third)
}
