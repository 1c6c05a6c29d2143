//! Who receives from a second rank in a branch.

ghost use Rattle.std.specs.Prelude.{◌≡◌, ◌++◌, true, List, IfOk, OnOk};
ghost use Rattle.pb_part_firsts.specs.declared.firsts.Entry.{Entry};
ghost use Rattle.pb_part_firsts.specs.Firsts.{are_small};
ghost use Rattle.pb_choice_entries.specs.Clashes.{AreSplit};
ghost use Rattle.pb_choice.specs.Senders.{AreAlike, AreCurrent};

use pb_choice_entries::{distinct, forks, have_one_source, less, sources_of};
use pb_part_areas::Area;
use pb_part_firsts::Entry;
use pb_text::NoMemory;
use std::alloc::Global;
use std::mem;

/// Adds the entries behind the others.
pub fn add_entries(entries: &mut Vec<Entry>, here: &[Entry]) -> Result<(), NoMemory>
    ensures { OnOk result (entries.new.items ≡ entries.old.items ++ here.now) }
{
    for entry in here {
        entries.push(*entry)?;
    }
    Ok(())
}

// The sources of the entries, by those known where some are. They come in order, each once.
fn current_of(alloc: Global, known: Vec<Entry>, entries: &[Entry]) -> Result<Vec<Entry>, NoMemory>
    ensures { IfOk result (λ v. AreCurrent known.items entries.now → AreAlike v.items entries.now) }
{
    if known.is_empty() {
        let all = sources_of(alloc, entries)?;
        return Ok(all);
    }
    let all = distinct(alloc, known)?;
    Ok(all)
}

// The areas of those that receive from a second rank by these entries, and didn't before.
fn split_by(
    alloc: Global,
    mine: &[Entry],
    sources: &[Entry],
    mixed: &[Area],
) -> Result<Vec<Area>, NoMemory>
    ensures { IfOk result (λ v. are_small mine.now ≡ true → are_small sources.now ≡ true → AreSplit mine.now sources.now mixed.now v.items) }
{
    let forked = forks(alloc, mine, sources)?;
    let split = less(alloc, &forked, mixed)?;
    Ok(split)
}

/// The areas of those that receive from a second rank in a branch with the entries `here`, and didn't in those before. The sources
/// of the entries before become those of all. Nobody asks for them as long as all receives are from one source.
pub fn split_of(
    alloc: Global,
    here: &[Entry],
    before: &[Entry],
    mixed: &[Area],
    sources: &mut Vec<Entry>,
) -> Result<Vec<Area>, NoMemory>
    ensures split { IfOk result (λ v. AreCurrent sources.old.items before.now → are_small here.now ≡ true → are_small before.now ≡ true → AreSplit here.now before.now mixed.now v.items) }
    ensures current { IfOk result (λ v. AreCurrent sources.old.items before.now → AreCurrent sources.new.items (before.now ++ here.now)) }
{
    if have_one_source(here, before) && have_one_source(here, here) {
        sources.clear();
        return Ok(Vec::new(alloc));
    }
    let known = mem::replace(sources, Vec::new(alloc));
    let current = current_of(alloc, known, before)?;
    let mine = sources_of(alloc, here)?;
    let split = split_by(alloc, &mine, &current, mixed)?;
    *sources = current;
    add_entries(sources, &mine)?;
    Ok(split)
}
