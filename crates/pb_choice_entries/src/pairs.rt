//! Pairs of entries of two lists. Halves of many entries are compared with what is close to them alone.

ghost use Rattle.std.specs.Prelude.{◌≡◌, ℕ, ℤ, ◌||◌, true, IfOk, OnOk};
ghost use Rattle.pb_part_areas.specs.Areas.{has, have};
ghost use Rattle.pb_part_firsts.specs.Firsts.{is_small_kind, are_small};
ghost use Rattle.pb_choice_entries.specs.Clashes.{AddsWhere, AreWhere, clashes, forks, pair_any, pairs};

use crate::close::few_close;
use crate::labels::shared;
use crate::order::in_order;
use crate::pair::{Pairing, add_pair};
use pb_part_areas::Area;
use pb_part_firsts::Entry;
use pb_text::NoMemory;
use std::alloc::Global;

/// The areas of those that find a label first that some of them found before.
pub fn clashes(alloc: Global, here: &[Entry], before: &[Entry]) -> Result<Vec<Area>, NoMemory>
    ensures { IfOk result (λ v. are_small here.now ≡ true → are_small before.now ≡ true → AreWhere v.items (clashes here.now before.now)) }
{
    let mut out = Vec::new(alloc);
    let mine = shared(alloc, here, before)?;
    add_pairs(alloc, &mut out, Pairing::Labels, mine, before)?;
    Ok(out)
}

/// The areas of those that receive from two ranks first, by these entries and by others or these. These are best in an order in
/// which those whose areas are near stand together.
pub fn forks(alloc: Global, here: &[Entry], before: &[Entry]) -> Result<Vec<Area>, NoMemory>
    ensures { IfOk result (λ v. are_small here.now ≡ true → are_small before.now ≡ true →
        AreWhere v.items (λ n role x. forks here.now before.now n role x || forks here.now here.now n role x)) }
{
    let mut out = Vec::new(alloc);
    add_pairs_among(alloc, &mut out, Pairing::Sources, here, before)?;
    add_pairs_among(alloc, &mut out, Pairing::Sources, here, here)?;
    Ok(out)
}

/// Adds the areas of the ranks of an entry of each list at which they have this to do with each other.
fn add_pairs(
    alloc: Global,
    out: &mut Vec<Area>,
    pairing: Pairing,
    here: Vec<Entry>,
    others: &[Entry],
) -> Result<(), NoMemory>
    ensures { OnOk result (are_small here.items ≡ true → are_small others.now ≡ true → AddsWhere out.old.items out.new.items (pairs pairing here.items others.now)) }
{
    let list = in_order(here);
    add_pairs_among(alloc, out, pairing, &list, others)
}

/// How many entries are compared one by one with others.
const FEW: usize = 4;

#[cycle(halving)]
fn add_pairs_among(
    alloc: Global,
    out: &mut Vec<Area>,
    pairing: Pairing,
    here: &[Entry],
    others: &[Entry],
) -> Result<(), NoMemory>
    ensures { OnOk result (are_small here.now ≡ true → are_small others.now ≡ true → AddsWhere out.old.items out.new.items (pairs pairing here.now others.now)) }
{
    if here.len() <= FEW {
        return add_pairs_each(alloc, out, pairing, here, others);
    }
    let (first, second) = here.split_at(here.len() / 2);
    add_pairs_close(alloc, out, pairing, first, others)?;
    add_pairs_close(alloc, out, pairing, second, others)
}

#[cycle(halving)]
fn add_pairs_close(
    alloc: Global,
    out: &mut Vec<Area>,
    pairing: Pairing,
    here: &[Entry],
    others: &[Entry],
) -> Result<(), NoMemory>
    ensures { OnOk result (are_small here.now ≡ true → are_small others.now ≡ true → AddsWhere out.old.items out.new.items (pairs pairing here.now others.now)) }
{
    match few_close(alloc, here, others)? {
        None => add_pairs_among(alloc, out, pairing, here, others),
        Some(close) => add_pairs_among(alloc, out, pairing, here, &close),
    }
}

fn add_pairs_each(
    alloc: Global,
    out: &mut Vec<Area>,
    pairing: Pairing,
    here: &[Entry],
    others: &[Entry],
) -> Result<(), NoMemory>
    ensures { OnOk result (are_small here.now ≡ true → are_small others.now ≡ true → AddsWhere out.old.items out.new.items (pairs pairing here.now others.now)) }
{
    for entry in here {
        if !ends_with(out, entry.area) {
            add_pairs_of(alloc, out, pairing, *entry, others)?;
        }
    }
    Ok(())
}

fn add_pairs_of(
    alloc: Global,
    out: &mut Vec<Area>,
    pairing: Pairing,
    entry: Entry,
    others: &[Entry],
) -> Result<(), NoMemory>
    ensures { OnOk result (is_small_kind entry.kind ≡ true → are_small others.now ≡ true → AddsWhere out.old.items out.new.items (pair_any pairing others.now entry)) }
{
    for other in others {
        if ends_with(out, entry.area) {
            return Ok(());
        }
        add_pair(alloc, out, pairing, entry, *other)?;
    }
    Ok(())
}

// Whether the last area of the list is this one.
fn ends_with(list: &[Area], a: Area) -> bool
    ensures { result ≡ true → (n : ℤ) (role : ℕ) (x : ℤ) → has a n role x ≡ true → have list.now n role x ≡ true }
{
    if list.is_empty() {
        return false;
    }
    let last = list[list.len() - 1];
    if last.role == a.role
        && last.low == a.low
        && last.end == a.end
        && last.from == a.from
        && last.until == a.until
    {
        return true;
    }
    false
}
