//! Two entries: the ranks of both that receive from two ranks by them, and those that receive one label.

ghost use Rattle.std.specs.Prelude.{◌≡◌, ℕ, ℤ, ◌&&◌, ◌||◌, true, not, IfOk, OnOk};
ghost use Rattle.pb_part_areas.specs.Areas.{has, have};
ghost use Rattle.pb_part_firsts.specs.Firsts.{is_small_kind};
ghost use Rattle.pb_part_visits.specs.Visits.{is_small_off};
ghost use Rattle.pb_choice_entries.specs.Clashes.{AddsWhere, agrees, clash, fork, pair, same_label};

use crate::agree::agreement;
use crate::alike::{is_label, is_same};
use pb_part_areas::{Area, attach_all, common, is_apart, one, without};
use pb_part_firsts::{Entry, Kind, Source};
use pb_text::NoMemory;
use std::alloc::Global;

/// What two receives have to do with each other at a rank of both.
#[derive(Clone, Copy)]
pub enum Pairing {
    /// They are from two ranks.
    Sources,
    /// They have one label.
    Labels,
}

/// Adds the areas of the ranks of both entries at which they have this to do with each other.
pub(crate) fn add_pair(
    alloc: Global,
    out: &mut Vec<Area>,
    pairing: Pairing,
    entry: Entry,
    other: Entry,
) -> Result<(), NoMemory>
    ensures { OnOk result (is_small_kind entry.kind ≡ true → is_small_kind other.kind ≡ true → AddsWhere out.old.items out.new.items (pair pairing entry other)) }
{
    match pairing {
        Pairing::Sources => add_fork(alloc, out, entry, other),
        Pairing::Labels => add_clash(alloc, out, entry, other),
    }
}

fn add_clash(alloc: Global, out: &mut Vec<Area>, entry: Entry, other: Entry) -> Result<(), NoMemory>
    ensures { OnOk result ((n : ℤ) (role : ℕ) (x : ℤ) → have out.new.items n role x ≡ have out.old.items n role x || clash entry other n role x) }
{
    if is_same_label(entry.kind, other.kind) {
        add_common(alloc, out, entry.area, other.area)
    } else {
        Ok(())
    }
}

fn is_same_label(a: Kind, b: Kind) -> bool
    ensures { result ≡ same_label a b }
{
    match a {
        Kind::Receive { label, .. } => is_label(b, label),
        Kind::Other | Kind::Again => false,
    }
}

fn add_common(alloc: Global, out: &mut Vec<Area>, a: Area, b: Area) -> Result<(), NoMemory>
    ensures { OnOk result ((n : ℤ) (role : ℕ) (x : ℤ) → have out.new.items n role x ≡ have out.old.items n role x || (has a n role x && has b n role x)) }
{
    if is_apart(a, b) {
        return Ok(());
    }
    let both = overlap(alloc, a, b)?;
    attach_all(out, &both)?;
    Ok(())
}

fn overlap(alloc: Global, a: Area, b: Area) -> Result<Vec<Area>, NoMemory>
    ensures { IfOk result (λ v. (n : ℤ) (role : ℕ) (x : ℤ) → have v.items n role x ≡ has a n role x && has b n role x) }
{
    let first = one(alloc, a)?;
    let second = one(alloc, b)?;
    let both = common(alloc, &first, &second)?;
    Ok(both)
}

fn add_fork(alloc: Global, out: &mut Vec<Area>, entry: Entry, other: Entry) -> Result<(), NoMemory>
    ensures { OnOk result (is_small_kind entry.kind ≡ true → is_small_kind other.kind ≡ true → AddsWhere out.old.items out.new.items (fork entry other)) }
{
    match entry.kind {
        Kind::Receive { from, .. } => add_from(alloc, out, entry.area, from, other),
        Kind::Other | Kind::Again => Ok(()),
    }
}

ghost use Rattle.pb_choice_entries.specs.Clashes.{fork_from};

fn add_from(
    alloc: Global,
    out: &mut Vec<Area>,
    area: Area,
    from: Source,
    other: Entry,
) -> Result<(), NoMemory>
    ensures { OnOk result (is_small_off from.at.off ≡ true → is_small_kind other.kind ≡ true → AddsWhere out.old.items out.new.items (fork_from area from other)) }
{
    match other.kind {
        Kind::Receive { from: second, .. } => add_unless_same(
            alloc, out, area, from, other.area, second,
        ),
        Kind::Other | Kind::Again => Ok(()),
    }
}

// The same sender by both needs no look at the areas, and areas with nothing in common none at the senders.
fn add_unless_same(
    alloc: Global,
    out: &mut Vec<Area>,
    a: Area,
    from: Source,
    b: Area,
    second: Source,
) -> Result<(), NoMemory>
    ensures { OnOk result (is_small_off from.at.off ≡ true → is_small_off second.at.off ≡ true →
        AddsWhere out.old.items out.new.items (λ n role x. (has a n role x && has b n role x) && not (agrees from second n x))) }
{
    if is_same(from, second) {
        Ok(())
    } else if is_apart(a, b) {
        Ok(())
    } else {
        add_apart(alloc, out, a, from, b, second)
    }
}

fn add_apart(
    alloc: Global,
    out: &mut Vec<Area>,
    a: Area,
    from: Source,
    b: Area,
    second: Source,
) -> Result<(), NoMemory>
    ensures { OnOk result (is_small_off from.at.off ≡ true → is_small_off second.at.off ≡ true →
        AddsWhere out.old.items out.new.items (λ n role x. (has a n role x && has b n role x) && not (agrees from second n x))) }
{
    let both = overlap(alloc, a, b)?;
    let met = one(alloc, agreement(a, from, second))?;
    let apart = without(alloc, both, &met)?;
    attach_all(out, &apart)?;
    Ok(())
}
