//! What entries say of who is heard from.

ghost use Rattle.std.specs.Prelude.{◌≡◌, ℕ, ℤ, true, List, IfOk};
ghost use Rattle.pb_part_firsts.specs.declared.firsts.Entry.{Entry};
ghost use Rattle.pb_part_firsts.specs.declared.firsts.Kind.TheVariants.{Receive};
ghost use Rattle.pb_part_firsts.specs.Firsts.{are_small};
ghost use Rattle.pb_part_areas.specs.Areas.{has};
ghost use Rattle.pb_choice_entries.specs.Clashes.{forks};
ghost use Rattle.pb_choice_entries.specs.Repeats.{AreSameSender, IsRepeated};

use crate::alike::{is_same, receives};
use crate::order::in_order;
use pb_part_areas::Area;
use pb_part_firsts::{Entry, Kind, Source};
use pb_text::NoMemory;
use std::alloc::Global;

/// True only where both areas hold of the same ranks.
fn is_same_area(a: Area, b: Area) -> bool
    ensures { result ≡ true → (n : ℤ) (role : ℕ) (x : ℤ) → has a n role x ≡ has b n role x }
{
    a.role == b.role && a.low == b.low && a.end == b.end && a.from == b.from && a.until == b.until
}

/// True only where both are receives from one source, as it is written, whatever the label.
fn is_same_sender(a: Kind, b: Kind) -> bool
    ensures { result ≡ true → AreSameSender a b }
{
    match a {
        Kind::Receive { from, .. } => is_from(b, from),
        Kind::Other | Kind::Again => false,
    }
}

/// True only where it is a receive from this source, as it is written.
fn is_from(kind: Kind, source: Source) -> bool
    ensures { result ≡ true → (label : ℕ) → AreSameSender (Receive source label) kind }
{
    match kind {
        Kind::Receive { from, .. } => is_same(source, from),
        Kind::Other | Kind::Again => false,
    }
}

/// True only where the last entry of the list is a receive of the same ranks from the same source.
fn is_repeated(list: &[Entry], entry: Entry) -> bool
    ensures { result ≡ true → IsRepeated list.now entry }
{
    if list.is_empty() {
        return false;
    }
    let last = list[list.len() - 1];
    is_same_area(entry.area, last.area) && is_same_sender(entry.kind, last.kind)
}

/// The entries in an order in which those whose areas are near stand together. Of receives of the same ranks from one source one is
/// left.
pub fn distinct(alloc: Global, entries: Vec<Entry>) -> Result<Vec<Entry>, NoMemory>
    ensures first { IfOk result (λ v. (others : List Entry) (n : ℤ) (role : ℕ) (x : ℤ) → forks v.items others n role x ≡ forks entries.items others n role x) }
    ensures second { IfOk result (λ v. (here : List Entry) (n : ℤ) (role : ℕ) (x : ℤ) → forks here v.items n role x ≡ forks here entries.items n role x) }
    ensures small { IfOk result (λ v. are_small entries.items ≡ true → are_small v.items ≡ true) }
{
    let list = in_order(entries);
    let mut out = Vec::new(alloc);
    for entry in &list {
        if !is_repeated(&out, *entry) {
            out.push(*entry)?;
        }
    }
    Ok(out)
}

/// The receives among the entries, in this order and each once.
pub fn sources_of(alloc: Global, entries: &[Entry]) -> Result<Vec<Entry>, NoMemory>
    ensures first { IfOk result (λ v. (others : List Entry) (n : ℤ) (role : ℕ) (x : ℤ) → forks v.items others n role x ≡ forks entries.now others n role x) }
    ensures second { IfOk result (λ v. (here : List Entry) (n : ℤ) (role : ℕ) (x : ℤ) → forks here v.items n role x ≡ forks here entries.now n role x) }
    ensures small { IfOk result (λ v. are_small entries.now ≡ true → are_small v.items ≡ true) }
{
    let all = receives(alloc, entries)?;
    let list = distinct(alloc, all)?;
    Ok(list)
}
