//! Whether entries have one label or one source.

ghost use Rattle.std.specs.Prelude.{◌≡◌, ℕ, ℤ, ◌&&◌, nat_eq, true, false, List, IfOk};
ghost use Rattle.pb_part_firsts.specs.declared.firsts.Entry.{Entry};
ghost use Rattle.std.specs.Ordering.{int_eq};
ghost use Rattle.pb_part_firsts.specs.Firsts.{are_small};
ghost use Rattle.pb_choice_entries.specs.Clashes.{are_sent_by, forks, is_label, is_receive, is_sent_by, same_base};

use pb_affine::Base;
use pb_part_firsts::{Entry, Kind, Source};
use pb_text::NoMemory;
use std::alloc::Global;

/// Whether it is a receive of the label.
pub(crate) fn is_label(kind: Kind, wanted: u32) -> bool
    ensures { result ≡ is_label wanted kind }
{
    match kind {
        Kind::Receive { label, .. } => wanted == label,
        Kind::Other | Kind::Again => false,
    }
}

/// Whether the sources are written in the same way.
pub(crate) fn is_same(a: Source, b: Source) -> bool
    ensures { result ≡ (nat_eq a.role b.role && same_base a.at.base b.at.base && int_eq a.at.off b.at.off) }
{
    a.role == b.role && is_same_base(a.at.base, b.at.base) && a.at.off == b.at.off
}

fn is_same_base(a: Base, b: Base) -> bool
    ensures { result ≡ same_base a b }
{
    match a {
        Base::Fixed => matches!(&b, Base::Fixed),
        Base::Param => matches!(&b, Base::Param),
        Base::Var => matches!(&b, Base::Var),
    }
}

// ---- one source

fn is_sent_by(kind: Kind, source: Source) -> bool
    ensures { result ≡ is_sent_by source kind }
{
    match kind {
        Kind::Receive { from, .. } => is_same(source, from),
        Kind::Other | Kind::Again => true,
    }
}

/// True only where all receives are from this source, as it is written.
fn are_sent_by(entries: &[Entry], source: Source) -> bool
    ensures { result ≡ true → are_sent_by source entries.now ≡ true }
{
    for entry in entries {
        if !is_sent_by(entry.kind, source) {
            return false;
        }
    }
    true
}

/// The source of the first receive.
fn first_source(entries: &[Entry]) -> Option<Source> {
    for entry in entries {
        if let Kind::Receive { from, .. } = entry.kind {
            return Some(from);
        }
    }
    None
}

/// True only where all receives of both are from one source, so that no rank receives from two by them.
pub fn have_one_source(here: &[Entry], others: &[Entry]) -> bool
    ensures { result ≡ true → (n : ℤ) (role : ℕ) (x : ℤ) → forks here.now others.now n role x ≡ false }
{
    match first_source(here) {
        None => false,
        Some(source) => are_sent_by(here, source) && are_sent_by(others, source),
    }
}

/// The receives among the entries.
pub(crate) fn receives(alloc: Global, entries: &[Entry]) -> Result<Vec<Entry>, NoMemory>
    ensures first { IfOk result (λ v. (others : List Entry) (n : ℤ) (role : ℕ) (x : ℤ) → forks v.items others n role x ≡ forks entries.now others n role x) }
    ensures second { IfOk result (λ v. (here : List Entry) (n : ℤ) (role : ℕ) (x : ℤ) → forks here v.items n role x ≡ forks here entries.now n role x) }
    ensures small { IfOk result (λ v. are_small entries.now ≡ true → are_small v.items ≡ true) }
{
    let mut out = Vec::new(alloc);
    for entry in entries {
        if is_receive(entry.kind) {
            out.push(*entry)?;
        }
    }
    Ok(out)
}

fn is_receive(kind: Kind) -> bool
    ensures { result ≡ is_receive kind }
{
    match kind {
        Kind::Receive { .. } => true,
        Kind::Other | Kind::Again => false,
    }
}
