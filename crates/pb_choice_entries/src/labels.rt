//! Entries with labels that others have, too.

ghost use Rattle.std.specs.Prelude.{◌≡◌, nat_eq, if◌then◌else◌, ℕ, ℤ, true, false, List, IfOk, OnOk};
ghost use Rattle.indexmap.specs.IndexSet.{contains};
ghost use Rattle.pb_part_firsts.specs.declared.firsts.Entry.{Entry};
ghost use Rattle.pb_part_firsts.specs.Firsts.{are_small};
ghost use Rattle.pb_choice_entries.specs.Clashes.{clashes, is_label, lacks, lacks_label};

use indexmap::IndexSet;
use pb_part_firsts::{Entry, Kind};
use pb_text::NoMemory;
use std::alloc::Global;

/// The label is one of the labels from now on.
fn put_label(labels: &mut IndexSet<u32>, label: u32) -> Result<(), NoMemory>
    ensures { OnOk result ((l : ℕ) → contains nat_eq labels.new l ≡ (if nat_eq l label then true else contains nat_eq labels.old l)) }
{
    match labels.insert(label) {
        Ok(_) => Ok(()),
        Err(_) => Err(NoMemory),
    }
}

/// Adds the label of a receive.
fn add_label(labels: &mut IndexSet<u32>, kind: Kind) -> Result<(), NoMemory>
    ensures { OnOk result ((l : ℕ) → contains nat_eq labels.new l ≡ (if is_label l kind then true else contains nat_eq labels.old l)) }
{
    match kind {
        Kind::Receive { label, .. } => put_label(labels, label),
        Kind::Other | Kind::Again => Ok(()),
    }
}

/// The labels of the receives.
fn labels_of(alloc: Global, entries: &[Entry]) -> Result<IndexSet<u32>, NoMemory>
    ensures { IfOk result (λ s. (l : ℕ) → contains nat_eq s l ≡ false → lacks l entries.now ≡ true) }
{
    let mut labels = IndexSet::new(alloc);
    for entry in entries {
        add_label(&mut labels, entry.kind)?;
    }
    Ok(labels)
}

/// Whether it is a receive with one of the labels.
fn has_label(labels: &IndexSet<u32>, kind: Kind) -> bool
    ensures { result ≡ false → (fs : List Entry) → ((l : ℕ) → contains nat_eq labels.now l ≡ false → lacks l fs ≡ true) → lacks_label kind fs ≡ true }
{
    match kind {
        Kind::Receive { label, .. } => labels.contains(&label),
        Kind::Other | Kind::Again => false,
    }
}

/// The entries with labels that some of the others have, too.
pub(crate) fn shared(
    alloc: Global,
    here: &[Entry],
    others: &[Entry],
) -> Result<Vec<Entry>, NoMemory>
    ensures is { IfOk result (λ v. (n : ℤ) (role : ℕ) (x : ℤ) → clashes v.items others.now n role x ≡ clashes here.now others.now n role x) }
    ensures small { IfOk result (λ v. are_small here.now ≡ true → are_small v.items ≡ true) }
{
    let labels = labels_of(alloc, others)?;
    let mut out = Vec::new(alloc);
    for entry in here {
        if has_label(&labels, entry.kind) {
            out.push(*entry)?;
        }
    }
    Ok(out)
}
