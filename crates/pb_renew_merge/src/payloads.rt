//! Bodies that are kept while what their label carries has changed.

ghost use Rattle.std.specs.Prelude.{◌≡◌, ◌++◌, ◌&&◌, not, nat_eq, IfOk, OnOk};
ghost use Rattle.std.specs.Cmp.Lexicographic.{pointwise};
ghost use Rattle.pb_ctree.specs.Functions.{named};
ghost use Rattle.pb_renew_merge.specs.Payloads.{changed_names, changed_of, is_changed, kept_name, same_payload};

use crate::lost::keeps;
use pb_ctree::{CoreLabel, Payload, has_words};
use pb_kernels::{CTree, KName, KernelFile, Kind, NoMemory};
use std::alloc::Global;

/// The functions of a tree's labels whose old body is kept while the label of that name had another payload before, in
/// printed order.
pub fn changed_names(
    alloc: Global,
    before: &[CoreLabel],
    tree: &CTree,
    old: &KernelFile,
    kept: &KernelFile,
) -> Result<Vec<KName>, NoMemory>
    ensures { IfOk result (λ list. list.items ≡ changed_names tree.now.local.labels.items before.now old.now kept.now) }
{
    let mut list = Vec::new(alloc);
    push_labels(&tree.local.labels, before, old, kept, &mut list)?;
    Ok(list)
}

fn push_labels(
    labels: &[CoreLabel],
    before: &[CoreLabel],
    old: &KernelFile,
    kept: &KernelFile,
    out: &mut Vec<KName>,
) -> Result<(), NoMemory>
    ensures { OnOk result (out.new.items ≡ out.old.items ++ changed_names labels.now before.now old.now kept.now) }
{
    for label in labels {
        push_label(label, before, old, kept, out)?;
    }
    Ok(())
}

/// Appends the functions of a label, where its payload has changed and their old bodies are kept.
fn push_label(
    label: &CoreLabel,
    before: &[CoreLabel],
    old: &KernelFile,
    kept: &KernelFile,
    out: &mut Vec<KName>,
) -> Result<(), NoMemory>
    ensures { OnOk result (out.new.items ≡ out.old.items ++ changed_of label.now before.now old.now kept.now) }
{
    if has_words(label.payload) && is_changed(label, before) {
        push_kept(Kind::Make, label, old, kept, out)?;
        push_kept(Kind::Take, label, old, kept, out)?;
    }
    Ok(())
}

/// Appends the function of this kind of a label, where its old body is kept.
fn push_kept(
    kind: Kind,
    label: &CoreLabel,
    old: &KernelFile,
    kept: &KernelFile,
    out: &mut Vec<KName>,
) -> Result<(), NoMemory>
    ensures { OnOk result (out.new.items ≡ out.old.items ++ kept_name (named kind label.now.name) old.now kept.now) }
{
    let name = KName {
        kind,
        name: Some(label.name),
    };
    if old.has(&name) && keeps(&name, old.bytes_of(&name), kept) {
        out.push(name)?;
    }
    Ok(())
}

/// True where a label of this name had another payload before.
fn is_changed(label: &CoreLabel, before: &[CoreLabel]) -> bool
    ensures { result ≡ is_changed label.now before.now }
{
    before.iter().any(|old| has_other_payload(old, label))
}

fn has_other_payload(old: &CoreLabel, label: &CoreLabel) -> bool
    ensures { result ≡ (pointwise nat_eq old.now.name label.now.name && not (same_payload old.now.payload label.now.payload)) }
{
    old.name.bytes() == label.name.bytes() && !same_payload(old.payload, label.payload)
}

fn same_payload(a: Payload, b: Payload) -> bool
    ensures { result ≡ same_payload a b }
{
    match a {
        Payload::Unit => match b {
            Payload::Unit => true,
            Payload::Int32(_) => false,
            Payload::Uint32(_) => false,
        },
        Payload::Int32(count) => match b {
            Payload::Unit => false,
            Payload::Int32(other) => count == other,
            Payload::Uint32(_) => false,
        },
        Payload::Uint32(count) => match b {
            Payload::Unit => false,
            Payload::Int32(_) => false,
            Payload::Uint32(other) => count == other,
        },
    }
}
