ghost use Rattle.std.specs.Prelude.{◌≡◌, ◌++◌, [], OnOk, IfOk, map};
ghost use Rattle.pb_ctree.specs.Functions.{has_words, kind_of, label_functions, labels_functions, kernel_function, functions_of, default_of, defaults_of};
ghost use Rattle.pb_local.specs.Tree.{program_of};

use crate::{
    Bodies, Body, CTree, CoreKernel, CoreLabel, KName, KernelKind, Kind, NoMemory, Payload,
};
use std::alloc::Global;

/// True where the payload isn't `()`.
pub fn has_words(payload: Payload) -> bool
    ensures { result ≡ has_words payload }
{
    match payload {
        Payload::Unit => false,
        Payload::Int32(_) => true,
        Payload::Uint32(_) => true,
    }
}

fn kind_of(kind: KernelKind) -> Kind
    ensures { result ≡ kind_of kind }
{
    match kind {
        KernelKind::Compute => Kind::Compute,
        KernelKind::Choice => Kind::Choice,
    }
}

fn push_label(label: CoreLabel, out: &mut Vec<KName>) -> Result<(), NoMemory>
    ensures { OnOk result (out.new.items ≡ out.old.items ++ label_functions label) }
{
    if has_words(label.payload) {
        out.push(KName {
            kind: Kind::Make,
            name: Some(label.name),
        })?;
        out.push(KName {
            kind: Kind::Take,
            name: Some(label.name),
        })?;
    }
    Ok(())
}

fn push_labels(labels: &[CoreLabel], out: &mut Vec<KName>) -> Result<(), NoMemory>
    ensures { OnOk result (out.new.items ≡ out.old.items ++ labels_functions labels.now) }
{
    for label in labels {
        push_label(*label, out)?;
    }
    Ok(())
}

fn push_kernels(kernels: &[CoreKernel], out: &mut Vec<KName>) -> Result<(), NoMemory>
    ensures { OnOk result (out.new.items ≡ out.old.items ++ map kernel_function kernels.now) }
{
    for kernel in kernels {
        out.push(KName {
            kind: kind_of(kernel.kind),
            name: Some(kernel.name),
        })?;
    }
    Ok(())
}

/// The kernel functions of a tree's text, in printed order: for each label with words the one that makes them and the
/// one that takes them, and then each kernel.
pub fn functions(alloc: Global, tree: &CTree) -> Result<Vec<KName>, NoMemory>
    ensures { IfOk result (λ list. list.items ≡ functions_of (program_of tree.now.local)) }
{
    let mut list = Vec::new(alloc);
    push_labels(&tree.local.labels, &mut list)?;
    push_kernels(&tree.local.kernels, &mut list)?;
    Ok(list)
}

fn push_defaults(alloc: Global, names: &[KName], out: &mut Vec<Body>) -> Result<(), NoMemory>
    ensures { OnOk result (out.new.items ≡ out.old.items ++ map (λ f. default_of f.kind) names.now) }
{
    for name in names {
        out.push(Body::default_of(alloc, name.kind)?)?;
    }
    Ok(())
}

/// The bodies where nothing else is given: the first branch for a choice kernel, and no line for any other.
pub fn default_bodies(alloc: Global, tree: &CTree) -> Result<Bodies, NoMemory>
    ensures prelude { IfOk result (λ bodies. bodies.prelude ≡ []) }
    ensures list { IfOk result (λ bodies. bodies.list.items ≡ defaults_of (program_of tree.now.local)) }
{
    let names = functions(alloc, tree)?;
    let mut list = Vec::new(alloc);
    push_defaults(alloc, &names, &mut list)?;
    Ok(Bodies {
        prelude: Body::default_of(alloc, Kind::Prelude)?,
        list,
    })
}
