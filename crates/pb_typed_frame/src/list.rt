//! The functions of a program text, one after the other.

ghost use Rattle.std.specs.Prelude.{◌≡◌, ◌++◌, ◌∷◌, [], OnOk, IfOk, map, if◌then◌else◌};
ghost use Rattle.pb_local.specs.Tree.{program_of};
ghost use Rattle.pb_ctree.specs.Functions.{has_words};
ghost use Rattle.pb_typed.specs.Functions.{body_name, function, kernel_function, kind_of, label_functions, labels_functions, typed_functions};
ghost use Rattle.pb_typed.specs.declared.function.Role.TheVariants.{Makes, MakesOwn, GivesRoom, Takes, TakesOwn};

use crate::labels::carried_of;
use pb_ctree::{CoreKernel, CoreLabel, KName, KernelKind, Kind, Local, Name, has_words};
use pb_text::NoMemory;
use pb_typed::{Function, Role};
use pb_typed_types::Carried;
use std::alloc::Global;

fn push(out: &mut Vec<Function>, role: Role, name: Name) -> Result<(), NoMemory>
    ensures { OnOk result (out.new.items ≡ out.old.items ++ function role name ∷ []) }
{
    out.push(Function { role, name })?;
    Ok(())
}

fn push_words(out: &mut Vec<Function>, name: Name) -> Result<(), NoMemory>
    ensures { OnOk result (out.new.items ≡ out.old.items ++ function Makes name ∷ function Takes name ∷ []) }
{
    push(out, Role::Makes, name)?;
    push(out, Role::Takes, name)
}

fn push_own(out: &mut Vec<Function>, name: Name) -> Result<(), NoMemory>
    ensures { OnOk result (out.new.items ≡ out.old.items ++ function MakesOwn name ∷ function GivesRoom name ∷ function TakesOwn name ∷ []) }
{
    push(out, Role::MakesOwn, name)?;
    push(out, Role::GivesRoom, name)?;
    push(out, Role::TakesOwn, name)
}

fn push_label(out: &mut Vec<Function>, label: &CoreLabel, carried: Carried) -> Result<(), NoMemory>
    ensures { OnOk result (out.new.items ≡ out.old.items ++ (if has_words label.now.payload then label_functions carried label.now else [])) }
{
    if !has_words(label.payload) {
        return Ok(());
    }
    match carried {
        Carried::Words => push_words(out, label.name),
        Carried::Fixed { .. } => push_words(out, label.name),
        Carried::Open { .. } => push_own(out, label.name),
    }
}

fn push_labels(
    out: &mut Vec<Function>,
    labels: &[CoreLabel],
    types: &[Carried],
) -> Result<(), NoMemory>
    ensures { OnOk result (out.new.items ≡ out.old.items ++ labels_functions labels.now types.now) }
{
    for (at, label) in labels.iter().enumerate() {
        push_label(out, label, carried_of(types, at))?;
    }
    Ok(())
}

fn push_kernel(out: &mut Vec<Function>, kernel: &CoreKernel) -> Result<(), NoMemory>
    ensures { OnOk result (out.new.items ≡ out.old.items ++ kernel_function kernel.now ∷ []) }
{
    match kernel.kind {
        KernelKind::Compute => push(out, Role::Computes, kernel.name),
        KernelKind::Choice => push(out, Role::Chooses, kernel.name),
    }
}

fn push_kernels(out: &mut Vec<Function>, kernels: &[CoreKernel]) -> Result<(), NoMemory>
    ensures { OnOk result (out.new.items ≡ out.old.items ++ map kernel_function kernels.now) }
{
    for kernel in kernels {
        push_kernel(out, kernel)?;
    }
    Ok(())
}

/// The functions of a program text, in printed order.
pub fn program_functions(
    alloc: Global,
    local: &Local,
    types: &[Carried],
) -> Result<Vec<Function>, NoMemory>
    ensures { IfOk result (λ list. list.items ≡ typed_functions (program_of local.now) types.now) }
{
    let mut list = Vec::new(alloc);
    push_labels(&mut list, &local.labels, types)?;
    push_kernels(&mut list, &local.kernels)?;
    Ok(list)
}

fn kind_of(role: Role) -> Kind
    ensures { result ≡ kind_of role }
{
    match role {
        Role::Makes | Role::MakesOwn => Kind::Make,
        Role::GivesRoom => Kind::Room,
        Role::Takes | Role::TakesOwn => Kind::Take,
        Role::Computes => Kind::Compute,
        Role::Chooses => Kind::Choice,
    }
}

/// The name that a function's body has.
pub fn body_name(function: &Function) -> KName
    ensures { result ≡ body_name function.now }
{
    KName {
        kind: kind_of(function.role),
        name: Some(function.name),
    }
}
