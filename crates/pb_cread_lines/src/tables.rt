use crate::NoMemory;
use crate::payloads::Payloads;
use pb_ctree::{CoreKernel, CoreLabel, Local, Role};
use pb_text::Names;
use std::alloc::Global;

/// The tables of a text's head, to look names and payloads up.
#[derive(Drop)]
pub struct Tables {
    pub(crate) roles: Names,
    pub(crate) labels: Names,
    pub(crate) kernels: Names,
    pub(crate) payloads: Payloads,
}

impl Tables {
    ghost use Rattle.std.specs.Prelude.{IfOk};
    ghost use Rattle.pb_local.specs.Tree.{program_of};
    ghost use Rattle.pb_cread_lines.specs.Head.{HasHead, AreTables};

    /// The tables of a program. It takes time and memory linear in them.
    pub fn of(alloc: Global, local: &Local) -> Result<Tables, NoMemory>
        requires { HasHead (program_of local.now) }
        ensures { IfOk result (λ tables. AreTables tables (program_of local.now)) }
    {
        Ok(Tables {
            roles: roles_of(alloc, &local.roles)?,
            labels: labels_of(alloc, &local.labels)?,
            kernels: kernels_of(alloc, &local.kernels)?,
            payloads: payloads_of(alloc, &local.labels)?,
        })
    }
}

ghost use Rattle.std.specs.Prelude.{◌≡◌, ◌≤◌, IfOk, length, map};
ghost use Rattle.pb_local.specs.Names.{AreDistinct};
ghost use Rattle.pb_cread_lines.specs.Head.{FindsFirst};

#[tactic(auto, using(crate::proofs::Interning::few_rows))]
fn roles_of(alloc: Global, roles: &[Role]) -> Result<Names, NoMemory>
    requires distinct { AreDistinct (map (λ r. r.name) roles.now) }
    requires few { length roles.now ≤ 4000 }
    ensures { IfOk result (λ names. names ≡ map (λ r. r.name) roles.now) }
{
    let mut names = Names::new(alloc);
    for role in roles {
        names.intern(role.name)?;
    }
    Ok(names)
}

#[tactic(auto, using(crate::proofs::Interning::few_rows))]
fn labels_of(alloc: Global, labels: &[CoreLabel]) -> Result<Names, NoMemory>
    requires distinct { AreDistinct (map (λ l. l.name) labels.now) }
    requires few { length labels.now ≤ 4000 }
    ensures { IfOk result (λ names. names ≡ map (λ l. l.name) labels.now) }
{
    let mut names = Names::new(alloc);
    for label in labels {
        names.intern(label.name)?;
    }
    Ok(names)
}

#[tactic(auto, using(crate::proofs::Interning::few_rows))]
fn kernels_of(alloc: Global, kernels: &[CoreKernel]) -> Result<Names, NoMemory>
    requires distinct { AreDistinct (map (λ k. k.name) kernels.now) }
    requires few { length kernels.now ≤ 4000 }
    ensures { IfOk result (λ names. names ≡ map (λ k. k.name) kernels.now) }
{
    let mut names = Names::new(alloc);
    for kernel in kernels {
        names.intern(kernel.name)?;
    }
    Ok(names)
}

fn payloads_of(alloc: Global, labels: &[CoreLabel]) -> Result<Payloads, NoMemory>
    requires { length labels.now ≤ 4000 }
    ensures { IfOk result (λ payloads. FindsFirst payloads labels.now (length labels.now)) }
{
    let mut payloads = Payloads::new(alloc);
    for at in 0..labels.len() {
        payloads.put(labels[at].payload, at as u32)?;
    }
    Ok(payloads)
}
