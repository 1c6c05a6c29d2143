//! What names and ranks of a log are looked up in.

ghost use Rattle.std.specs.Prelude.{◌≡◌, ◌≤◌, cond, [], Some, None, IfOk, length, map};
ghost use Rattle.pb_local.specs.Names.{AreDistinct};
ghost use Rattle.pb_judge_log.specs.Reading.{find_in, is_kind};

use crate::numbers::number;
use pb_core_language::{Core, CoreKernel, CoreLabel, KernelKind};
use pb_syntax::Payload;
use pb_text::{Name, Names, NoMemory};
use std::alloc::Global;

/// The tables of a core, and the number of its ranks.
#[derive(Drop)]
pub struct Tables<'a> {
    pub label_names: Names,
    pub kernel_names: Names,
    pub labels: &'a [CoreLabel],
    pub kernels: &'a [CoreKernel],
    pub total: u32,
}

impl<'a> Tables<'a> {
    ghost use Rattle.std.specs.Prelude.{◌≡◌, IfOk};
    ghost use Rattle.pb_core_language.specs.Plain.{plain};
    ghost use Rattle.pb_local.specs.WellMade.{AreLabels, AreKernels};
    ghost use Rattle.pb_local.specs.Tables.{label_at};
    ghost use Rattle.pb_judge_log.specs.Entries.{tables_of};
    ghost use Rattle.pb_judge_log.specs.Reading.{whole_number, label_in, kernel_in};
    ghost use Rattle.pb_judge_log.specs.Kept.{AreKept, rows_in};

    /// The tables of a core for so many ranks. It takes time and memory linear in them.
    pub fn of(alloc: Global, core: &'a Core, total: u32) -> Result<Tables<'a>, NoMemory>
        requires labels { AreLabels core.now.labels.items }
        requires kernels { AreKernels core.now.kernels.items }
        ensures kept { IfOk result (λ t. AreKept t) }
        ensures rows { IfOk result (λ t. rows_in t ≡ tables_of (plain core.now)) }
        ensures total { IfOk result (λ t. t.total ≡ total) }
    {
        let label_names = names_of_labels(alloc, &core.labels)?;
        let kernel_names = names_of_kernels(alloc, &core.kernels)?;
        Ok(Tables {
            label_names,
            kernel_names,
            labels: &core.labels,
            kernels: &core.kernels,
            total,
        })
    }

    /// The rank that a field is.
    pub fn rank(&self, field: &[u8]) -> Option<u32>
        ensures { result ≡ whole_number self.now.total field.now }
    {
        number(u64::from(self.total), field)
    }

    /// The number of the label that a field names.
    pub fn label(&self, field: &[u8]) -> Option<u32>
        requires { AreKept self.now }
        ensures { result ≡ label_in (rows_in self.now) self.now.total field.now }
    {
        find_in(&self.label_names, field)
    }

    /// The number of the kernel of this kind that a field names.
    pub fn kernel(&self, kind: KernelKind, field: &[u8]) -> Option<u32>
        requires { AreKept self.now }
        ensures { result ≡ kernel_in (rows_in self.now) self.now.total kind field.now }
    {
        let found = find_in(&self.kernel_names, field)?;
        of_kind(self.kernels, found, kind)
    }

    /// What a label carries.
    pub fn payload(&self, label: u32) -> Payload
        ensures { result ≡ (label_at (rows_in self.now) label).payload }
    {
        let at = label as usize;
        if at < self.labels.len() {
            self.labels[at].payload
        } else {
            Payload::Unit
        }
    }
}

ghost use Rattle.pb_local.specs.Tables.{kernel_at};
ghost use Rattle.pb_judge_log.specs.Entries.{rows_of};

/// The number of a kernel, where it is of this kind.
fn of_kind(kernels: &[CoreKernel], number: u32, kind: KernelKind) -> Option<u32>
    ensures { result ≡ cond (is_kind (kernel_at (rows_of [] kernels.now) number).kind kind) (Some number) None }
{
    let at = number as usize;
    if at < kernels.len() {
        if is_kind(kernels[at].kind, kind) {
            Some(number)
        } else {
            None
        }
    } else if is_kind(KernelKind::Compute, kind) {
        Some(number)
    } else {
        None
    }
}

fn is_kind(one: KernelKind, other: KernelKind) -> bool
    ensures { result ≡ is_kind one other }
{
    match (one, other) {
        (KernelKind::Compute, KernelKind::Compute) => true,
        (KernelKind::Compute, KernelKind::Choice) => false,
        (KernelKind::Choice, KernelKind::Compute) => false,
        (KernelKind::Choice, KernelKind::Choice) => true,
    }
}

#[tactic(auto, using(crate::proofs::Finding::none_found))]
fn find_in(names: &Names, word: &[u8]) -> Option<u32>
    ensures { result ≡ find_in names.now word.now }
{
    match Name::of(word) {
        Some(name) => names.find(&name),
        None => None,
    }
}

#[tactic(auto, using(crate::proofs::Interning::few_rows))]
fn names_of_labels(alloc: Global, labels: &[CoreLabel]) -> Result<Names, NoMemory>
    requires distinct { AreDistinct (map (λ l. l.name) labels.now) }
    requires few { length labels.now ≤ 4000 }
    ensures { IfOk result (λ names. names ≡ map (λ l. l.name) labels.now) }
{
    let mut names = Names::new(alloc);
    for label in labels {
        names.intern(label.name)?;
    }
    Ok(names)
}

#[tactic(auto, using(crate::proofs::Interning::few_rows))]
fn names_of_kernels(alloc: Global, kernels: &[CoreKernel]) -> Result<Names, NoMemory>
    requires distinct { AreDistinct (map (λ k. k.name) kernels.now) }
    requires few { length kernels.now ≤ 4000 }
    ensures { IfOk result (λ names. names ≡ map (λ k. k.name) kernels.now) }
{
    let mut names = Names::new(alloc);
    for kernel in kernels {
        names.intern(kernel.name)?;
    }
    Ok(names)
}
