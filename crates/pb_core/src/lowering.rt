ghost use Rattle.std.specs.Prelude.{◌≡◌, ◌<◌, ◌-◌, ◌^◌, None, length, map, OnOk, IfOk, IfErr};
ghost use Rattle.pb_syntax.specs.Plain.{plain_file};
ghost use Rattle.pb_core_language.specs.FileRules.{broken, broken_1, broken_2, broken_3, broken_4, broken_5};
ghost use Rattle.pb_core_language.specs.Plain.{plain};
ghost use Rattle.pb_core_language.specs.Meaning.{meaning, label_names, labels_of, kernel_names, kernels_of};
ghost use Rattle.pb_core_file_rules.specs.Lowering.{IsCountable, IsFault, Breaks, Finds, broken_from_3, first};

use crate::assemble::core_of;
use pb_core_file_rules::{
    Around, KernelTable, LabelTable, add_kernels_in, add_labels_in, ending_in, first_astray_in,
    first_unbounded, first_wrong_of, kernel_table, label_table, names_met,
};
use pb_core_language::{Core, LowerFault};
use pb_syntax::{FileTree, NoMemory};
use pb_text::Place;
use std::alloc::Global;

fn refuse(rule: u8, found: Option<Place>) -> Result<(), LowerFault>
    ensures none { OnOk result (found ≡ None) }
    ensures some { IfErr result (λ e. Finds rule found e) }
{
    match found {
        None => Ok(()),
        Some(place) => Err(LowerFault::Broken { rule, place }),
    }
}

// The first name that isn't declared once, used in scope and of one kind.
#[tactic(auto, using(crate::proofs::Faults::few_met, crate::proofs::Faults::right_found))]
fn first_misnamed(alloc: Global, file: &FileTree) -> Result<Option<Place>, NoMemory>
    requires { IsCountable (plain_file file.now) }
    ensures { IfOk result (λ found. found ≡ first (broken_1 (plain_file file.now))) }
{
    let list = names_met(alloc, file)?;
    let found = first_wrong_of(alloc, &list)?;
    Ok(found)
}

fn check_names(alloc: Global, file: &FileTree) -> Result<(), LowerFault>
    requires { IsCountable (plain_file file.now) }
    ensures keeps { OnOk result (first (broken_1 (plain_file file.now)) ≡ None) }
    ensures breaks { IfErr result (λ e. Breaks 1 (broken_1 (plain_file file.now)) e) }
{
    let found = first_misnamed(alloc, file)?;
    refuse(1, found)
}

// The labels, each with one payload that is as it must be.
#[tactic(auto, using(crate::proofs::Faults::few_labels))]
fn labels_of_file(alloc: Global, file: &FileTree) -> Result<LabelTable, LowerFault>
    requires { IsCountable (plain_file file.now) }
    ensures names { IfOk result (λ t. t.table.names ≡ label_names t.rows.items) }
    ensures rows { IfOk result (λ t. t.rows.items ≡ labels_of (plain_file file.now)) }
    ensures keeps { OnOk result (first (broken_2 (plain_file file.now)) ≡ None) }
    ensures breaks { IfErr result (λ e. Breaks 2 (broken_2 (plain_file file.now)) e) }
{
    let mut list = Vec::new(alloc);
    add_labels_in(&file.body, &mut list)?;
    label_table(alloc, &list)
}

#[tactic(auto, using(crate::proofs::Faults::few_kernels))]
fn kernels_of_file(alloc: Global, file: &FileTree) -> Result<KernelTable, NoMemory>
    requires { IsCountable (plain_file file.now) }
    ensures names { IfOk result (λ t. t.table.names ≡ kernel_names t.rows.items) }
    ensures rows { IfOk result (λ t. t.rows.items ≡ kernels_of (plain_file file.now)) }
{
    let mut list = Vec::new(alloc);
    add_kernels_in(&file.body, &mut list)?;
    kernel_table(alloc, &list)
}

fn check_continues(file: &FileTree) -> Result<(), LowerFault>
    ensures keeps { OnOk result (first (broken_3 (plain_file file.now)) ≡ None) }
    ensures breaks { IfErr result (λ e. Breaks 3 (broken_3 (plain_file file.now)) e) }
{
    refuse(3, first_astray_in(&file.body, &Around::Nothing))
}

fn check_ends(file: &FileTree) -> Result<(), LowerFault>
    ensures keeps { OnOk result (first (broken_4 (plain_file file.now)) ≡ None) }
    ensures breaks { IfErr result (λ e. Breaks 4 (broken_4 (plain_file file.now)) e) }
{
    refuse(4, ending_in(&file.body).endless)
}

fn check_range(file: &FileTree) -> Result<(), LowerFault>
    requires { IsCountable (plain_file file.now) }
    ensures keeps { OnOk result (first (broken_5 (plain_file file.now)) ≡ None) }
    ensures breaks { IfErr result (λ e. Breaks 5 (broken_5 (plain_file file.now)) e) }
{
    refuse(5, first_unbounded(file))
}

// The rules 3 to 5.
fn check_shape(file: &FileTree) -> Result<(), LowerFault>
    requires { IsCountable (plain_file file.now) }
    ensures keeps { OnOk result (broken_from_3 (plain_file file.now) ≡ None) }
    ensures broken { IfErr result (λ e. IsFault (broken_from_3 (plain_file file.now)) e) }
{
    if let Err(fault) = check_continues(file) {
        return Err(fault);
    }
    if let Err(fault) = check_ends(file) {
        return Err(fault);
    }
    check_range(file)
}

// The labels of a file that keeps the rules.
fn checked(alloc: Global, file: &FileTree) -> Result<LabelTable, LowerFault>
    requires { IsCountable (plain_file file.now) }
    ensures names { IfOk result (λ t. t.table.names ≡ label_names t.rows.items) }
    ensures rows { IfOk result (λ t. t.rows.items ≡ labels_of (plain_file file.now)) }
    ensures keeps { OnOk result (broken (plain_file file.now) ≡ None) }
    ensures broken { IfErr result (λ e. IsFault (broken (plain_file file.now)) e) }
{
    if let Err(fault) = check_names(alloc, file) {
        return Err(fault);
    }
    match labels_of_file(alloc, file) {
        Err(fault) => Err(fault),
        Ok(labels) => match check_shape(file) {
            Err(fault) => Err(fault),
            Ok(()) => Ok(labels),
        },
    }
}

/// The core that a file means.
///
/// It is `Broken` exactly where the file breaks one of the rules 1 to 5: then with the least rule that is broken and the first
/// place at which it is.
pub fn lower(alloc: Global, file: &FileTree) -> Result<Core, LowerFault>
    requires { IsCountable (plain_file file.now) }
    ensures keeps { OnOk result (broken (plain_file file.now) ≡ None) }
    ensures means { IfOk result (λ core. plain core ≡ meaning (plain_file file.now)) }
    ensures breaks { IfErr result (λ e. IsFault (broken (plain_file file.now)) e) }
{
    let labels = checked(alloc, file)?;
    let kernels = kernels_of_file(alloc, file)?;
    let core = core_of(alloc, file, labels, kernels)?;
    Ok(core)
}
