ghost use Rattle.std.specs.Prelude.{◌≡◌, ◌≤◌, ◌<◌, ◌+◌, ℕ, ℤ, pos, Bool, length, List, nat_eq, ◌&&◌, ◌||◌, true, false, IfOk, OnOk};
ghost use Rattle.std.specs.List.{All};
ghost use Rattle.pb_affine.specs.declared.lin.Lin.{Lin};
ghost use Rattle.pb_affine.specs.declared.range.NRange.{NRange};
ghost use Rattle.pb_part_areas.specs.Areas.{has, have};
ghost use Rattle.pb_part_areas.specs.Fits.{Fits};
ghost use Rattle.pb_choice_entries.specs.Clashes.{is_label};
ghost use Rattle.pb_core_language.specs.Sound.{Rows, are_branches};
ghost use Rattle.pb_core_language.specs.Tree.{BranchTrees};
ghost use Rattle.pb_core_language.specs.Verdict.{IsIn};
ghost use Rattle.pb_core_flat.specs.Seated.{is_rank};
ghost use Rattle.pb_part_firsts.specs.Fitting.{EntriesFit};
ghost use Rattle.pb_local.specs.Tree.{Program};
ghost use Rattle.pb_local.specs.WellMade.{IsRange, IsTest, Ascend};
ghost use Rattle.pb_project_piece.specs.Standing.{Stands, IsOpen};
ghost use Rattle.pb_shape.specs.Places.{Scope, Here};
ghost use Rattle.pb_shape.specs.Loops.{Around};
ghost use Rattle.pb_shape.specs.Choices.{Tests, is_told};
ghost use Rattle.pb_project_choice.specs.Found.{IsFoundIn, tells};
ghost use Rattle.pb_project_choice.specs.Tested.{HaveHolders, IsTested, IsPut, LabelsWithin, AscendTo};

use crate::entries::Branch;
use crate::guards::guards_in;
use pb_local::Test;
use pb_part_areas::{Area, gather};
use pb_part_firsts::{Entry, Kind};
use pb_project_piece::{Setting, is_somebody};
use pb_text::NoMemory;
use std::alloc::Global;

fn is_of(kind: Kind, wanted: u32) -> bool
    ensures { result ≡ is_label wanted kind }
{
    match kind {
        Kind::Receive { label, .. } => wanted == label,
        Kind::Other => false,
        Kind::Again => false,
    }
}

/// True where it is a receive of a label up to `middle`.
fn is_up_to(kind: Kind, middle: u32) -> bool
    ensures up { result ≡ true → (l : ℕ) → is_label l kind ≡ true → l ≤ middle }
    ensures above { result ≡ false → (l : ℕ) → is_label l kind ≡ true → middle < l }
{
    match kind {
        Kind::Receive { label, .. } => label <= middle,
        Kind::Other => false,
        Kind::Again => false,
    }
}

/// Adds the area of an entry with this label.
fn add_area(alloc: Global, areas: &mut Vec<Area>, entry: Entry, label: u32) -> Result<(), NoMemory>
    ensures is { OnOk result ((n : ℤ) (role : ℕ) (x : ℤ) → have areas.new.items n role x ≡ have areas.old.items n role x || (is_label label entry.kind && has entry.area n role x)) }
    ensures fits { OnOk result ((range : NRange) (cuts : List Lin) → All (Fits range cuts) areas.old.items → Fits range cuts entry.area → All (Fits range cuts) areas.new.items) }
{
    if is_of(entry.kind, label) {
        gather(alloc, areas, entry.area)?;
    }
    Ok(())
}

/// The areas of the ranks that may receive this label first.
fn areas_of(alloc: Global, entries: &[Entry], label: u32) -> Result<Vec<Area>, NoMemory>
    ensures is { IfOk result (λ v. (n : ℤ) (role : ℕ) (x : ℤ) → have v.items n role x ≡ tells label entries.now n role x) }
    ensures fits { IfOk result (λ v. (range : NRange) (cuts : List Lin) → EntriesFit range cuts entries.now → All (Fits range cuts) v.items) }
{
    let mut areas = Vec::new(alloc);
    for entry in entries {
        add_area(alloc, &mut areas, *entry, label)?;
    }
    Ok(areas)
}

/// Adds the test of a branch and a label, unless it would hold of nobody.
fn put_test(
    alloc: Global,
    setting: &Setting,
    entries: &[Entry],
    branch: u32,
    label: u32,
    tests: &mut Vec<Test>,
) -> Result<(), NoMemory>
    ensures is { OnOk result (IsTested setting.now.range setting.now.roles setting.now.whole.now branch (λ l. nat_eq l label) entries.now tests.old.items tests.new.items) }
    ensures ascend { OnOk result (AscendTo branch label tests.old.items → AscendTo branch (label + 1) tests.new.items) }
{
    let areas = areas_of(alloc, entries, label)?;
    let there = is_somebody(alloc, setting, &areas)?;
    if there {
        let guards = guards_in(alloc, &areas, setting.range, setting.roles)?;
        tests.push(Test {
            branch,
            label,
            guards,
        })?;
    }
    Ok(())
}

/// Entries whose labels are up to some middle, and those whose labels are above it.
#[derive(Drop)]
struct Halves {
    low: Vec<Entry>,
    high: Vec<Entry>,
}

/// Adds an entry to the half of its label.
fn put_in_half(halves: &mut Halves, entry: Entry, middle: u32) -> Result<(), NoMemory>
    ensures { OnOk result (IsPut middle entry halves.old.low.items halves.old.high.items halves.new.low.items halves.new.high.items) }
{
    if is_up_to(entry.kind, middle) {
        halves.low.push(entry)?;
        return Ok(());
    }
    halves.high.push(entry)?;
    Ok(())
}

/// The entries in halves by their labels.
fn halves_of(alloc: Global, entries: Vec<Entry>, middle: u32) -> Result<Halves, NoMemory>
    ensures is { IfOk result (λ h. (l : ℕ) (n : ℤ) (role : ℕ) (x : ℤ) → tells l h.low.items n role x || tells l h.high.items n role x ≡ tells l entries.items n role x) }
    ensures within { IfOk result (λ h. (least most : ℕ) → LabelsWithin least most entries.items → LabelsWithin least middle h.low.items × LabelsWithin (middle + 1) most h.high.items) }
    ensures fits { IfOk result (λ h. (range : NRange) (cuts : List Lin) → EntriesFit range cuts entries.items → EntriesFit range cuts h.low.items × EntriesFit range cuts h.high.items) }
{
    let mut halves = Halves {
        low: Vec::new(alloc),
        high: Vec::new(alloc),
    };
    for entry in entries {
        put_in_half(&mut halves, entry, middle)?;
    }
    Ok(halves)
}

/// The number in the middle, not the greatest.
fn middle_of(least: u32, most: u32) -> u32
    requires { least < most }
    ensures low { least ≤ result }
    ensures high { result < most }
{
    least + (most - least) / 2
}

/// Adds the tests of a branch by ascending labels, where all labels are from `least` to `most`.
fn put_tests_within(
    alloc: Global,
    setting: &Setting,
    entries: Vec<Entry>,
    branch: u32,
    least: u32,
    most: u32,
    tests: &mut Vec<Test>,
) -> Result<(), NoMemory>
    ensures is { OnOk result (LabelsWithin least most entries.items → IsTested setting.now.range setting.now.roles setting.now.whole.now branch (λ l. true) entries.items tests.old.items tests.new.items) }
    ensures ascend { OnOk result (least ≤ most → AscendTo branch least tests.old.items → AscendTo branch (most + 1) tests.new.items) }
{
    if entries.is_empty() {
        return Ok(());
    }
    if most <= least {
        return put_test(alloc, setting, &entries, branch, least, tests);
    }
    let middle = middle_of(least, most);
    let halves = halves_of(alloc, entries, middle)?;
    put_tests_within(alloc, setting, halves.low, branch, least, middle, tests)?;
    put_tests_within(alloc, setting, halves.high, branch, middle + 1, most, tests)
}

fn greater(best: u32, kind: Kind) -> u32
    ensures best { best ≤ result }
    ensures label { (l : ℕ) → is_label l kind ≡ true → l ≤ result }
{
    match kind {
        Kind::Receive { label, .. } => best.max(label),
        Kind::Other => best,
        Kind::Again => best,
    }
}

/// The greatest label of a receive, or 0.
fn most_label(entries: &[Entry]) -> u32
    ensures { LabelsWithin 0 result entries.now }
{
    let mut best = 0;
    for entry in entries {
        best = greater(best, entry.kind);
    }
    best
}

/// The same entries once more.
fn copied(alloc: Global, entries: &[Entry]) -> Result<Vec<Entry>, NoMemory>
    ensures { IfOk result (λ v. v.items ≡ entries.now) }
{
    let mut copy = Vec::new(alloc);
    for entry in entries {
        copy.push(*entry)?;
    }
    Ok(copy)
}

/// Adds the tests of a branch, by ascending labels.
fn put_tests(
    alloc: Global,
    setting: &Setting,
    entries: &[Entry],
    branch: u32,
    tests: &mut Vec<Test>,
) -> Result<(), NoMemory>
    ensures is { OnOk result (IsTested setting.now.range setting.now.roles setting.now.whole.now branch (λ l. true) entries.now tests.old.items tests.new.items) }
    ensures ascend { OnOk result (AscendTo branch 0 tests.old.items → AscendTo (branch + 1) 0 tests.new.items) }
{
    let most = most_label(entries);
    let all = copied(alloc, entries)?;
    put_tests_within(alloc, setting, all, branch, 0, most, tests)
}

fn next(number: u32) -> u32
    ensures { number ≤ 64 → result ≡ number + 1 }
{
    if number < u32::MAX {
        number + 1
    } else {
        number
    }
}

/// The tests of a choice, by what the ranks find first in each branch. Each holds of somebody who is told.
pub fn tests_of(
    alloc: Global,
    setting: &Setting,
    branches: &[Branch],
) -> Result<Vec<Test>, NoMemory>
    ensures is { IfOk result (λ v. (sc : Scope) (h : Here) (a : Around) (bs : BranchTrees) → Stands setting.now.range setting.now.roles setting.now.whole.now sc → IsOpen h → IsRange setting.now.range →
        length branches.now ≤ 64 → IsFoundIn sc a bs branches.now → Tests sc h a bs v.items) }
    ensures each { IfOk result (λ v. (p : Program) (sc : Scope) (a : Around) (bs : BranchTrees) (rows : Rows) → Stands setting.now.range setting.now.roles setting.now.whole.now sc → IsRange setting.now.range →
        length branches.now ≤ 64 → IsFoundIn sc a bs branches.now → are_branches rows a.opens bs ≡ true → rows.labels ≡ length p.labels → length p.roles ≡ setting.now.roles → All (IsTest p (length branches.now)) v.items) }
    ensures ascend { IfOk result (λ v. length branches.now ≤ 64 → Ascend v.items) }
    ensures held { IfOk result (λ v. (sc : Scope) (a : Around) (bs : BranchTrees) (such : ℤ → ℕ → ℤ → Bool) → Stands setting.now.range setting.now.roles setting.now.whole.now sc → IsRange setting.now.range →
        length branches.now ≤ 64 → IsFoundIn sc a bs branches.now →
        ((k l : ℕ) (n : ℤ) (role : ℕ) (x : ℤ) → IsIn sc.range n → is_rank sc.roles n role x ≡ true → is_told sc a bs k l n (pos 0) role x ≡ true → such n role x ≡ true) → HaveHolders setting.now.range sc.roles such v.items) }
{
    let mut tests = Vec::new(alloc);
    let mut number: u32 = 0;
    for branch in branches {
        put_tests(alloc, setting, &branch.entries, number, &mut tests)?;
        number = next(number);
    }
    Ok(tests)
}
