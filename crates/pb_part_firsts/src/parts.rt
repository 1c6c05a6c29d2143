//! Areas in parts: a statement that stops ranks in few of them is no work for the others.

ghost use Rattle.std.specs.Prelude.{◌≡◌, ◌∷◌, [], ◌++◌, ℕ, ℤ, true, not, ◌&&◌, ◌||◌, List, IfOk, OnOk, IfSome};
ghost use Rattle.std.specs.List.{All};
ghost use Rattle.pb_affine.specs.declared.lin.Lin.{Lin};
ghost use Rattle.pb_affine.specs.declared.range.NRange.{NRange};
ghost use Rattle.pb_part_areas.specs.Areas.{has, have};
ghost use Rattle.pb_part_areas.specs.Fits.{Fits};
ghost use Rattle.pb_core_language.specs.declared.protocol.CoreRole.{CoreRole};
ghost use Rattle.pb_core_language.specs.Outcomes.{Outcome};
ghost use Rattle.pb_core_flat.specs.OutcomeSets.{outcome_eq};
ghost use Rattle.pb_part_firsts.specs.Firsts.{finds, outcome_of, is_small_kind, are_small};
ghost use Rattle.pb_part_firsts.specs.Fitting.{AllFit, EntriesFit};
ghost use Rattle.pb_part_firsts.specs.Parts.{flat, IsAround, AreAround};
ghost use Rattle.pb_part_firsts.specs.Stopping.{Stops};

use crate::firsts::{Entry, Kind};
use crate::stop::{emit, is_nobody};
use pb_part_areas::{Area, NoMemory, cloned, common, is_apart, merged, near, spanned, without};
use std::alloc::Global;

/// Some areas, and one that holds of all that they hold of.
#[derive(Drop)]
pub(crate) struct Part {
    pub areas: Vec<Area>,
    pub around: Area,
}

/// How many areas a part has at most, when it is made.
const MANY: usize = 32;

/// Adds a part of one area.
fn add_part(alloc: Global, parts: &mut Vec<Part>, a: Area) -> Result<(), NoMemory>
    ensures is { OnOk result ((n : ℤ) (role : ℕ) (x : ℤ) → have (flat parts.new.items) n role x ≡ have (flat parts.old.items) n role x || has a n role x) }
    ensures around { OnOk result (AreAround parts.old.items → AreAround parts.new.items) }
    ensures fits { OnOk result ((range : NRange) (cuts : List Lin) → All (Fits range cuts) (flat parts.old.items) → Fits range cuts a → All (Fits range cuts) (flat parts.new.items)) }
{
    let mut areas = Vec::new(alloc);
    areas.push(a)?;
    parts.push(Part { areas, around: a })?;
    Ok(())
}

/// An area around the part and one more, where the part has room for it and its ends move alike.
fn widened(part: &Part, a: Area) -> Option<Area>
    ensures { IfSome result (λ m. (n : ℤ) (role : ℕ) (x : ℤ) → has part.now.around n role x || has a n role x ≡ true → has m n role x ≡ true) }
{
    if part.areas.len() < MANY {
        spanned(part.around, a)
    } else {
        None
    }
}

/// Adds the area behind the last part, or to it.
fn put_behind(alloc: Global, parts: &mut Vec<Part>, last: Part, a: Area) -> Result<(), NoMemory>
    ensures is { OnOk result ((n : ℤ) (role : ℕ) (x : ℤ) → have (flat parts.new.items) n role x ≡ have (flat parts.old.items) n role x || (have last.areas.items n role x || has a n role x)) }
    ensures around { OnOk result (AreAround parts.old.items → IsAround last → AreAround parts.new.items) }
    ensures fits { OnOk result ((range : NRange) (cuts : List Lin) → All (Fits range cuts) (flat parts.old.items) → All (Fits range cuts) last.areas.items → Fits range cuts a → All (Fits range cuts) (flat parts.new.items)) }
{
    match widened(&last, a) {
        Some(around) => {
            let mut areas = last.areas;
            areas.push(a)?;
            parts.push(Part { areas, around })?;
            Ok(())
        }
        None => {
            parts.push(last)?;
            add_part(alloc, parts, a)
        }
    }
}

/// Adds an area.
fn put(alloc: Global, parts: &mut Vec<Part>, a: Area) -> Result<(), NoMemory>
    ensures is { OnOk result ((n : ℤ) (role : ℕ) (x : ℤ) → have (flat parts.new.items) n role x ≡ have (flat parts.old.items) n role x || has a n role x) }
    ensures around { OnOk result (AreAround parts.old.items → AreAround parts.new.items) }
    ensures fits { OnOk result ((range : NRange) (cuts : List Lin) → All (Fits range cuts) (flat parts.old.items) → Fits range cuts a → All (Fits range cuts) (flat parts.new.items)) }
{
    match parts.pop() {
        None => add_part(alloc, parts, a),
        Some(last) => put_behind(alloc, parts, last, a),
    }
}

/// Adds areas.
fn put_all(alloc: Global, parts: &mut Vec<Part>, list: &[Area]) -> Result<(), NoMemory>
    ensures is { OnOk result ((n : ℤ) (role : ℕ) (x : ℤ) → have (flat parts.new.items) n role x ≡ have (flat parts.old.items) n role x || have list.now n role x) }
    ensures around { OnOk result (AreAround parts.old.items → AreAround parts.new.items) }
    ensures fits { OnOk result ((range : NRange) (cuts : List Lin) → All (Fits range cuts) (flat parts.old.items) → All (Fits range cuts) list.now → All (Fits range cuts) (flat parts.new.items)) }
{
    for a in list {
        put(alloc, parts, *a)?;
    }
    Ok(())
}

/// The areas in parts.
pub(crate) fn parts_of(alloc: Global, list: &[Area]) -> Result<Vec<Part>, NoMemory>
    ensures is { IfOk result (λ v. (n : ℤ) (role : ℕ) (x : ℤ) → have (flat v.items) n role x ≡ have list.now n role x) }
    ensures around { IfOk result (λ v. AreAround v.items) }
    ensures fits { IfOk result (λ v. (range : NRange) (cuts : List Lin) → All (Fits range cuts) list.now → All (Fits range cuts) (flat v.items)) }
{
    let mut parts = Vec::new(alloc);
    put_all(alloc, &mut parts, list)?;
    Ok(parts)
}

fn add_areas(out: &mut Vec<Area>, list: &[Area]) -> Result<(), NoMemory>
    ensures { OnOk result (out.new.items ≡ out.old.items ++ list.now) }
{
    for a in list {
        out.push(*a)?;
    }
    Ok(())
}

/// The areas of all parts.
pub(crate) fn areas_of(alloc: Global, parts: &[Part]) -> Result<Vec<Area>, NoMemory>
    ensures { IfOk result (λ v. v.items ≡ flat parts.now) }
{
    let mut out = Vec::new(alloc);
    for part in parts {
        add_areas(&mut out, &part.areas)?;
    }
    Ok(out)
}

/// The areas of a group that may have something in common with an area.
fn near_in(alloc: Global, group: &Part, to: Area) -> Result<Vec<Area>, NoMemory>
    ensures is { IfOk result (λ v. IsAround group.now → (n : ℤ) (role : ℕ) (x : ℤ) → have v.items n role x && has to n role x ≡ have group.now.areas.items n role x && has to n role x) }
    ensures fits { IfOk result (λ v. (range : NRange) (cuts : List Lin) → All (Fits range cuts) group.now.areas.items → All (Fits range cuts) v.items) }
{
    if is_apart(to, group.around) {
        return Ok(Vec::new(alloc));
    }
    near(alloc, &group.areas, to)
}

/// The areas of all groups that may have something in common with an area.
fn near_groups(alloc: Global, groups: &[Part], to: Area) -> Result<Vec<Area>, NoMemory>
    ensures is { IfOk result (λ v. AreAround groups.now → (n : ℤ) (role : ℕ) (x : ℤ) → have v.items n role x && has to n role x ≡ have (flat groups.now) n role x && has to n role x) }
    ensures fits { IfOk result (λ v. (range : NRange) (cuts : List Lin) → All (Fits range cuts) (flat groups.now) → All (Fits range cuts) v.items) }
{
    let mut out = Vec::new(alloc);
    for group in groups {
        let met = near_in(alloc, group, to)?;
        add_areas(&mut out, &met)?;
    }
    Ok(out)
}

/// Gives the ranks of a part that are of some group an outcome.
fn emit_part(
    alloc: Global,
    part: &Part,
    groups: &[Part],
    kind: Kind,
    out: &mut Vec<Entry>,
) -> Result<(), NoMemory>
    ensures out { OnOk result ((roles : List CoreRole) → IsAround part.now → AreAround groups.now → (n : ℤ) (role : ℕ) (x : ℤ) (o : Outcome) →
        finds roles out.new.items n role x o ≡ finds roles out.old.items n role x o || ((have part.now.areas.items n role x && have (flat groups.now) n role x) && outcome_eq (outcome_of roles kind n x) o)) }
    ensures small { OnOk result (is_small_kind kind ≡ true → are_small out.old.items ≡ true → are_small out.new.items ≡ true) }
    ensures fits { OnOk result ((range : NRange) (cuts : List Lin) → All (Fits range cuts) part.now.areas.items → All (Fits range cuts) (flat groups.now) → EntriesFit range cuts out.old.items → EntriesFit range cuts out.new.items) }
{
    let met = near_groups(alloc, groups, part.around)?;
    let here = common(alloc, &part.areas, &met)?;
    emit(out, &here, kind)
}

/// Gives the ranks of the parts that are of some group an outcome.
fn emit_parts(
    alloc: Global,
    parts: &[Part],
    groups: &[Part],
    kind: Kind,
    out: &mut Vec<Entry>,
) -> Result<(), NoMemory>
    ensures out { OnOk result ((roles : List CoreRole) → AreAround parts.now → AreAround groups.now → (n : ℤ) (role : ℕ) (x : ℤ) (o : Outcome) →
        finds roles out.new.items n role x o ≡ finds roles out.old.items n role x o || ((have (flat parts.now) n role x && have (flat groups.now) n role x) && outcome_eq (outcome_of roles kind n x) o)) }
    ensures small { OnOk result (is_small_kind kind ≡ true → are_small out.old.items ≡ true → are_small out.new.items ≡ true) }
    ensures fits { OnOk result ((range : NRange) (cuts : List Lin) → All (Fits range cuts) (flat parts.now) → All (Fits range cuts) (flat groups.now) → EntriesFit range cuts out.old.items → EntriesFit range cuts out.new.items) }
{
    for part in parts {
        emit_part(alloc, part, groups, kind, out)?;
    }
    Ok(())
}

/// Adds the ranks of a part that aren't of a group.
fn add_without(
    alloc: Global,
    part: Part,
    group: &Part,
    left: &mut Vec<Part>,
) -> Result<(), NoMemory>
    ensures rest { OnOk result (IsAround part → IsAround group.now → (n : ℤ) (role : ℕ) (x : ℤ) → have (flat left.new.items) n role x ≡ have (flat left.old.items) n role x || (have part.areas.items n role x && not (have group.now.areas.items n role x))) }
    ensures around { OnOk result (IsAround part → AreAround left.old.items → AreAround left.new.items) }
    ensures fits { OnOk result ((range : NRange) (cuts : List Lin) → All (Fits range cuts) (flat left.old.items) → All (Fits range cuts) part.areas.items → All (Fits range cuts) group.now.areas.items → All (Fits range cuts) (flat left.new.items)) }
{
    let met = near_in(alloc, group, part.around)?;
    if is_nobody(&met) {
        left.push(part)?;
        return Ok(());
    }
    let areas = without(alloc, part.areas, &met)?;
    put_all(alloc, left, &areas)
}

/// True only where nobody of the parts is of the area. Takes no memory.
pub(crate) fn are_past(parts: &[Part], a: Area) -> bool
    ensures { result ≡ true → AreAround parts.now → (n : ℤ) (role : ℕ) (x : ℤ) → have (flat parts.now) n role x && not (has a n role x) ≡ have (flat parts.now) n role x }
{
    for part in parts {
        if !is_apart(part.around, a) {
            return false;
        }
    }
    true
}

/// The ranks of the parts that aren't of a group. A part that is apart from the group isn't compared with each area of it.
fn without_group(alloc: Global, reach: Vec<Part>, group: &Part) -> Result<Vec<Part>, NoMemory>
    ensures rest { IfOk result (λ left. AreAround reach.items → IsAround group.now → (n : ℤ) (role : ℕ) (x : ℤ) → have (flat left.items) n role x ≡ have (flat reach.items) n role x && not (have group.now.areas.items n role x)) }
    ensures around { IfOk result (λ left. AreAround reach.items → AreAround left.items) }
    ensures fits { IfOk result (λ left. (range : NRange) (cuts : List Lin) → All (Fits range cuts) (flat reach.items) → All (Fits range cuts) group.now.areas.items → All (Fits range cuts) (flat left.items)) }
{
    let mut left = Vec::new(alloc);
    for part in reach {
        add_without(alloc, part, group, &mut left)?;
    }
    Ok(left)
}

/// The same, and the parts as they are where all are apart from the group.
fn without_met(alloc: Global, reach: Vec<Part>, group: &Part) -> Result<Vec<Part>, NoMemory>
    ensures rest { IfOk result (λ left. AreAround reach.items → IsAround group.now → (n : ℤ) (role : ℕ) (x : ℤ) → have (flat left.items) n role x ≡ have (flat reach.items) n role x && not (have group.now.areas.items n role x)) }
    ensures around { IfOk result (λ left. AreAround reach.items → AreAround left.items) }
    ensures fits { IfOk result (λ left. (range : NRange) (cuts : List Lin) → All (Fits range cuts) (flat reach.items) → All (Fits range cuts) group.now.areas.items → All (Fits range cuts) (flat left.items)) }
{
    if are_past(&reach, group.around) {
        return Ok(reach);
    }
    let left = without_group(alloc, reach, group)?;
    Ok(left)
}

/// The ranks of the parts that are of no group.
fn without_groups(alloc: Global, reach: Vec<Part>, groups: &[Part]) -> Result<Vec<Part>, NoMemory>
    ensures rest { IfOk result (λ left. AreAround reach.items → AreAround groups.now → (n : ℤ) (role : ℕ) (x : ℤ) → have (flat left.items) n role x ≡ have (flat reach.items) n role x && not (have (flat groups.now) n role x)) }
    ensures around { IfOk result (λ left. AreAround reach.items → AreAround left.items) }
    ensures fits { IfOk result (λ left. (range : NRange) (cuts : List Lin) → All (Fits range cuts) (flat reach.items) → All (Fits range cuts) (flat groups.now) → All (Fits range cuts) (flat left.items)) }
{
    let mut left = reach;
    for group in groups {
        left = without_met(alloc, left, group)?;
    }
    Ok(left)
}

/// Gives the ranks at some areas an outcome, and leaves the others. What is given comes from the parts as they were, before
/// the areas that are taken out of them cut them into smaller ones.
pub(crate) fn stop_parts(
    alloc: Global,
    reach: Vec<Part>,
    at: &[Area],
    kind: Kind,
    out: &mut Vec<Entry>,
) -> Result<Vec<Part>, NoMemory>
    ensures gives { IfOk result (λ left. (roles : List CoreRole) → AreAround reach.items → Stops roles (flat reach.items) at.now (flat left.items) out.old.items out.new.items kind) }
    ensures around { IfOk result (λ left. AreAround reach.items → AreAround left.items) }
    ensures small { IfOk result (λ left. is_small_kind kind ≡ true → are_small out.old.items ≡ true → are_small out.new.items ≡ true) }
    ensures fits { IfOk result (λ left. (range : NRange) (cuts : List Lin) → All (Fits range cuts) (flat reach.items) → All (Fits range cuts) at.now → EntriesFit range cuts out.old.items → AllFit range cuts (flat left.items) out.new.items) }
{
    let groups = parts_of(alloc, at)?;
    emit_parts(alloc, &reach, &groups, kind, out)?;
    without_groups(alloc, reach, &groups)
}

/// The same parts once more.
pub(crate) fn copied(alloc: Global, parts: &[Part]) -> Result<Vec<Part>, NoMemory>
    ensures is { IfOk result (λ v. (n : ℤ) (role : ℕ) (x : ℤ) → have (flat v.items) n role x ≡ have (flat parts.now) n role x) }
    ensures around { IfOk result (λ v. AreAround parts.now → AreAround v.items) }
    ensures fits { IfOk result (λ v. (range : NRange) (cuts : List Lin) → All (Fits range cuts) (flat parts.now) → All (Fits range cuts) (flat v.items)) }
{
    let mut copy = Vec::new(alloc);
    for part in parts {
        let areas = cloned(alloc, &part.areas)?;
        let around = part.around;
        copy.push(Part { areas, around })?;
    }
    Ok(copy)
}

/// The ranks of both, as far as some are of both once.
pub(crate) fn together(
    alloc: Global,
    passed: Vec<Part>,
    left: Vec<Part>,
) -> Result<Vec<Part>, NoMemory>
    ensures is { IfOk result (λ v. (n : ℤ) (role : ℕ) (x : ℤ) → have (flat v.items) n role x ≡ have (flat passed.items) n role x || have (flat left.items) n role x) }
    ensures around { IfOk result (λ v. AreAround passed.items → AreAround left.items → AreAround v.items) }
    ensures fits { IfOk result (λ v. (range : NRange) (cuts : List Lin) → All (Fits range cuts) (flat passed.items) → All (Fits range cuts) (flat left.items) → All (Fits range cuts) (flat v.items)) }
{
    if left.is_empty() {
        return Ok(passed);
    }
    if passed.is_empty() {
        return Ok(left);
    }
    let first = areas_of(alloc, &passed)?;
    let second = areas_of(alloc, &left)?;
    let areas = merged(alloc, first, &second)?;
    let parts = parts_of(alloc, &areas)?;
    Ok(parts)
}
