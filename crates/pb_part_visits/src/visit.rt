ghost use Rattle.std.specs.Prelude.{◌≡◌, ◌≤◌, ◌++◌, [], ◌∷◌, ℕ, ℤ, Bool, IfOk, OnOk, List, Some, map, true, int_le, length, if◌then◌else◌};
ghost use Rattle.pb_affine.specs.declared.lin.Lin.{Lin};
ghost use Rattle.std.specs.List.{list_any, prefix_len};
ghost use Rattle.pb_core_language.specs.Cuts.{end_cuts};
ghost use Rattle.pb_core_language.specs.Plain.{plain_block, plain_stmt};
ghost use Rattle.pb_core_language.specs.Tree.{message};
ghost use Rattle.pb_core_language.specs.declared.protocol.CoreRole.{CoreRole};
ghost use Rattle.pb_core_language.specs.declared.tree.Bounds.{Bounds};
ghost use Rattle.pb_core_flat.specs.Meets.{is_moving};
ghost use Rattle.pb_core_flat.specs.Stops as S;
ghost use Rattle.pb_core_flat.specs.Stops.{moving, visits, visits_of, IsByFalling, put_behind, first_of, at_value, has_fixed};
ghost use Rattle.pb_part_takers.specs.Pieces.{AreAmong};
ghost use Rattle.pb_part_visits.specs.Visits.{visit_of, finding_of, is_narrow, are_narrow, VisitsAmong, MoversAmong};

use pb_affine::Base;
use pb_core_language::{CoreBlock, CoreEnd, CoreKind, CoreStmt};
use pb_text::NoMemory;
use std::alloc::Global;

/// What the rank at an end finds there: to send or to compute, or a message of a sender.
#[derive(Clone, Copy)]
pub enum Finding {
    Acts,
    Gets { source: CoreEnd, label: u32 },
}

/// An end of an item of a foreach.
#[derive(Clone, Copy)]
pub struct Visit {
    pub end: CoreEnd,
    pub finding: Finding,
}

/// True where the end moves with the variable. Takes no memory.
pub fn is_moving(end: CoreEnd) -> bool
    ensures { result ≡ is_moving end }
{
    match end.at.base {
        Base::Fixed => false,
        Base::Param => false,
        Base::Var => true,
    }
}

/// The ends of the items, in order, the sender before the receiver.
pub fn visits_in(items: &CoreBlock, alloc: Global) -> Result<Vec<Visit>, NoMemory>
    ensures { IfOk result (λ v. map visit_of v.items ≡ visits (plain_block items.now).block) }
{
    let mut list = Vec::new(alloc);
    for stmt in &items.list {
        add_visits(stmt, &mut list)?;
    }
    Ok(list)
}

fn add_visits(stmt: &CoreStmt, list: &mut Vec<Visit>) -> Result<(), NoMemory>
    ensures { OnOk result (map visit_of list.new.items ≡ map visit_of list.old.items ++ visits_of (plain_stmt stmt.now).stmt) }
{
    match &stmt.what {
        CoreKind::Message { label, from, to } => add_message(*label, *from, *to, list),
        CoreKind::Run { at, .. } => add_visit(*at, Finding::Acts, list),
        CoreKind::Foreach { .. }
        | CoreKind::Loop { .. }
        | CoreKind::Again { .. }
        | CoreKind::Choice { .. }
        | CoreKind::Barrier
        | CoreKind::Broadcast { .. }
        | CoreKind::Reduce { .. }
        | CoreKind::Allreduce { .. } => Ok(()),
    }
}

#[tactic(auto, using(crate::proofs::VisitLists::pushed))]
fn add_visit(end: CoreEnd, finding: Finding, list: &mut Vec<Visit>) -> Result<(), NoMemory>
    ensures { OnOk result (map visit_of list.new.items ≡ map visit_of list.old.items ++ record { end = end; finding = finding_of finding } ∷ []) }
{
    list.push(Visit { end, finding })?;
    Ok(())
}

#[tactic(auto, using(crate::proofs::VisitLists::two_pushed))]
fn add_message(
    label: u32,
    from: CoreEnd,
    to: CoreEnd,
    list: &mut Vec<Visit>,
) -> Result<(), NoMemory>
    ensures { OnOk result (map visit_of list.new.items ≡ map visit_of list.old.items ++ visits_of (message label from to)) }
{
    add_visit(from, Finding::Acts, list)?;
    let finding = Finding::Gets {
        source: from,
        label,
    };
    add_visit(to, finding, list)
}

/// How many of the ends have the same offset as the end, or a greater one, before the first that hasn't.
fn place_of(list: &[Visit], visit: Visit) -> usize
    ensures is { result ≡ prefix_len (λ other. int_le visit.end.at.off other.end.at.off) list.now }
    ensures within { result ≤ length list.now }
{
    list.iter()
        .take_while(|other| visit.end.at.off <= other.end.at.off)
        .count()
}

/// Puts the end behind those with the same offset or a greater one.
fn put_behind(list: &mut Vec<Visit>, visit: Visit) -> Result<(), NoMemory>
    ensures { OnOk result (map visit_of list.new.items ≡ put_behind (visit_of visit) (map visit_of list.old.items)) }
{
    let place = place_of(list, visit);
    list.insert(place, visit)?;
    Ok(())
}

fn add_moving(list: &mut Vec<Visit>, visit: Visit) -> Result<(), NoMemory>
    ensures { OnOk result (map visit_of list.new.items ≡ (if is_moving visit.end then put_behind (visit_of visit) (map visit_of list.old.items) else map visit_of list.old.items)) }
{
    if is_moving(visit.end) {
        put_behind(list, visit)
    } else {
        Ok(())
    }
}

/// The ends that move, by falling offset, in order where offsets are the same.
pub fn moving_in(alloc: Global, list: &[Visit]) -> Result<Vec<Visit>, NoMemory>
    ensures sorted { IfOk result (λ v. IsByFalling (map visit_of v.items) (moving (map visit_of list.now))) }
    ensures narrow { IfOk result (λ v. are_narrow (map visit_of list.now) ≡ true → are_narrow (map visit_of v.items) ≡ true) }
    ensures among { IfOk result (λ v. (h : Bounds) (cuts : List Lin) → VisitsAmong h cuts (map visit_of list.now) → MoversAmong h cuts (map visit_of v.items)) }
{
    let mut sorted = Vec::new(alloc);
    for visit in list {
        add_moving(&mut sorted, *visit)?;
    }
    Ok(sorted)
}

/// True where the two ends are written in the same way. Takes no memory.
pub fn is_same(a: CoreEnd, b: CoreEnd) -> bool
    ensures role { result ≡ true → a.role ≡ b.role }
    ensures at { result ≡ true → a.at ≡ b.at }
{
    a.role == b.role && a.at == b.at
}

/// True only where some end of the list is written as this one: what holds of this one's place then holds of that one's.
fn has_end(list: &[Visit], end: CoreEnd) -> bool
    ensures { result ≡ true → (holds : ℕ → Lin → Bool) → holds end.role end.at ≡ true → list_any (λ v. holds v.end.role v.end.at) (map visit_of list.now) ≡ true }
{
    for other in list {
        if is_same(other.end, end) {
            return true;
        }
    }
    false
}

/// Adds the end, unless one that is written in the same way is there.
fn add_fresh(list: &mut Vec<Visit>, visit: Visit) -> Result<(), NoMemory>
    ensures same { OnOk result ((roles : List CoreRole) (n i : ℤ) (role : ℕ) (x : ℤ) (rest : List S.Visit) →
        first_of (map (at_value roles n i) (map visit_of list.new.items ++ rest)) role x ≡ first_of (map (at_value roles n i) (map visit_of list.old.items ++ visit_of visit ∷ rest)) role x) }
    ensures fixed { OnOk result ((roles : List CoreRole) (n : ℤ) (role : ℕ) (x : ℤ) (rest : List S.Visit) →
        has_fixed roles n (map visit_of list.new.items ++ rest) role x ≡ has_fixed roles n (map visit_of list.old.items ++ visit_of visit ∷ rest) role x) }
    ensures narrow { OnOk result (is_narrow (visit_of visit) ≡ true → are_narrow (map visit_of list.old.items) ≡ true → are_narrow (map visit_of list.new.items) ≡ true) }
    ensures among { OnOk result ((h : Bounds) (cuts : List Lin) → AreAmong (end_cuts (Some h) visit.end) cuts → VisitsAmong h cuts (map visit_of list.old.items) → VisitsAmong h cuts (map visit_of list.new.items)) }
{
    if has_end(list, visit.end) {
        return Ok(());
    }
    list.push(visit)?;
    Ok(())
}

/// The ends without those that stood before: whoever is at one of these has stopped already.
pub fn fresh_in(alloc: Global, list: &[Visit]) -> Result<Vec<Visit>, NoMemory>
    ensures same { IfOk result (λ v. (roles : List CoreRole) (n i : ℤ) (role : ℕ) (x : ℤ) → first_of (map (at_value roles n i) (map visit_of v.items)) role x ≡ first_of (map (at_value roles n i) (map visit_of list.now)) role x) }
    ensures fixed { IfOk result (λ v. (roles : List CoreRole) (n : ℤ) (role : ℕ) (x : ℤ) → has_fixed roles n (map visit_of v.items) role x ≡ has_fixed roles n (map visit_of list.now) role x) }
    ensures narrow { IfOk result (λ v. are_narrow (map visit_of list.now) ≡ true → are_narrow (map visit_of v.items) ≡ true) }
    ensures among { IfOk result (λ v. (h : Bounds) (cuts : List Lin) → VisitsAmong h cuts (map visit_of list.now) → VisitsAmong h cuts (map visit_of v.items)) }
{
    let mut fresh = Vec::new(alloc);
    for visit in list {
        add_fresh(&mut fresh, *visit)?;
    }
    Ok(fresh)
}
