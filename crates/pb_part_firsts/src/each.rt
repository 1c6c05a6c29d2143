ghost use Rattle.std.specs.Prelude.{◌≡◌, ◌∷◌, [], ◌++◌, ℕ, ℤ, pos, true, false, ◌&&◌, int_le, if◌then◌else◌, List, OnOk, IfSome, None, Some, map};
ghost use Rattle.std.specs.List.{All};
ghost use Rattle.pb_affine.specs.declared.lin.Lin.{Lin};
ghost use Rattle.pb_part_areas.specs.Fits.{Fits};
ghost use Rattle.pb_core_language.specs.Cuts.{edges, end_cuts, stmt_cuts};
ghost use Rattle.pb_part_takers.specs.Pieces.{AreAmong};
ghost use Rattle.pb_part_firsts.specs.Fitting.{EntriesFit};
ghost use Rattle.pb_affine.specs.declared.range.NRange.{NRange};
ghost use Rattle.pb_affine.specs.Values.{value};
ghost use Rattle.pb_part_areas.specs.Areas.{at, has};
ghost use Rattle.pb_part_areas.specs.Joins.{IsUnion};
ghost use Rattle.pb_core_language.specs.declared.protocol.CoreRole.{CoreRole};
ghost use Rattle.pb_core_language.specs.Outcomes.{nothing_first, or_then};
ghost use Rattle.pb_core_language.specs.Plain.{plain_block};
ghost use Rattle.pb_core_language.specs.Sound.{is_small, Rows, is_stmt};
ghost use Rattle.pb_core_language.specs.Tree.{Mark, foreach};
ghost use Rattle.pb_core_flat.specs.OutcomeSets.{found};
ghost use Rattle.pb_core_flat.specs.Meets.{is_moving};
ghost use Rattle.pb_core_flat.specs.Seated.{is_at};
ghost use Rattle.pb_core_flat.specs.Stops.{first_of, at_fixed, at_some, at_value, outcome_at};
ghost use Rattle.pb_part_takers.specs.declared.held.Held.{Held};
ghost use Rattle.pb_part_takers.specs.Loops.{ids_of};
ghost use Rattle.pb_part_firsts.specs.Firsts.{outcome_of, is_small_kind, are_small};
ghost use Rattle.pb_part_firsts.specs.Stopping.{first_at};
ghost use Rattle.pb_part_visits.specs.Visits.{visit_of, finding_of, is_narrow_finding, are_narrow, IsBounded, VisitsAmong, MoversAmong};
ghost use Rattle.pb_part_firsts.specs.Takers.{IsWhole};
ghost use Rattle.pb_part_firsts.specs.Turns.{AddsStops, first_stop};

use crate::firsts::{Entry, Kind, Source};
use pb_affine::Lin;
use pb_core_language::{Bounds, CoreBlock, CoreEnd};
use pb_part_areas::{Area, NoMemory, clipped, is_empty, joined};
use pb_part_visits::{
    Finding, Visit, back, fresh_in, is_moving, is_same, meeting_area, moving_in, passed_area, put,
    visits_in,
};
use std::alloc::Global;

/// What is found, with a lin in the variable's place. Takes no memory.
fn kind_of(finding: Finding, by: Lin) -> Kind
    ensures is { is_small by.off ≡ true → is_narrow_finding (finding_of finding) ≡ true → (roles : List CoreRole) (n x : ℤ) → outcome_of roles result n x ≡ outcome_at roles n (value by n x) (finding_of finding) }
    ensures small { is_narrow_finding (finding_of finding) ≡ true → is_small_kind result ≡ true }
{
    match finding {
        Finding::Acts => Kind::Other,
        Finding::Gets { source, label } => {
            let from = Source {
                role: source.role,
                at: put(source.at, by),
            };
            Kind::Receive { from, label }
        }
    }
}

/// The area of both stops, where the same is found at both and the areas are neighbours.
fn both(last: Entry, next: Entry) -> Option<Area>
    ensures kind { IfSome result (λ m. last.kind ≡ next.kind) }
    ensures is { IfSome result (λ m. IsUnion last.area next.area m) }
{
    if last.kind == next.kind {
        joined(last.area, next.area)
    } else {
        None
    }
}

/// Adds a stop behind the last one, or to it.
fn put_behind(stops: &mut Vec<Entry>, last: Entry, next: Entry) -> Result<(), NoMemory>
    ensures adds { OnOk result ((roles : List CoreRole) (n : ℤ) (role : ℕ) (x : ℤ) →
        first_stop roles stops.new.items n role x ≡ or_then (first_stop roles (stops.old.items ++ last ∷ []) n role x) (if has next.area n role x then outcome_of roles next.kind n x ∷ [] else nothing_first ∷ [])) }
    ensures small { OnOk result (is_small_kind last.kind ≡ true → is_small_kind next.kind ≡ true → are_small stops.old.items ≡ true → are_small stops.new.items ≡ true) }
    ensures fits { OnOk result ((range : NRange) (cuts : List Lin) → Fits range cuts last.area → Fits range cuts next.area → EntriesFit range cuts stops.old.items → EntriesFit range cuts stops.new.items) }
{
    match both(last, next) {
        Some(area) => stops.push(Entry {
            area,
            kind: next.kind,
        })?,
        None => {
            stops.push(last)?;
            stops.push(next)?;
        }
    }
    Ok(())
}

/// Adds a stop, unless nobody is there.
fn add_stop(stops: &mut Vec<Entry>, next: Entry) -> Result<(), NoMemory>
    ensures adds { OnOk result ((roles : List CoreRole) (n : ℤ) (role : ℕ) (x : ℤ) →
        first_stop roles stops.new.items n role x ≡ or_then (first_stop roles stops.old.items n role x) (if has next.area n role x then outcome_of roles next.kind n x ∷ [] else nothing_first ∷ [])) }
    ensures small { OnOk result (is_small_kind next.kind ≡ true → are_small stops.old.items ≡ true → are_small stops.new.items ≡ true) }
    ensures fits { OnOk result ((range : NRange) (cuts : List Lin) → Fits range cuts next.area → EntriesFit range cuts stops.old.items → EntriesFit range cuts stops.new.items) }
{
    if is_empty(next.area) {
        return Ok(());
    }
    match stops.pop() {
        None => stops.push(next)?,
        Some(last) => put_behind(stops, last, next)?,
    }
    Ok(())
}

/// Adds what stops those at an end that stays, at the first value of the variable.
fn add_at(
    end: CoreEnd,
    visits: &[Visit],
    over: Bounds,
    stops: &mut Vec<Entry>,
) -> Result<(), NoMemory>
    ensures gives { OnOk result ((range : NRange) (roles : List CoreRole) → is_moving end ≡ false → is_small end.at.off ≡ true → are_narrow (map visit_of visits.now) ≡ true → IsBounded over →
        AddsStops range roles stops.old.items stops.new.items (λ n role x. if int_le (at over.low n) (at over.high n) && is_at end n (pos 0) role x then found (first_of (map (at_value roles n (at over.low n)) (map visit_of visits.now)) role x) ∷ [] else nothing_first ∷ [])) }
    ensures small { OnOk result (are_narrow (map visit_of visits.now) ≡ true → are_small stops.old.items ≡ true → are_small stops.new.items ≡ true) }
    ensures fits { OnOk result ((range : NRange) (cuts : List Lin) → is_moving end ≡ false → is_small end.at.off ≡ true → are_narrow (map visit_of visits.now) ≡ true → IsBounded over → AreAmong (edges over.low over.high) cuts → AreAmong (end_cuts (Some over) end) cuts → VisitsAmong over cuts (map visit_of visits.now) →
        EntriesFit range cuts stops.old.items → EntriesFit range cuts stops.new.items) }
{
    for visit in visits {
        let area = meeting_area(end, visit.end, over);
        let kind = kind_of(visit.finding, over.low);
        add_stop(stops, Entry { area, kind })?;
        if is_same(visit.end, end) {
            return Ok(());
        }
    }
    Ok(())
}

/// Adds what stops those at ends that stay, at the first value of the variable.
fn add_first(visits: &[Visit], over: Bounds, stops: &mut Vec<Entry>) -> Result<(), NoMemory>
    ensures gives { OnOk result ((range : NRange) (roles : List CoreRole) → are_narrow (map visit_of visits.now) ≡ true → IsBounded over →
        AddsStops range roles stops.old.items stops.new.items (λ n role x. found (first_of (map (at_fixed roles n (at over.low n) (at over.high n) (map visit_of visits.now)) (map visit_of visits.now)) role x) ∷ [])) }
    ensures small { OnOk result (are_narrow (map visit_of visits.now) ≡ true → are_small stops.old.items ≡ true → are_small stops.new.items ≡ true) }
    ensures fits { OnOk result ((range : NRange) (cuts : List Lin) → are_narrow (map visit_of visits.now) ≡ true → IsBounded over → AreAmong (edges over.low over.high) cuts → VisitsAmong over cuts (map visit_of visits.now) →
        EntriesFit range cuts stops.old.items → EntriesFit range cuts stops.new.items) }
{
    for visit in visits {
        if !is_moving(visit.end) {
            add_at(visit.end, visits, over, stops)?;
        }
    }
    Ok(())
}

/// Adds what stops those at ends that move, for the numbers N of the protocol alone: for lower ones the ends of a range may be in
/// the wrong order.
fn add_moving(
    visits: &[Visit],
    over: Bounds,
    whole: &[Area],
    stops: &mut Vec<Entry>,
) -> Result<(), NoMemory>
    ensures gives { OnOk result ((range : NRange) (roles : List CoreRole) → IsWhole range roles whole.now → are_narrow (map visit_of visits.now) ≡ true → IsBounded over →
        AddsStops range roles stops.old.items stops.new.items (λ n role x. found (first_of (map (at_some roles n (at over.low n) (at over.high n)) (map visit_of visits.now)) role x) ∷ [])) }
    ensures small { OnOk result (are_narrow (map visit_of visits.now) ≡ true → are_small stops.old.items ≡ true → are_small stops.new.items ≡ true) }
    ensures fits { OnOk result ((range : NRange) (cuts : List Lin) → are_narrow (map visit_of visits.now) ≡ true → IsBounded over → MoversAmong over cuts (map visit_of visits.now) → All (Fits range cuts) whole.now →
        EntriesFit range cuts stops.old.items → EntriesFit range cuts stops.new.items) }
{
    for visit in visits {
        let area = clipped(passed_area(visit.end, over), whole);
        let kind = kind_of(visit.finding, back(visit.end.at));
        stops.push(Entry { area, kind })?;
    }
    Ok(())
}

/// Adds what stops those that a foreach concerns.
pub(crate) fn add_foreach(
    items: &CoreBlock,
    alloc: Global,
    over: Bounds,
    whole: &[Area],
    stops: &mut Vec<Entry>,
) -> Result<(), NoMemory>
    ensures gives { OnOk result ((range : NRange) (roles : List CoreRole) (rows : Rows) (held : List Held) (m k : Mark) → IsWhole range roles whole.now →
        is_stmt rows false (ids_of held) (foreach (record { low = over.low; high = over.high }) k (plain_block items.now).block) ≡ true →
        AddsStops range roles stops.old.items stops.new.items (first_at roles held m (foreach (record { low = over.low; high = over.high }) k (plain_block items.now).block))) }
    ensures small { OnOk result ((rows : Rows) (ids : List ℕ) (k : Mark) →
        is_stmt rows false ids (foreach (record { low = over.low; high = over.high }) k (plain_block items.now).block) ≡ true →
        are_small stops.old.items ≡ true → are_small stops.new.items ≡ true) }
    ensures fits { OnOk result ((range : NRange) (cuts : List Lin) (rows : Rows) (ids : List ℕ) (k : Mark) →
        is_stmt rows false ids (foreach over k (plain_block items.now).block) ≡ true →
        AreAmong (stmt_cuts None (foreach over k (plain_block items.now).block)) cuts → All (Fits range cuts) whole.now →
        EntriesFit range cuts stops.old.items → EntriesFit range cuts stops.new.items) }
{
    let visits = visits_in(items, alloc)?;
    let sorted = moving_in(alloc, &visits)?;
    let fresh = fresh_in(alloc, &visits)?;
    add_first(&fresh, over, stops)?;
    add_moving(&sorted, over, whole, stops)
}
