ghost use Rattle.std.specs.Prelude.{◌≡◌, ◌∷◌, [], ℕ, ℤ, pos, true, false, List, IfOk, OnOk, IfSome, None, MatchOption, if◌then◌else◌};
ghost use Rattle.std.specs.List.{All};
ghost use Rattle.pb_affine.specs.declared.lin.Lin.{Lin};
ghost use Rattle.pb_part_areas.specs.Fits.{Fits};
ghost use Rattle.pb_core_language.specs.Cuts.{end_cuts, stmt_cuts};
ghost use Rattle.pb_part_firsts.specs.Fitting.{AllFit, EntriesFit};
ghost use Rattle.pb_affine.specs.declared.range.NRange.{NRange};
ghost use Rattle.pb_core_language.specs.declared.protocol.CoreRole.{CoreRole};
ghost use Rattle.pb_core_language.specs.Outcomes.{nothing_first, other_first};
ghost use Rattle.pb_core_language.specs.Sound.{is_small, is_over_n, is_end, Rows, is_stmt};
ghost use Rattle.pb_core_language.specs.Tree.{Mark, message, run, again};
ghost use Rattle.pb_part_areas.specs.Areas.{have};
ghost use Rattle.pb_core_flat.specs.Seated.{is_at};
ghost use Rattle.pb_part_takers.specs.declared.held.Held.{Held};
ghost use Rattle.pb_part_takers.specs.Loops.{ids_of, HeldFit};
ghost use Rattle.pb_part_takers.specs.Pieces.{AreAmong};
ghost use Rattle.pb_part_firsts.specs.Takers.{IsWhole};
ghost use Rattle.pb_part_firsts.specs.Firsts.{Gives, outcome_of, is_small_kind, are_small};
ghost use Rattle.pb_part_firsts.specs.Stopping.{first_at, is_held};
ghost use Rattle.pb_part_firsts.specs.Turns.{AddsStops};
ghost use Rattle.pb_part_firsts.specs.Parts.{flat, AreAround};

use crate::firsts::{Entry, Kind, Source};
use crate::parts::{Part, stop_parts};
use pb_core_language::CoreEnd;
use pb_part_areas::{Area, NoMemory, one};
use pb_part_takers::{Held, end_area};
use std::alloc::Global;

/// Adds what stops the rank at an end that stays.
fn add_stop(end: CoreEnd, kind: Kind, stops: &mut Vec<Entry>) -> Result<(), NoMemory>
    ensures gives { OnOk result ((range : NRange) (roles : List CoreRole) → is_small end.at.off ≡ true →
        AddsStops range roles stops.old.items stops.new.items (λ n role x. if is_at end n (pos 0) role x then outcome_of roles kind n x ∷ [] else nothing_first ∷ [])) }
    ensures small { OnOk result (is_small_kind kind ≡ true → are_small stops.old.items ≡ true → are_small stops.new.items ≡ true) }
    ensures fits { OnOk result ((range : NRange) (cuts : List Lin) → is_small end.at.off ≡ true → is_over_n end.at.base ≡ true → AreAmong (end_cuts None end) cuts → EntriesFit range cuts stops.old.items → EntriesFit range cuts stops.new.items) }
{
    let area = end_area(end);
    stops.push(Entry { area, kind })?;
    Ok(())
}

/// Adds what stops those that a message concerns, which stands in no foreach.
pub(crate) fn add_message(
    label: u32,
    from: CoreEnd,
    to: CoreEnd,
    stops: &mut Vec<Entry>,
) -> Result<(), NoMemory>
    ensures gives { OnOk result ((range : NRange) (roles : List CoreRole) (rows : Rows) (held : List Held) (m : Mark) → is_stmt rows false (ids_of held) (message label from to) ≡ true →
        AddsStops range roles stops.old.items stops.new.items (first_at roles held m (message label from to))) }
    ensures small { OnOk result ((rows : Rows) (ids : List ℕ) → is_stmt rows false ids (message label from to) ≡ true → are_small stops.old.items ≡ true → are_small stops.new.items ≡ true) }
    ensures fits { OnOk result ((range : NRange) (cuts : List Lin) (rows : Rows) (ids : List ℕ) → is_stmt rows false ids (message label from to) ≡ true → AreAmong (stmt_cuts None (message label from to)) cuts → EntriesFit range cuts stops.old.items → EntriesFit range cuts stops.new.items) }
{
    add_stop(from, Kind::Other, stops)?;
    let source = Source {
        role: from.role,
        at: from.at,
    };
    let kind = Kind::Receive {
        from: source,
        label,
    };
    add_stop(to, kind, stops)
}

/// Adds what stops the rank that a compute concerns, which stands in no foreach.
pub(crate) fn add_run(at: CoreEnd, stops: &mut Vec<Entry>) -> Result<(), NoMemory>
    ensures gives { OnOk result ((range : NRange) (roles : List CoreRole) (rows : Rows) (held : List Held) (m : Mark) (k : ℕ) → is_stmt rows false (ids_of held) (run k at) ≡ true →
        AddsStops range roles stops.old.items stops.new.items (first_at roles held m (run k at))) }
    ensures small { OnOk result (are_small stops.old.items ≡ true → are_small stops.new.items ≡ true) }
    ensures fits { OnOk result ((range : NRange) (cuts : List Lin) (rows : Rows) (ids : List ℕ) (k : ℕ) → is_stmt rows false ids (run k at) ≡ true → AreAmong (stmt_cuts None (run k at)) cuts → EntriesFit range cuts stops.old.items → EntriesFit range cuts stops.new.items) }
{
    add_stop(at, Kind::Other, stops)
}

/// The first outcomes of the rank that chooses.
pub(crate) fn run_firsts(
    alloc: Global,
    at: CoreEnd,
    reach: Vec<Part>,
    out: &mut Vec<Entry>,
) -> Result<Vec<Part>, NoMemory>
    ensures gives { IfOk result (λ left. (range : NRange) (roles : List CoreRole) → is_small at.at.off ≡ true →
        AreAround reach.items → Gives range roles (flat reach.items) (flat left.items) out.old.items out.new.items (λ n role x. if is_at at n (pos 0) role x then other_first ∷ [] else nothing_first ∷ [])) }
    ensures around { IfOk result (λ left. AreAround reach.items → AreAround left.items) }
    ensures small { IfOk result (λ left. are_small out.old.items ≡ true → are_small out.new.items ≡ true) }
    ensures fits { IfOk result (λ left. (range : NRange) (cuts : List Lin) (rows : Rows) → is_end rows false at ≡ true → AreAmong (end_cuts None at) cuts → All (Fits range cuts) (flat reach.items) → EntriesFit range cuts out.old.items → AllFit range cuts (flat left.items) out.new.items) }
{
    let here = one(alloc, end_area(at))?;
    let left = stop_parts(alloc, reach, &here, Kind::Other, out)?;
    Ok(left)
}

/// The first outcomes of a statement that all ranks take part in.
pub(crate) fn all_firsts(
    alloc: Global,
    whole: &[Area],
    reach: Vec<Part>,
    out: &mut Vec<Entry>,
) -> Result<Vec<Part>, NoMemory>
    ensures gives { IfOk result (λ left. (range : NRange) (roles : List CoreRole) → IsWhole range roles whole.now →
        AreAround reach.items → Gives range roles (flat reach.items) (flat left.items) out.old.items out.new.items (λ n role x. other_first ∷ [])) }
    ensures around { IfOk result (λ left. AreAround reach.items → AreAround left.items) }
    ensures small { IfOk result (λ left. are_small out.old.items ≡ true → are_small out.new.items ≡ true) }
    ensures fits { IfOk result (λ left. (range : NRange) (cuts : List Lin) → All (Fits range cuts) whole.now → All (Fits range cuts) (flat reach.items) → EntriesFit range cuts out.old.items → AllFit range cuts (flat left.items) out.new.items) }
{
    let left = stop_parts(alloc, reach, whole, Kind::Other, out)?;
    Ok(left)
}

/// The innermost of these loops that has the id.
fn find_loop(id: u32, held: &[Held]) -> Option<&Held>
    ensures fits { IfSome result (λ one. (range : NRange) (cuts : List Lin) → HeldFit range cuts held.now → All (Fits range cuts) one.now.areas.value.items) }
    ensures is { MatchOption result ((n : ℤ) (role : ℕ) (x : ℤ) → is_held id held.now n role x ≡ false) (λ one. (n : ℤ) (role : ℕ) (x : ℤ) → have one.now.areas.value.items n role x ≡ is_held id held.now n role x) }
{
    for inner in held {
        if inner.id == id {
            return Some(inner);
        }
    }
    None
}

/// The first outcomes of a continue.
pub(crate) fn again_firsts(
    alloc: Global,
    id: u32,
    held: &[Held],
    reach: Vec<Part>,
    out: &mut Vec<Entry>,
) -> Result<Vec<Part>, NoMemory>
    ensures gives { IfOk result (λ left. (range : NRange) (roles : List CoreRole) (m : Mark) → AreAround reach.items → Gives range roles (flat reach.items) (flat left.items) out.old.items out.new.items (first_at roles held.now m (again id))) }
    ensures around { IfOk result (λ left. AreAround reach.items → AreAround left.items) }
    ensures small { IfOk result (λ left. are_small out.old.items ≡ true → are_small out.new.items ≡ true) }
    ensures fits { IfOk result (λ left. (range : NRange) (cuts : List Lin) → HeldFit range cuts held.now → All (Fits range cuts) (flat reach.items) → EntriesFit range cuts out.old.items → AllFit range cuts (flat left.items) out.new.items) }
{
    match find_loop(id, held) {
        None => Ok(reach),
        Some(inner) => {
            let left = stop_parts(alloc, reach, &inner.areas, Kind::Again, out)?;
            Ok(left)
        }
    }
}
