//! Statements whose stops are gathered.

ghost use Rattle.std.specs.Prelude.{◌≡◌, ℕ, true, false, List, IfOk, None};
ghost use Rattle.std.specs.List.{All};
ghost use Rattle.pb_affine.specs.declared.lin.Lin.{Lin};
ghost use Rattle.pb_affine.specs.declared.range.NRange.{NRange};
ghost use Rattle.pb_core_language.specs.Cuts.{stmt_cuts};
ghost use Rattle.pb_core_language.specs.declared.protocol.CoreRole.{CoreRole};
ghost use Rattle.pb_core_language.specs.Plain.{plain_stmt};
ghost use Rattle.pb_core_language.specs.Sound.{Rows, is_stmt};
ghost use Rattle.pb_part_areas.specs.Fits.{Fits};
ghost use Rattle.pb_part_takers.specs.declared.held.Held.{Held};
ghost use Rattle.pb_part_takers.specs.Loops.{ids_of};
ghost use Rattle.pb_part_takers.specs.Pieces.{AreAmong};
ghost use Rattle.pb_part_firsts.specs.Firsts.{are_small};
ghost use Rattle.pb_part_firsts.specs.Fitting.{EntriesFit};
ghost use Rattle.pb_part_firsts.specs.Gathered.{is_plain};
ghost use Rattle.pb_part_firsts.specs.Stopping.{first_at};
ghost use Rattle.pb_part_firsts.specs.Takers.{IsWhole};
ghost use Rattle.pb_part_firsts.specs.Turns.{AddsStops};

use crate::each::add_foreach;
use crate::firsts::Entry;
use crate::single::{add_message, add_run};
use pb_core_language::{Bounds, CoreKind, CoreStmt};
use pb_part_areas::{Area, NoMemory};
use std::alloc::Global;

/// Adds what stops those that a message, a compute or a foreach concerns. False, and nothing is added, where the statement is
/// another.
pub(crate) fn add_plain(
    stmt: &CoreStmt,
    alloc: Global,
    whole: &[Area],
    stops: &mut Vec<Entry>,
) -> Result<bool, NoMemory>
    ensures is { IfOk result (λ t. t ≡ is_plain (plain_stmt stmt.now).stmt) }
    ensures gives { IfOk result (λ t. t ≡ true → (range : NRange) (roles : List CoreRole) (rows : Rows) (held : List Held) → IsWhole range roles whole.now → is_stmt rows false (ids_of held) (plain_stmt stmt.now).stmt ≡ true →
        AddsStops range roles stops.old.items stops.new.items (first_at roles held (plain_stmt stmt.now).mark (plain_stmt stmt.now).stmt)) }
    ensures other { IfOk result (λ t. t ≡ false → stops.new.items ≡ stops.old.items) }
    ensures small { IfOk result (λ t. (rows : Rows) (ids : List ℕ) → is_stmt rows false ids (plain_stmt stmt.now).stmt ≡ true → are_small stops.old.items ≡ true → are_small stops.new.items ≡ true) }
    ensures fits { IfOk result (λ t. (range : NRange) (cuts : List Lin) (rows : Rows) (ids : List ℕ) → is_stmt rows false ids (plain_stmt stmt.now).stmt ≡ true → AreAmong (stmt_cuts None (plain_stmt stmt.now).stmt) cuts →
        All (Fits range cuts) whole.now → EntriesFit range cuts stops.old.items → EntriesFit range cuts stops.new.items) }
{
    match &stmt.what {
        CoreKind::Message { label, from, to } => {
            add_message(*label, *from, *to, stops)?;
            Ok(true)
        }
        CoreKind::Run { at, .. } => {
            add_run(*at, stops)?;
            Ok(true)
        }
        CoreKind::Foreach { low, high, items } => {
            let over = Bounds {
                low: *low,
                high: *high,
            };
            add_foreach(items, alloc, over, whole, stops)?;
            Ok(true)
        }
        CoreKind::Loop { .. }
        | CoreKind::Again { .. }
        | CoreKind::Choice { .. }
        | CoreKind::Barrier
        | CoreKind::Broadcast { .. }
        | CoreKind::Reduce { .. }
        | CoreKind::Allreduce { .. } => Ok(false),
    }
}
