ghost use Rattle.std.specs.Prelude.{◌≡◌, map};
ghost use Rattle.pb_core_language.specs.Plain.{plain_block, plain_stmt, branches_of};
ghost use Rattle.pb_cost.specs.Costs.{loop_in, first_loop, first_among};

use pb_core_language::{CoreBlock, CoreKind, CoreStmt, Place};

/// The first loop of a block.
#[cycle(block)]
pub(crate) fn first_loop(block: &CoreBlock) -> Option<Place>
    ensures { result ≡ first_loop (plain_block block.now).block }
{
    for stmt in &block.list {
        if let Some(place) = loop_in(stmt) {
            return Some(place);
        }
    }
    None
}

/// The first loop of a statement.
#[cycle(block)]
#[tactic(auto, using(pb_core_language::proofs::Plains::plain_choice, pb_core_language::proofs::Plains::plain_mark))]
fn loop_in(stmt: &CoreStmt) -> Option<Place>
    ensures { result ≡ loop_in (plain_stmt stmt.now).mark (plain_stmt stmt.now).stmt }
{
    match &stmt.what {
        CoreKind::Loop { .. } => Some(stmt.place),
        CoreKind::Foreach { items, .. } => first_loop(items),
        CoreKind::Choice { branches, .. } => first_among(branches),
        CoreKind::Message { .. }
        | CoreKind::Again { .. }
        | CoreKind::Run { .. }
        | CoreKind::Barrier
        | CoreKind::Broadcast { .. }
        | CoreKind::Reduce { .. }
        | CoreKind::Allreduce { .. } => None,
    }
}

/// The first loop of some blocks.
#[cycle(block)]
fn first_among(blocks: &[CoreBlock]) -> Option<Place>
    ensures { result ≡ first_among (branches_of (map plain_block blocks.now)) }
{
    for block in blocks {
        if let Some(place) = first_loop(block) {
            return Some(place);
        }
    }
    None
}
