ghost use Rattle.std.specs.Prelude.{◌≡◌, [], ◌∷◌, ◌++◌, false, map, OnOk, IfOk};
ghost use Rattle.pb_core_language.specs.Flat.{takes_part};
ghost use Rattle.pb_core_language.specs.Run.{at_rank};
ghost use Rattle.pb_core_language.specs.Lists.{some_below, over_below};
ghost use Rattle.pb_core_language.specs.Rules.{deserted, deserted_among};
ghost use Rattle.pb_plain.specs.Loops.{held_at};
ghost use Rattle.pb_plain.specs.View.{view, view_branches, mark_of};
ghost use Rattle.pb_plain_rules.specs.Depth.{env_of};
ghost use Rattle.pb_plain_rules.specs.Lonely.{is_lonely, if_lonely, inside};

use crate::{Branches, Flat, Held, Mark, NoMemory, Within, holds_again};
use pb_plain::takes_part;
use std::alloc::Global;

/// Adds the loops in the block whose body holds their continue and in which no rank below the total takes part.
#[cycle(deserted)]
pub fn add_deserted(
    alloc: Global,
    block: &Flat,
    held: &Held,
    total: u64,
    out: &mut Vec<Mark>,
) -> Result<(), NoMemory>
    ensures { OnOk result (map mark_of out.new.items ≡ map mark_of out.old.items ++ deserted total (env_of held.now) (view block.now)) }
{
    match block {
        Flat::Stop => Ok(()),
        Flat::Message { rest, .. } => add_deserted(alloc, rest, held, total, out),
        Flat::Compute { rest, .. } => add_deserted(alloc, rest, held, total, out),
        Flat::Together { rest, .. } => add_deserted(alloc, rest, held, total, out),
        Flat::Choice { branches, rest, .. } => {
            add_deserted_among(alloc, branches, held, total, out)?;
            add_deserted(alloc, rest, held, total, out)
        }
        Flat::Looped { origin, body, rest } => {
            add_if_lonely(body, held, total, origin.mark, out)?;
            add_inside(alloc, body, held, total, out)?;
            add_deserted(alloc, rest, held, total, out)
        }
        Flat::Again { .. } => Ok(()),
    }
}

/// Adds those in the branches.
#[cycle(deserted)]
fn add_deserted_among(
    alloc: Global,
    branches: &Branches,
    held: &Held,
    total: u64,
    out: &mut Vec<Mark>,
) -> Result<(), NoMemory>
    ensures { OnOk result (map mark_of out.new.items ≡ map mark_of out.old.items ++ deserted_among total (env_of held.now) (view_branches branches.now)) }
{
    match branches {
        Branches::None => Ok(()),
        Branches::Branch { first, rest, .. } => {
            add_deserted(alloc, first, held, total, out)?;
            add_deserted_among(alloc, rest, held, total, out)
        }
    }
}

/// Adds those in the body of a loop.
#[cycle(deserted)]
fn add_inside(
    alloc: Global,
    body: &Flat,
    held: &Held,
    total: u64,
    out: &mut Vec<Mark>,
) -> Result<(), NoMemory>
    ensures { OnOk result (map mark_of out.new.items ≡ map mark_of out.old.items ++ inside total (env_of held.now) (view body.now)) }
{
    let table = takers(alloc, body, held, total)?;
    add_deserted(alloc, body, &Held::Each(&table, &*held), total, out)
}

/// Of each rank below the total whether it takes part in the loop's body for a reason other than the loop's continue.
fn takers(alloc: Global, body: &Flat, held: &Held, total: u64) -> Result<Vec<bool>, NoMemory>
    ensures { IfOk result (λ v. v.items ≡ over_below total (λ r. takes_part (false ∷ held_at r held.now) r (view body.now) ∷ [])) }
{
    let mut table = Vec::new(alloc);
    for rank in 0..total {
        table.push(takes_part(body, &Held::Just(false, &*held), rank))?;
    }
    Ok(table)
}

/// Adds the loop's mark, where its body holds its continue and nobody takes part.
fn add_if_lonely(
    body: &Flat,
    held: &Held,
    total: u64,
    mark: Mark,
    out: &mut Vec<Mark>,
) -> Result<(), NoMemory>
    ensures { OnOk result (map mark_of out.new.items ≡ map mark_of out.old.items ++ if_lonely total (env_of held.now) (mark_of mark) (view body.now)) }
{
    if is_lonely(body, held, total) {
        out.push(mark)?;
    }
    Ok(())
}

fn is_lonely(body: &Flat, held: &Held, total: u64) -> bool
    ensures { result ≡ is_lonely total (env_of held.now) (view body.now) }
{
    holds_again(body, &Within::Body) && !has_taker(body, held, total)
}

/// Whether some rank below the total takes part in the loop's body for a reason other than the loop's continue.
fn has_taker(body: &Flat, held: &Held, total: u64) -> bool
    ensures { result ≡ some_below total (λ r. takes_part (false ∷ at_rank r (env_of held.now)) r (view body.now)) }
{
    let mut left = total;
    while left > 0 {
        left -= 1;
        if takes_part(body, &Held::Just(false, &*held), left) {
            return true;
        }
    }
    false
}
