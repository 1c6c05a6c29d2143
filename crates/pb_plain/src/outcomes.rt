ghost use Rattle.std.specs.Prelude.{◌≡◌, [], ◌∷◌, map, IfOk};
ghost use Rattle.pb_core_language.specs.Outcomes.{firsts, firsts_among, or_then};
ghost use Rattle.pb_plain.specs.Finds.{outcome_of};
ghost use Rattle.pb_plain.specs.Loops.{held_at};
ghost use Rattle.pb_plain.specs.View.{view, view_branches};

use crate::{Branches, Flat, Held, NoMemory, takes_part, takes_part_among};
use std::alloc::Global;

/// What a rank may find first in a block.
#[derive(Clone, Copy, PartialEq, Eq)]
pub enum Outcome {
    /// Nothing that it takes part in.
    Nothing,
    /// A message of this label from the rank with this number.
    Receive { from: u64, label: u32 },
    /// Something else that it takes part in.
    Other,
    /// A continue.
    Again,
}

/// What the rank finds first in the block, inside these loops; a set as the list of its members.
#[cycle(firsts)]
pub fn firsts(alloc: Global, block: &Flat, held: &Held, rank: u64) -> Result<Vec<Outcome>, NoMemory>
    ensures { IfOk result (λ v. map outcome_of v.items ≡ firsts (held_at rank held.now) rank (view block.now)) }
{
    match block {
        Flat::Stop => one(alloc, Outcome::Nothing),
        Flat::Message {
            from,
            to,
            label,
            rest,
            ..
        } => {
            if *from == rank {
                one(alloc, Outcome::Other)
            } else if *to == rank {
                one(
                    alloc,
                    Outcome::Receive {
                        from: *from,
                        label: *label,
                    },
                )
            } else {
                firsts(alloc, rest, held, rank)
            }
        }
        Flat::Compute { at, rest, .. } => {
            if *at == rank {
                one(alloc, Outcome::Other)
            } else {
                firsts(alloc, rest, held, rank)
            }
        }
        Flat::Together { .. } => one(alloc, Outcome::Other),
        Flat::Choice {
            at,
            branches,
            rest,
            ..
        } => {
            if *at == rank {
                one(alloc, Outcome::Other)
            } else if takes_part_among(branches, held, rank) {
                let here = firsts_among(alloc, branches, held, rank)?;
                let behind = firsts(alloc, rest, held, rank)?;
                or_then(alloc, &here, &behind)
            } else {
                firsts(alloc, rest, held, rank)
            }
        }
        Flat::Looped { body, rest, .. } => {
            if takes_part(body, &Held::Just(false, &*held), rank) {
                let here = firsts(alloc, body, &Held::Just(true, &*held), rank)?;
                let behind = firsts(alloc, rest, held, rank)?;
                or_then(alloc, &here, &behind)
            } else {
                firsts(alloc, rest, held, rank)
            }
        }
        Flat::Again { between } => {
            if held.nth(rank, *between) {
                one(alloc, Outcome::Again)
            } else {
                one(alloc, Outcome::Nothing)
            }
        }
    }
}

/// What the rank finds first in the branches, one branch after the other.
#[cycle(firsts)]
pub fn firsts_among(
    alloc: Global,
    branches: &Branches,
    held: &Held,
    rank: u64,
) -> Result<Vec<Outcome>, NoMemory>
    ensures { IfOk result (λ v. map outcome_of v.items ≡ firsts_among (held_at rank held.now) rank (view_branches branches.now)) }
{
    match branches {
        Branches::None => Ok(Vec::new(alloc)),
        Branches::Branch { first, rest, .. } => {
            let mut list = firsts(alloc, first, held, rank)?;
            let more = firsts_among(alloc, rest, held, rank)?;
            list.extend_from_slice(&more)?;
            Ok(list)
        }
    }
}

fn one(alloc: Global, outcome: Outcome) -> Result<Vec<Outcome>, NoMemory>
    ensures { IfOk result (λ v. v.items ≡ outcome ∷ []) }
{
    let mut list = Vec::new(alloc);
    list.push(outcome)?;
    Ok(list)
}

/// The outcomes, with those of the rest in place of nothing.
fn or_then(alloc: Global, outcomes: &[Outcome], rest: &[Outcome]) -> Result<Vec<Outcome>, NoMemory>
    ensures { IfOk result (λ v. map outcome_of v.items ≡ or_then (map outcome_of outcomes.now) (map outcome_of rest.now)) }
{
    let mut list = Vec::new(alloc);
    for outcome in outcomes {
        match outcome {
            Outcome::Nothing => list.extend_from_slice(rest)?,
            Outcome::Receive { .. } | Outcome::Other | Outcome::Again => list.push(*outcome)?,
        }
    }
    Ok(list)
}
