ghost use Rattle.std.specs.Prelude.{◌≡◌};
ghost use Rattle.pb_core_language.specs.Flat.{can_end, some_can_end, takes_part, takes_part_among};
ghost use Rattle.pb_plain.specs.Loops.{held_at};
ghost use Rattle.pb_plain.specs.View.{view, view_branches};

use crate::{Branches, Flat, Held};

/// Whether the block can end.
#[cycle(ends)]
pub fn can_end(block: &Flat) -> bool
    ensures { result ≡ can_end (view block.now) }
{
    match block {
        Flat::Stop => true,
        Flat::Message { rest, .. } => can_end(rest),
        Flat::Compute { rest, .. } => can_end(rest),
        Flat::Together { rest, .. } => can_end(rest),
        Flat::Choice { branches, rest, .. } => some_can_end(branches) && can_end(rest),
        Flat::Looped { body, rest, .. } => can_end(body) && can_end(rest),
        Flat::Again { .. } => false,
    }
}

/// Whether some branch can end.
#[cycle(ends)]
pub fn some_can_end(branches: &Branches) -> bool
    ensures { result ≡ some_can_end (view_branches branches.now) }
{
    match branches {
        Branches::None => false,
        Branches::Branch { first, rest, .. } => can_end(first) || some_can_end(rest),
    }
}

/// Whether the rank takes part in the block, inside these loops.
#[cycle(takes)]
pub fn takes_part(block: &Flat, held: &Held, rank: u64) -> bool
    ensures { result ≡ takes_part (held_at rank held.now) rank (view block.now) }
{
    match block {
        Flat::Stop => false,
        Flat::Message { from, to, rest, .. } => {
            *from == rank || *to == rank || takes_part(rest, held, rank)
        }
        Flat::Compute { at, rest, .. } => *at == rank || takes_part(rest, held, rank),
        Flat::Together { .. } => true,
        Flat::Choice {
            at,
            branches,
            rest,
            ..
        } => {
            *at == rank || takes_part_among(branches, held, rank) || takes_part(rest, held, rank)
        }
        Flat::Looped { body, rest, .. } => {
            takes_part(body, &Held::Just(false, &*held), rank) || takes_part(rest, held, rank)
        }
        Flat::Again { between } => held.nth(rank, *between),
    }
}

/// Whether the rank takes part in some branch.
#[cycle(takes)]
pub fn takes_part_among(branches: &Branches, held: &Held, rank: u64) -> bool
    ensures { result ≡ takes_part_among (held_at rank held.now) rank (view_branches branches.now) }
{
    match branches {
        Branches::None => false,
        Branches::Branch { first, rest, .. } => {
            takes_part(first, held, rank) || takes_part_among(rest, held, rank)
        }
    }
}
