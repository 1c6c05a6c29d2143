ghost use Rattle.std.specs.Prelude.{◌≡◌, [], ◌∷◌, ◌++◌, map, if◌then◌else◌, ◌&&◌, not, IfOk};
ghost use Rattle.pb_core_language.specs.Rules.{misfits, misfits_among};
ghost use Rattle.pb_plain.specs.Finds.{outcome_of};
ghost use Rattle.pb_plain.specs.Loops.{held_at};
ghost use Rattle.pb_plain.specs.View.{view, view_branches, mark_of};
ghost use Rattle.pb_plain_rules.specs.Fits.{fits};

use crate::tell_rule::joined;
use crate::{Branches, Flat, Held, Mark, NoMemory, Outcome, TellRule};
use pb_plain::{firsts, takes_part, takes_part_among};
use std::alloc::Global;

/// The branches in which what the rank finds first breaks the rule, in the order of the file.
#[cycle(misfits)]
pub fn misfits(
    alloc: Global,
    block: &Flat,
    rule: TellRule,
    held: &Held,
    rank: u64,
) -> Result<Vec<Mark>, NoMemory>
    ensures { IfOk result (λ v. map mark_of v.items ≡ misfits (fits rule) (held_at rank held.now) rank (view block.now)) }
{
    match block {
        Flat::Stop => Ok(Vec::new(alloc)),
        Flat::Message { rest, .. } => misfits(alloc, rest, rule, held, rank),
        Flat::Compute { rest, .. } => misfits(alloc, rest, rule, held, rank),
        Flat::Together { rest, .. } => misfits(alloc, rest, rule, held, rank),
        Flat::Choice {
            at,
            branches,
            rest,
            ..
        } => {
            let is_told = *at != rank && takes_part_among(branches, held, rank);
            let here = misfits_among(alloc, branches, rule, held, rank, is_told, &[])?;
            let behind = misfits(alloc, rest, rule, held, rank)?;
            both(here, &behind)
        }
        Flat::Looped { body, rest, .. } => {
            let is_in = takes_part(body, &Held::Just(false, &*held), rank);
            let inside = misfits(alloc, body, rule, &Held::Just(is_in, &*held), rank)?;
            let behind = misfits(alloc, rest, rule, held, rank)?;
            both(inside, &behind)
        }
        Flat::Again { .. } => Ok(Vec::new(alloc)),
    }
}

/// Those of these branches, and of all in them. `before` is what the rank finds first in the branches before.
#[cycle(misfits)]
fn misfits_among(
    alloc: Global,
    branches: &Branches,
    rule: TellRule,
    held: &Held,
    rank: u64,
    is_told: bool,
    before: &[Outcome],
) -> Result<Vec<Mark>, NoMemory>
    ensures { IfOk result (λ v. map mark_of v.items ≡ misfits_among (fits rule) (held_at rank held.now) rank is_told (map outcome_of before.now) (view_branches branches.now)) }
{
    match branches {
        Branches::None => Ok(Vec::new(alloc)),
        Branches::Branch { mark, first, rest } => {
            let here = firsts(alloc, first, held, rank)?;
            let own = own_misfit(alloc, *mark, rule, is_told, before, &here)?;
            let inside = misfits(alloc, first, rule, held, rank)?;
            let seen = joined(alloc, before, &here)?;
            let later = misfits_among(alloc, rest, rule, held, rank, is_told, &seen)?;
            let deeper = both(inside, &later)?;
            both(own, &deeper)
        }
    }
}

/// The branch's mark, where the rank is told and what it finds first doesn't fit.
fn own_misfit(
    alloc: Global,
    mark: Mark,
    rule: TellRule,
    is_told: bool,
    before: &[Outcome],
    here: &[Outcome],
) -> Result<Vec<Mark>, NoMemory>
    ensures { IfOk result (λ v. map mark_of v.items ≡ (if is_told && not (fits rule (map outcome_of before.now) (map outcome_of here.now)) then mark_of mark ∷ [] else [])) }
{
    let is_fine = rule.fits(alloc, before, here)?;
    mark_if(alloc, mark, is_told && !is_fine)
}

fn mark_if(alloc: Global, mark: Mark, is_wanted: bool) -> Result<Vec<Mark>, NoMemory>
    ensures { IfOk result (λ v. map mark_of v.items ≡ (if is_wanted then mark_of mark ∷ [] else [])) }
{
    let mut list = Vec::new(alloc);
    if is_wanted {
        list.push(mark)?;
    }
    Ok(list)
}

fn both(mut list: Vec<Mark>, more: &[Mark]) -> Result<Vec<Mark>, NoMemory>
    ensures { IfOk result (λ v. map mark_of v.items ≡ map mark_of list.items ++ map mark_of more.now) }
{
    list.extend_from_slice(more)?;
    Ok(list)
}
