ghost use Rattle.std.specs.Prelude.{◌≡◌, None, map};
ghost use Rattle.pb_local.specs.Tree.{plain, plain_all, parts_of};
ghost use Rattle.pb_machine_next.specs.Place.{inside, part_at, found, nowhere, at_or, round_or, better, block_from, head, loop_or, looped};
ghost use Rattle.pb_machine_next.specs.Shown.{found_in};

use crate::step::Step;
use pb_ctree::{Lin, Stmt};

/// Block `part` of the statement; no statements where it has no such block.
#[tactic(auto, using(crate::proofs::Plains::of_choice))]
pub fn inside(stmt: &Stmt, part: usize) -> &[Stmt]
    ensures { plain_all result.now ≡ inside part (plain stmt.now) }
{
    match stmt {
        Stmt::If { first, other, .. } => { if part == 0 { first } else { other } }
        Stmt::For { body, .. } => body,
        Stmt::Loop { body, .. } => body,
        Stmt::Choice { branches, .. } => branch(branches, part),
        Stmt::Own { .. } => &[],
        Stmt::Again { .. } => &[],
        Stmt::Send { .. } => &[],
        Stmt::Recv { .. } => &[],
        Stmt::Run { .. } => &[],
        Stmt::Barrier => &[],
        Stmt::Broadcast { .. } => &[],
        Stmt::Reduce { .. } => &[],
        Stmt::Allreduce { .. } => &[],
    }
}

#[tactic(auto, using(crate::proofs::Plains::part_some, crate::proofs::Plains::part_none))]
fn branch(branches: &[Vec<Stmt>], part: usize) -> &[Stmt]
    ensures { plain_all result.now ≡ part_at part (parts_of (map (λ v. map plain v.items) branches.now)) }
{
    if part < branches.len() {
        &branches[part]
    } else {
        &[]
    }
}

/// Where a rank stands.
#[derive(Clone, Copy)]
pub enum Place<'a> {
    /// No statement is left.
    Nowhere,
    /// At statement `at` of the block at this depth of the path.
    At {
        depth: usize,
        at: usize,
        after: usize,
        stmt: &'a Stmt,
    },
    /// Behind a round of the For in front of `after`, in the block at this depth of the path.
    Round {
        depth: usize,
        after: usize,
        high: Lin,
    },
}

#[tactic(auto, using(crate::proofs::Plains::from_some, crate::proofs::Plains::from_none))]
fn at_or<'a>(list: &'a [Stmt], at: usize, depth: usize, best: Place<'a>) -> Place<'a>
    ensures { found_in result ≡ at_or depth at (found_in best.entry) (block_from at (plain_all list.now)) }
{
    if at < list.len() {
        Place::At {
            depth,
            at,
            after: at + 1,
            stmt: &list[at],
        }
    } else {
        best
    }
}

fn round_or<'a>(stmt: &Stmt, after: usize, depth: usize, best: Place<'a>) -> Place<'a>
    ensures { found_in result ≡ round_or depth after (found_in best.entry) (plain stmt.now) }
{
    match stmt {
        Stmt::For { high, .. } => Place::Round {
            depth,
            after,
            high: *high,
        },
        Stmt::If { .. } => best,
        Stmt::Own { .. } => best,
        Stmt::Loop { .. } => best,
        Stmt::Again { .. } => best,
        Stmt::Choice { .. } => best,
        Stmt::Send { .. } => best,
        Stmt::Recv { .. } => best,
        Stmt::Run { .. } => best,
        Stmt::Barrier => best,
        Stmt::Broadcast { .. } => best,
        Stmt::Reduce { .. } => best,
        Stmt::Allreduce { .. } => best,
    }
}

/// The block that a step leads into, and the best place that is known then.
#[tactic(auto, using(crate::proofs::Plains::from_some, crate::proofs::Plains::from_none))]
fn enter<'a>(list: &'a [Stmt], step: Step, depth: usize, best: Place<'a>) -> (&'a [Stmt], Place<'a>)
    ensures inner { plain_all result.0.now ≡ inside step.part (head (block_from step.at (plain_all list.now))) }
    ensures best { found_in result.1 ≡ better (plain_all list.now) step depth (found_in best.entry) }
{
    let at = step.at;
    if at < list.len() {
        let best = at_or(list, at + 1, depth, best);
        let stmt = &list[at];
        (inside(stmt, step.part), round_or(stmt, at + 1, depth, best))
    } else {
        (&[], best)
    }
}

/// The place that a path leads to: the next statement of the innermost block that has one left, or the end of a round.
pub fn find<'a>(body: &'a [Stmt], path: &[Step], at: usize) -> Place<'a>
    ensures { found_in result ≡ found (plain_all body.now) path.now 0 at nowhere }
{
    let mut inner = body;
    let mut best = Place::Nowhere;
    let mut depth = 0usize;
    for step in path {
        let (list, place) = enter(inner, *step, depth, best);
        inner = list;
        best = place;
        depth += 1;
    }
    at_or(inner, at, depth, best)
}

fn loop_or(stmt: &Stmt, id: u32, depth: usize, best: Option<usize>) -> Option<usize>
    ensures { result ≡ loop_or id depth best (plain stmt.now) }
{
    match stmt {
        Stmt::Loop { id: number, .. } => { if id == *number { Some(depth) } else { best } }
        Stmt::If { .. } => best,
        Stmt::For { .. } => best,
        Stmt::Own { .. } => best,
        Stmt::Again { .. } => best,
        Stmt::Choice { .. } => best,
        Stmt::Send { .. } => best,
        Stmt::Recv { .. } => best,
        Stmt::Run { .. } => best,
        Stmt::Barrier => best,
        Stmt::Broadcast { .. } => best,
        Stmt::Reduce { .. } => best,
        Stmt::Allreduce { .. } => best,
    }
}

#[tactic(auto, using(crate::proofs::Plains::from_some, crate::proofs::Plains::from_none))]
fn enter_loop<'a>(
    list: &'a [Stmt],
    step: Step,
    id: u32,
    depth: usize,
    best: Option<usize>,
) -> (&'a [Stmt], Option<usize>)
    ensures inner { plain_all result.0.now ≡ inside step.part (head (block_from step.at (plain_all list.now))) }
    ensures best { result.1 ≡ loop_or id depth best (head (block_from step.at (plain_all list.now))) }
{
    let at = step.at;
    if at < list.len() {
        let stmt = &list[at];
        (inside(stmt, step.part), loop_or(stmt, id, depth, best))
    } else {
        (&[], best)
    }
}

/// The depth of the body of the innermost loop with this number on the path.
pub fn find_loop(body: &[Stmt], path: &[Step], id: u32) -> Option<usize>
    ensures { result ≡ looped (plain_all body.now) path.now id 0 None }
{
    let mut inner = body;
    let mut best = None;
    let mut depth = 0usize;
    for step in path {
        depth += 1;
        let (list, place) = enter_loop(inner, *step, id, depth, best);
        inner = list;
        best = place;
    }
    best
}
