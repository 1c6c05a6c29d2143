//! The tests of a probe.

ghost use Rattle.std.specs.Prelude.{◌≡◌};
ghost use Rattle.pb_local.specs.Tree.{plain, plain_all};
ghost use Rattle.pb_machine_next.specs.Place.{inside, block_from, head, block_at, tests_of, tests_at};

use crate::place::inside;
use crate::step::Step;
use pb_ctree::{Stmt, Test};

/// The block that a step leads into; no statements where it leads nowhere.
#[tactic(auto, using(crate::proofs::Plains::from_some, crate::proofs::Plains::from_none))]
fn into(list: &[Stmt], step: Step) -> &[Stmt]
    ensures { plain_all result.now ≡ inside step.part (head (block_from step.at (plain_all list.now))) }
{
    if step.at < list.len() {
        inside(&list[step.at], step.part)
    } else {
        &[]
    }
}

/// The block that a path leads to; no statements where it leads nowhere.
fn block<'a>(body: &'a [Stmt], path: &[Step]) -> &'a [Stmt]
    ensures { plain_all result.now ≡ block_at (plain_all body.now) path.now }
{
    let mut inner = body;
    for step in path {
        inner = into(inner, *step);
    }
    inner
}

#[tactic(auto, using(crate::proofs::Plains::choice_tests))]
fn tests_of(stmt: &Stmt) -> &[Test]
    ensures { result.now ≡ tests_of (plain stmt.now) }
{
    match stmt {
        Stmt::Choice { tests, .. } => tests,
        Stmt::If { .. } => &[],
        Stmt::For { .. } => &[],
        Stmt::Own { .. } => &[],
        Stmt::Loop { .. } => &[],
        Stmt::Again { .. } => &[],
        Stmt::Send { .. } => &[],
        Stmt::Recv { .. } => &[],
        Stmt::Run { .. } => &[],
        Stmt::Barrier => &[],
        Stmt::Broadcast { .. } => &[],
        Stmt::Reduce { .. } => &[],
        Stmt::Allreduce { .. } => &[],
    }
}

/// The tests of the choice that is statement `at` of the block that a path leads to; none where no choice stands there.
#[tactic(auto, using(crate::proofs::Plains::from_some, crate::proofs::Plains::from_none))]
pub fn tests_at<'a>(body: &'a [Stmt], path: &[Step], at: usize) -> &'a [Test]
    ensures { result.now ≡ tests_at (plain_all body.now) path.now at }
{
    let list = block(body, path);
    if at < list.len() {
        tests_of(&list[at])
    } else {
        &[]
    }
}
