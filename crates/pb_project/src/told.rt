ghost use Rattle.std.specs.Prelude.{◌≡◌, ◌==◌, Bool, not, pos, length, if◌then◌else◌, IfOk};
ghost use Rattle.pb_local.specs.Tree as L;
ghost use Rattle.pb_local.specs.Tree.{Code, plain, plain_all};
ghost use Rattle.pb_project_piece.specs.Ones.{end_guard};
ghost use Rattle.pb_shape.specs.Places.{peer_of};
ghost use Rattle.pb_shape.specs.Guards.{alone};
ghost use Rattle.pb_shape.specs.Choices.{told_by};
ghost use Rattle.pb_project.specs.Blocks.{parts_now};

use pb_core_language::CoreEnd;
use pb_local::{Relay, Stmt, Test};
use pb_project_piece::{guard_at, peer_of};
use pb_text::NoMemory;
use std::alloc::Global;

fn has_some(relays: &[Relay]) -> bool
    ensures { result ≡ not (length relays.now == 0) }
{
    !relays.is_empty()
}

/// `Own` of 0 and the choice where it has relays, and else the choice alone.
fn told_by(alloc: Global, owns: bool, choice: Stmt) -> Result<Vec<Stmt>, NoMemory>
    ensures { IfOk result (λ v. plain_all v.items ≡ (if owns then L.more (L.own (pos 0)) (alone (plain choice)) else alone (plain choice))) }
{
    let mut list = Vec::new(alloc);
    if owns {
        list.push(Stmt::Own { off: 0 })?;
    }
    list.push(choice)?;
    Ok(list)
}

/// The choice of the rank at an end, with what the others learn it by.
pub fn told_choice(
    alloc: Global,
    kernel: u32,
    at: CoreEnd,
    relays: Vec<Relay>,
    tests: Vec<Test>,
    branches: Vec<Vec<Stmt>>,
) -> Result<Vec<Stmt>, NoMemory>
    ensures { IfOk result (λ v. plain_all v.items ≡ told_by relays.items (L.choice (end_guard at) kernel relays.items (peer_of at) tests.items (parts_now branches.items))) }
{
    let owns = has_some(&relays);
    let choice = Stmt::Choice {
        who: guard_at(at),
        kernel,
        relays,
        from: peer_of(at),
        tests,
        branches,
    };
    let list = told_by(alloc, owns, choice)?;
    Ok(list)
}
