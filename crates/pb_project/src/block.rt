ghost use Rattle.std.specs.Prelude.{◌≡◌, ℕ, map, IfOk, OnOk, None};
ghost use Rattle.pb_core_language.specs.Plain.{plain_block, plain_stmt, branches_of};
ghost use Rattle.pb_core_language.specs.Tree.{Mark, loop, choice};
ghost use Rattle.pb_local.specs.Tree.{plain, plain_all};
ghost use Rattle.pb_project_piece.specs.Adding.{Added};
ghost use Rattle.pb_project.specs.Blocks.{IsStmtOf, IsBlockOf, ArePartsOf, IsLoopOf, IsChoiceOf, known, parts_now};
ghost use Rattle.pb_project.specs.Takers.{AreTakers, back_to};

use crate::around::Around;
use crate::continues::{again, loop_of_continue};
use crate::numbers::{inside, next};
use crate::takers::takers_of;
use crate::told::told_choice;
use pb_core_language::{CoreBlock, CoreEnd, CoreKind, CoreStmt};
use pb_local::Stmt;
use pb_part_areas::Area;
use pb_part_takers::with_loop;
use pb_project_choice::{branches_of, guards_in, relays_of, tests_of};
use pb_project_piece::{Setting, is_somebody, put_one, put_piece, when};
use pb_text::NoMemory;
use std::alloc::Global;

/// Which kernel a choice asks, and at which end.
#[derive(Clone, Copy)]
struct Asked {
    kernel: u32,
    at: CoreEnd,
}

/// What a block is. `count` loops stand before it, and are counted on.
#[cycle(block)]
pub fn block_of(
    block: &CoreBlock,
    alloc: Global,
    setting: &Setting,
    around: &Around,
    count: &mut u32,
) -> Result<Vec<Stmt>, NoMemory>
    ensures { IfOk result (λ v. IsBlockOf (known setting.now.range setting.now.roles setting.now.whole.now around.now.held.now around.now.numbers.now) count.old count.new
        (plain_block block.now).block (plain_all v.items)) }
{
    let mut out = Vec::new(alloc);
    for stmt in &block.list {
        if let Some(id) = loop_of_continue(stmt) {
            out.push(again(id, around))?;
            return Ok(out);
        }
        put_stmt(stmt, alloc, setting, around, count, &mut out)?;
    }
    Ok(out)
}

/// Adds what a statement is that is no continue.
#[cycle(block)]
fn put_stmt(
    stmt: &CoreStmt,
    alloc: Global,
    setting: &Setting,
    around: &Around,
    count: &mut u32,
    out: &mut Vec<Stmt>,
) -> Result<(), NoMemory>
    ensures { OnOk result (back_to (plain_stmt stmt.now).stmt ≡ None → Added out.old.items out.new.items
        (IsStmtOf (known setting.now.range setting.now.roles setting.now.whole.now around.now.held.now around.now.numbers.now) count.old count.new (plain_stmt stmt.now).mark (plain_stmt stmt.now).stmt)) }
{
    match &stmt.what {
        CoreKind::Loop { id, body } => {
            let takers = takers_of(stmt, alloc, setting.whole, around.held)?;
            put_loop(body, alloc, setting, around, *id, takers, count, out)
        }
        CoreKind::Choice {
            kernel,
            at,
            branches,
        } => {
            let takers = takers_of(stmt, alloc, setting.whole, around.held)?;
            let asked = Asked {
                kernel: *kernel,
                at: *at,
            };
            put_choice(branches, alloc, setting, around, asked, &takers, count, out)
        }
        CoreKind::Message { .. }
        | CoreKind::Foreach { .. }
        | CoreKind::Again { .. }
        | CoreKind::Run { .. }
        | CoreKind::Barrier
        | CoreKind::Broadcast { .. }
        | CoreKind::Reduce { .. }
        | CoreKind::Allreduce { .. } => put_piece(stmt, alloc, setting, out),
    }
}

/// Adds a loop, unless nobody takes part in it.
#[cycle(block)]
fn put_loop(
    body: &CoreBlock,
    alloc: Global,
    setting: &Setting,
    around: &Around,
    id: u32,
    takers: Vec<Area>,
    count: &mut u32,
    out: &mut Vec<Stmt>,
) -> Result<(), NoMemory>
    ensures { OnOk result ((m : Mark) → AreTakers setting.now.whole.now around.now.held.now m (loop id (plain_block body.now).mark (plain_block body.now).block) takers.items → Added out.old.items out.new.items
        (IsStmtOf (known setting.now.range setting.now.roles setting.now.whole.now around.now.held.now around.now.numbers.now) count.old count.new m (loop id (plain_block body.now).mark (plain_block body.now).block))) }
{
    let there = is_somebody(alloc, setting, &takers)?;
    if there {
        let guards = guards_in(alloc, &takers, setting.range, setting.roles)?;
        let inner = loop_of(body, alloc, setting, around, id, takers, count)?;
        let first = put_one(alloc, inner)?;
        out.push(when(alloc, guards, first))?;
    }
    Ok(())
}

/// A loop with the next number, of which these ranks take part.
#[cycle(block)]
fn loop_of(
    body: &CoreBlock,
    alloc: Global,
    setting: &Setting,
    around: &Around,
    id: u32,
    takers: Vec<Area>,
    count: &mut u32,
) -> Result<Stmt, NoMemory>
    ensures { IfOk result (λ s. IsLoopOf (known setting.now.range setting.now.roles setting.now.whole.now around.now.held.now around.now.numbers.now) id takers.items count.old count.new
        (plain_block body.now).block (plain s)) }
{
    let number = next(count)?;
    let held = with_loop(alloc, around.held, id, takers)?;
    let numbers = inside(alloc, number, around.numbers)?;
    let inner = Around {
        held: &held,
        numbers: &numbers,
    };
    let body = block_of(body, alloc, setting, &inner, count)?;
    Ok(Stmt::Loop { id: number, body })
}

/// What the branches are.
#[cycle(block)]
fn parts_of(
    branches: &[CoreBlock],
    alloc: Global,
    setting: &Setting,
    around: &Around,
    count: &mut u32,
) -> Result<Vec<Vec<Stmt>>, NoMemory>
    ensures { IfOk result (λ v. ArePartsOf (known setting.now.range setting.now.roles setting.now.whole.now around.now.held.now around.now.numbers.now) count.old count.new
        (branches_of (map plain_block branches.now)) (parts_now v.items)) }
{
    let mut parts = Vec::new(alloc);
    for branch in branches {
        let part = block_of(branch, alloc, setting, around, count)?;
        parts.push(part)?;
    }
    Ok(parts)
}

/// What a choice is to those that take part in it.
#[cycle(block)]
fn choice_of(
    branches: &[CoreBlock],
    alloc: Global,
    setting: &Setting,
    around: &Around,
    asked: Asked,
    count: &mut u32,
) -> Result<Vec<Stmt>, NoMemory>
    ensures { IfOk result (λ v. IsChoiceOf (known setting.now.range setting.now.roles setting.now.whole.now around.now.held.now around.now.numbers.now) asked.kernel asked.at count.old count.new
        (branches_of (map plain_block branches.now)) (plain_all v.items)) }
{
    let found = branches_of(branches, alloc, setting.whole, around.held)?;
    let tests = tests_of(alloc, setting, &found)?;
    let relays = relays_of(alloc, setting, asked.at, &found, &tests)?;
    let parts = parts_of(branches, alloc, setting, around, count)?;
    let list = told_choice(alloc, asked.kernel, asked.at, relays, tests, parts)?;
    Ok(list)
}

/// Adds a choice, unless nobody takes part in it.
#[cycle(block)]
fn put_choice(
    branches: &[CoreBlock],
    alloc: Global,
    setting: &Setting,
    around: &Around,
    asked: Asked,
    takers: &[Area],
    count: &mut u32,
    out: &mut Vec<Stmt>,
) -> Result<(), NoMemory>
    ensures { OnOk result ((m : Mark) → AreTakers setting.now.whole.now around.now.held.now m (choice asked.kernel asked.at (branches_of (map plain_block branches.now))) takers.now → Added out.old.items out.new.items
        (IsStmtOf (known setting.now.range setting.now.roles setting.now.whole.now around.now.held.now around.now.numbers.now) count.old count.new m (choice asked.kernel asked.at (branches_of (map plain_block branches.now))))) }
{
    let there = is_somebody(alloc, setting, takers)?;
    if there {
        let first = choice_of(branches, alloc, setting, around, asked, count)?;
        let guards = guards_in(alloc, takers, setting.range, setting.roles)?;
        out.push(when(alloc, guards, first))?;
    }
    Ok(())
}
