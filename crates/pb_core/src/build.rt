ghost use Rattle.std.specs.Prelude.{◌≡◌, ◌<◌, ◌+◌, ◌-◌, ◌^◌, suc, map, IfOk, OnOk};
ghost use Rattle.pb_syntax.specs.Plain as F;
ghost use Rattle.pb_syntax.specs.Tree.{statements_of, branches_of};
ghost use Rattle.pb_core_language.specs.FileRules.{place_of};
ghost use Rattle.pb_core_language.specs.Plain as P;
ghost use Rattle.pb_core_language.specs.Tree as T;
ghost use Rattle.pb_core_language.specs.Meaning as M;
ghost use Rattle.pb_core.specs.Building.{table_of, open_of, stmt_with, block_with, message_tree, message_stmts, message_blocks};

use crate::ends::{end_of, lin_of};
use crate::loops::Loops;
use crate::tables::Tables;
use pb_core_file_rules::place_of;
use pb_core_language::{CoreBlock, CoreKind, CoreStmt};
use pb_syntax::{Block, End, IndexText, NoMemory, RangeText, Statement};
use pb_text::Spot;
use std::alloc::Global;

/// How many statements and blocks have a number.
#[derive(Clone, Copy)]
pub struct Counts {
    pub statements: u32,
    pub blocks: u32,
}

fn next(number: u32) -> u32
    requires { number < 2 ^ 32 - 1 }
    ensures { result ≡ suc number }
{
    number + 1
}

/// The block, with numbers from the counts on.
#[cycle(build)]
pub fn build_block(
    alloc: Global,
    block: &Block,
    tables: &Tables,
    loops: &Loops,
    counts: &mut Counts,
) -> Result<CoreBlock, NoMemory>
    requires statements { counts.old.statements + M.stmts_in (F.plain_block block.now).list < 2 ^ 32 }
    requires blocks { counts.old.blocks + (1 + M.blocks_in (F.plain_block block.now).list) < 2 ^ 32 }
    ensures block { IfOk result (λ b. P.plain_block b ≡ block_with (table_of tables.now) (open_of loops.now) counts.old.statements counts.old.blocks (F.plain_block block.now)) }
    ensures statements { OnOk result (counts.new.statements ≡ counts.old.statements + M.stmts_in (F.plain_block block.now).list) }
    ensures blocks { OnOk result (counts.new.blocks ≡ counts.old.blocks + (1 + M.blocks_in (F.plain_block block.now).list)) }
{
    let number = counts.blocks;
    counts.blocks = next(number);
    let list = build_list(alloc, &block.list, tables, loops, counts)?;
    Ok(CoreBlock {
        number,
        place: block.place,
        list,
    })
}

#[cycle(build)]
fn build_list(
    alloc: Global,
    list: &[Statement],
    tables: &Tables,
    loops: &Loops,
    counts: &mut Counts,
) -> Result<Vec<CoreStmt>, NoMemory>
    requires statements { counts.old.statements + M.stmts_in (statements_of (map F.plain_statement list.now)) < 2 ^ 32 }
    requires blocks { counts.old.blocks + M.blocks_in (statements_of (map F.plain_statement list.now)) < 2 ^ 32 }
    ensures list { IfOk result (λ v. P.block_of (map P.plain_stmt v.items) ≡ M.block_of (table_of tables.now) (open_of loops.now) counts.old.statements counts.old.blocks (statements_of (map F.plain_statement list.now))) }
    ensures statements { OnOk result (counts.new.statements ≡ counts.old.statements + M.stmts_in (statements_of (map F.plain_statement list.now))) }
    ensures blocks { OnOk result (counts.new.blocks ≡ counts.old.blocks + M.blocks_in (statements_of (map F.plain_statement list.now))) }
{
    let mut built = Vec::new(alloc);
    for statement in list {
        let one = build_statement(alloc, statement, tables, loops, counts)?;
        built.push(one)?;
    }
    Ok(built)
}

#[cycle(build)]
fn build_branches(
    alloc: Global,
    branches: &[Block],
    tables: &Tables,
    loops: &Loops,
    counts: &mut Counts,
) -> Result<Vec<CoreBlock>, NoMemory>
    requires statements { counts.old.statements + M.stmts_among (branches_of (map F.plain_block branches.now)) < 2 ^ 32 }
    requires blocks { counts.old.blocks + M.blocks_among (branches_of (map F.plain_block branches.now)) < 2 ^ 32 }
    ensures list { IfOk result (λ v. P.branches_of (map P.plain_block v.items) ≡ M.branches_of (table_of tables.now) (open_of loops.now) counts.old.statements counts.old.blocks (branches_of (map F.plain_block branches.now))) }
    ensures statements { OnOk result (counts.new.statements ≡ counts.old.statements + M.stmts_among (branches_of (map F.plain_block branches.now))) }
    ensures blocks { OnOk result (counts.new.blocks ≡ counts.old.blocks + M.blocks_among (branches_of (map F.plain_block branches.now))) }
{
    let mut built = Vec::new(alloc);
    for branch in branches {
        let one = build_block(alloc, branch, tables, loops, counts)?;
        built.push(one)?;
    }
    Ok(built)
}

#[cycle(build)]
fn build_statement(
    alloc: Global,
    statement: &Statement,
    tables: &Tables,
    loops: &Loops,
    counts: &mut Counts,
) -> Result<CoreStmt, NoMemory>
    requires statements { counts.old.statements + M.stmts_at (F.plain_statement statement.now) < 2 ^ 32 }
    requires blocks { counts.old.blocks + M.blocks_at (F.plain_statement statement.now) < 2 ^ 32 }
    ensures stmt { IfOk result (λ s. P.plain_stmt s ≡ stmt_with (table_of tables.now) (open_of loops.now) counts.old.statements counts.old.blocks (F.plain_statement statement.now)) }
    ensures statements { OnOk result (counts.new.statements ≡ counts.old.statements + M.stmts_at (F.plain_statement statement.now)) }
    ensures blocks { OnOk result (counts.new.blocks ≡ counts.old.blocks + M.blocks_at (F.plain_statement statement.now)) }
{
    let number = counts.statements;
    counts.statements = next(number);
    match statement {
        Statement::Message {
            label,
            from,
            to,
            ..
        } => {
            let what = build_message(alloc, label, from, to, number, tables, counts)?;
            Ok(numbered(number, statement, what))
        }
        Statement::Foreach { range, items, .. } => {
            let items = build_block(alloc, items, tables, loops, counts)?;
            Ok(numbered(number, statement, foreach(range, items, tables)))
        }
        Statement::Rec { name, body, .. } => {
            let inside = Loops::Inside(name.name, number, &*loops);
            let body = build_block(alloc, body, tables, &inside, counts)?;
            Ok(numbered(number, statement, CoreKind::Loop { id: number, body }))
        }
        Statement::Continue { name, .. } => {
            let id = loops.id(&name.name);
            Ok(numbered(number, statement, CoreKind::Again { id }))
        }
        Statement::Choice {
            kernel,
            at,
            branches,
            ..
        } => {
            let branches = build_branches(alloc, branches, tables, loops, counts)?;
            Ok(numbered(number, statement, choice(kernel, at, branches, tables)))
        }
        Statement::Compute { kernel, at, .. } => {
            let kernel = tables.kernels.find(&kernel.name);
            let at = end_of(at, tables);
            Ok(numbered(number, statement, CoreKind::Run { kernel, at }))
        }
        Statement::Barrier { .. } => Ok(numbered(number, statement, CoreKind::Barrier)),
        Statement::Broadcast { label, from, .. } => {
            let label = tables.labels.find(&label.name);
            let root = end_of(from, tables);
            Ok(numbered(number, statement, CoreKind::Broadcast { label, root }))
        }
        Statement::Reduce { label, op, to, .. } => {
            let label = tables.labels.find(&label.name);
            let root = end_of(to, tables);
            let op = *op;
            Ok(numbered(number, statement, CoreKind::Reduce { label, op, root }))
        }
        Statement::Allreduce { label, op, .. } => {
            let label = tables.labels.find(&label.name);
            let op = *op;
            Ok(numbered(number, statement, CoreKind::Allreduce { label, op }))
        }
    }
}

fn numbered(number: u32, statement: &Statement, what: CoreKind) -> CoreStmt
    ensures { P.plain_stmt result ≡ record { mark = M.mark number (place_of (F.plain_statement statement.now)); stmt = P.plain_kind what } }
{
    CoreStmt {
        number,
        place: place_of(statement),
        what,
    }
}

fn foreach(range: &RangeText, items: CoreBlock, tables: &Tables) -> CoreKind
    ensures { P.plain_kind result ≡ T.foreach (M.bounds_of tables.now.constant.now range.now) (P.plain_block items).mark (P.plain_block items).block }
{
    CoreKind::Foreach {
        low: lin_of(&range.low, tables.constant),
        high: lin_of(&range.high, tables.constant),
        items,
    }
}

fn choice(kernel: &Spot, at: &End, branches: Vec<CoreBlock>, tables: &Tables) -> CoreKind
    ensures { P.plain_kind result ≡ T.choice (M.position_of kernel.now.name tables.now.kernels.now.names) (M.end_of (table_of tables.now) at.now) (P.branches_of (map P.plain_block branches.items)) }
{
    CoreKind::Choice {
        kernel: tables.kernels.find(&kernel.name),
        at: end_of(at, tables),
        branches,
    }
}

fn message(label: &Spot, from: &End, to: &End, tables: &Tables) -> CoreKind
    ensures { P.plain_kind result ≡ M.message_of (table_of tables.now) label.now from.now to.now }
{
    CoreKind::Message {
        label: tables.labels.find(&label.name),
        from: end_of(from, tables),
        to: end_of(to, tables),
    }
}

// A message with its number, or a foreach over it where one of its ends binds a variable.
fn build_message(
    alloc: Global,
    label: &Spot,
    from: &End,
    to: &End,
    number: u32,
    tables: &Tables,
    counts: &mut Counts,
) -> Result<CoreKind, NoMemory>
    requires next { counts.old.statements ≡ suc number }
    requires statements { number + message_stmts from.now to.now < 2 ^ 32 }
    requires blocks { counts.old.blocks + message_blocks from.now to.now < 2 ^ 32 }
    ensures kind { IfOk result (λ k. P.plain_kind k ≡ message_tree (table_of tables.now) number counts.old.blocks label.now from.now to.now) }
    ensures statements { OnOk result (counts.new.statements ≡ number + message_stmts from.now to.now) }
    ensures blocks { OnOk result (counts.new.blocks ≡ counts.old.blocks + message_blocks from.now to.now) }
{
    match &from.index {
        IndexText::Bind(_, range) => bound_message(alloc, label, from, to, range, tables, counts),
        IndexText::Zero | IndexText::At(_) => match &to.index {
            IndexText::Bind(_, range) => {
                bound_message(alloc, label, from, to, range, tables, counts)
            }
            IndexText::Zero | IndexText::At(_) => Ok(message(label, from, to, tables)),
        },
    }
}

fn bound_message(
    alloc: Global,
    label: &Spot,
    from: &End,
    to: &End,
    range: &RangeText,
    tables: &Tables,
    counts: &mut Counts,
) -> Result<CoreKind, NoMemory>
    requires statements { counts.old.statements < 2 ^ 32 - 1 }
    requires blocks { counts.old.blocks < 2 ^ 32 - 1 }
    ensures kind { IfOk result (λ k. P.plain_kind k ≡ T.foreach (M.bounds_of tables.now.constant.now range.now) (M.mark counts.old.blocks label.now.place) (T.more (M.mark counts.old.statements label.now.place) (M.message_of (table_of tables.now) label.now from.now to.now) T.nothing)) }
    ensures statements { OnOk result (counts.new.statements ≡ suc counts.old.statements) }
    ensures blocks { OnOk result (counts.new.blocks ≡ suc counts.old.blocks) }
{
    let number = counts.statements;
    counts.statements = next(number);
    let block = counts.blocks;
    counts.blocks = next(block);
    let mut list = Vec::new(alloc);
    list.push(CoreStmt {
        number,
        place: label.place,
        what: message(label, from, to, tables),
    })?;
    let items = CoreBlock {
        number: block,
        place: label.place,
        list,
    };
    Ok(foreach(range, items, tables))
}
