ghost use Rattle.std.specs.Prelude.{◌≡◌, ◌++◌, ◌+ℤ◌, [], ◌∷◌, pos, true, map, OnOk, IfOk};
ghost use Rattle.pb_affine.specs.Values.{shifted};
ghost use Rattle.pb_core_language.specs.Plain.{plain, plain_block, plain_stmt, branches_of};
ghost use Rattle.pb_core_language.specs.Cuts.{edges, end_cuts, stmt_cuts, block_cuts, branches_cuts, role_cuts, cuts};
ghost use Rattle.pb_rules.specs.CutLists.{is_cut, are_cuts, lin_of, listed, HaveSame, AreApart};

use crate::offsets::Offsets;
use pb_affine::{Base, Lin};
use pb_core_language::{Bounds, Core, CoreBlock, CoreEnd, CoreKind, CoreRole, CoreStmt};
use pb_text::NoMemory;
use std::alloc::Global;

/// A lin whose offset may be out of bounds.
#[derive(Clone, Copy)]
pub struct Wide {
    pub base: Base,
    pub off: i64,
}

/// The cuts of the protocol, of the roles, the ends and the foreaches, each once. Takes time in proportion to the
/// statements.
pub fn cuts_of(alloc: Global, core: &Core) -> Result<Vec<Lin>, NoMemory>
    requires { are_cuts (cuts (plain core.now)) ≡ true }
    ensures same { IfOk result (λ v. HaveSame v.items (cuts (plain core.now))) }
    ensures once { IfOk result (λ v. AreApart v.items) }
{
    let mut wide = Vec::new(alloc);
    add_roles(&core.roles, &mut wide)?;
    add_block(&core.body, None, &mut wide)?;
    let offsets = offsets_of(alloc, &wide)?;
    offsets.cuts(alloc)
}

#[tactic(auto, using(crate::proofs::CutSteps::cuts_both, crate::proofs::CutSets::nothing_listed))]
fn offsets_of(alloc: Global, wide: &[Wide]) -> Result<Offsets, NoMemory>
    requires { are_cuts (map lin_of wide.now) ≡ true }
    ensures { IfOk result (λ offsets. HaveSame (listed offsets) (map lin_of wide.now)) }
{
    let mut offsets = Offsets::new(alloc);
    for one in wide {
        offsets.add(narrow(*one))?;
    }
    Ok(offsets)
}

fn narrow(one: Wide) -> Lin
    requires { is_cut (lin_of one) ≡ true }
    ensures { result ≡ lin_of one }
{
    Lin {
        base: one.base,
        off: one.off as i32,
    }
}

fn add_roles(roles: &[CoreRole], out: &mut Vec<Wide>) -> Result<(), NoMemory>
    ensures { OnOk result (map lin_of out.new.items ≡ map lin_of out.old.items ++ role_cuts roles.now) }
{
    for role in roles {
        add_edges(role.low, role.high, out)?;
    }
    Ok(())
}

#[tactic(auto, using(crate::proofs::CutSteps::pushed_one))]
fn add_cut(base: Base, off: i64, out: &mut Vec<Wide>) -> Result<(), NoMemory>
    ensures { OnOk result (map lin_of out.new.items ≡ map lin_of out.old.items ++ record { base = base; off = off } ∷ []) }
{
    out.push(Wide { base, off })?;
    Ok(())
}

// Adds the low end and the one behind the high end.
fn add_edges(low: Lin, high: Lin, out: &mut Vec<Wide>) -> Result<(), NoMemory>
    ensures { OnOk result (map lin_of out.new.items ≡ map lin_of out.old.items ++ edges low high) }
{
    add_cut(low.base, plain_off(low.off), out)?;
    add_cut(high.base, next_off(high.off), out)
}

// The same with the offset of `at` added to both.
fn add_moved(low: Lin, high: Lin, at: Lin, out: &mut Vec<Wide>) -> Result<(), NoMemory>
    ensures { OnOk result (map lin_of out.new.items ≡ map lin_of out.old.items ++ edges (shifted low at.off) (shifted high at.off)) }
{
    add_cut(low.base, moved_off(low, at), out)?;
    add_cut(high.base, next_moved_off(high, at), out)
}

fn plain_off(off: i32) -> i64
    ensures { result ≡ off }
{
    i64::from(off)
}

fn next_off(off: i32) -> i64
    ensures { result ≡ off +ℤ pos 1 }
{
    i64::from(off) + 1
}

fn moved_off(lin: Lin, at: Lin) -> i64
    ensures { result ≡ lin.off +ℤ at.off }
{
    i64::from(lin.off) + i64::from(at.off)
}

fn next_moved_off(lin: Lin, at: Lin) -> i64
    ensures { result ≡ lin.off +ℤ at.off +ℤ pos 1 }
{
    i64::from(lin.off) + i64::from(at.off) + 1
}

fn add_end(end: &CoreEnd, over: Option<Bounds>, out: &mut Vec<Wide>) -> Result<(), NoMemory>
    ensures { OnOk result (map lin_of out.new.items ≡ map lin_of out.old.items ++ end_cuts over end.now) }
{
    match end.at.base {
        Base::Fixed | Base::Param => add_edges(end.at, end.at, out),
        Base::Var => match over {
            None => Ok(()),
            Some(over) => add_moved(over.low, over.high, end.at, out),
        },
    }
}

#[cycle(cut_walk)]
fn add_block(block: &CoreBlock, over: Option<Bounds>, out: &mut Vec<Wide>) -> Result<(), NoMemory>
    ensures { OnOk result (map lin_of out.new.items ≡ map lin_of out.old.items ++ block_cuts over (plain_block block.now).block) }
{
    for statement in &block.list {
        add_stmt(statement, over, out)?;
    }
    Ok(())
}

#[cycle(cut_walk)]
fn add_branches(
    branches: &[CoreBlock],
    over: Option<Bounds>,
    out: &mut Vec<Wide>,
) -> Result<(), NoMemory>
    ensures { OnOk result (map lin_of out.new.items ≡ map lin_of out.old.items ++ branches_cuts over (branches_of (map plain_block branches.now))) }
{
    for branch in branches {
        add_block(branch, over, out)?;
    }
    Ok(())
}

#[cycle(cut_walk)]
fn add_stmt(statement: &CoreStmt, over: Option<Bounds>, out: &mut Vec<Wide>) -> Result<(), NoMemory>
    ensures { OnOk result (map lin_of out.new.items ≡ map lin_of out.old.items ++ stmt_cuts over (plain_stmt statement.now).stmt) }
{
    match &statement.what {
        CoreKind::Message { from, to, .. } => add_ends(from, to, over, out),
        CoreKind::Foreach { low, high, items } => {
            let inside = Bounds {
                low: *low,
                high: *high,
            };
            add_edges(*low, *high, out)?;
            add_block(items, Some(inside), out)
        }
        CoreKind::Loop { body, .. } => add_block(body, over, out),
        CoreKind::Choice { at, branches, .. } => {
            add_end(at, over, out)?;
            add_branches(branches, over, out)
        }
        CoreKind::Run { at, .. } => add_end(at, over, out),
        CoreKind::Broadcast { root, .. } => add_end(root, over, out),
        CoreKind::Reduce { root, .. } => add_end(root, over, out),
        CoreKind::Again { .. } | CoreKind::Barrier | CoreKind::Allreduce { .. } => Ok(()),
    }
}

fn add_ends(
    from: &CoreEnd,
    to: &CoreEnd,
    over: Option<Bounds>,
    out: &mut Vec<Wide>,
) -> Result<(), NoMemory>
    ensures { OnOk result (map lin_of out.new.items ≡ map lin_of out.old.items ++ (end_cuts over from.now ++ end_cuts over to.now)) }
{
    add_end(from, over, out)?;
    add_end(to, over, out)
}
