ghost use Rattle.std.specs.Prelude.{◌≡◌, ◌++◌, [], ◌∷◌, map, OnOk, IfOk};
ghost use Rattle.pb_do_syntax.specs.Calls.{branches_of};
ghost use Rattle.pb_do_syntax.specs.Plain.{plain_block, plain_statement, plain_sub};
ghost use Rattle.pb_do_faults.specs.CallSites.{call_site, calls_at, calls_in, calls_among, bodies_of};
ghost use Rattle.pb_do_faults.specs.Found.{body_calls};

use crate::call_site::{Body, CallSite};
use pb_do_syntax::{CallBlock, CallStatement, CallTree};
use pb_text::{Names, NoMemory, Spot};
use std::alloc::Global;

fn call_site(sub: &Spot, args: &[Spot], names: &Names) -> CallSite
    ensures { result ≡ call_site names.now sub.now args.now }
{
    CallSite {
        callee: names.find(&sub.name),
        args: args.len(),
        place: sub.place,
    }
}

#[cycle(collect)]
fn add_calls_in(block: &CallBlock, names: &Names, out: &mut Vec<CallSite>) -> Result<(), NoMemory>
    ensures { OnOk result (out.new.items ≡ out.old.items ++ calls_in names.now (plain_block block.now).list) }
{
    for statement in &block.list {
        add_calls_at(statement, names, out)?;
    }
    Ok(())
}

#[cycle(collect)]
fn add_calls_among(
    branches: &[CallBlock],
    names: &Names,
    out: &mut Vec<CallSite>,
) -> Result<(), NoMemory>
    ensures { OnOk result (out.new.items ≡ out.old.items ++ calls_among names.now (branches_of (map plain_block branches.now))) }
{
    for branch in branches {
        add_calls_in(branch, names, out)?;
    }
    Ok(())
}

#[cycle(collect)]
fn add_calls_at(
    statement: &CallStatement,
    names: &Names,
    out: &mut Vec<CallSite>,
) -> Result<(), NoMemory>
    ensures { OnOk result (out.new.items ≡ out.old.items ++ calls_at names.now (plain_statement statement.now)) }
{
    match statement {
        CallStatement::Do { sub, args, .. } => {
            out.push(call_site(sub, args, names))?;
            Ok(())
        }
        CallStatement::Foreach { items, .. } => add_calls_in(items, names, out),
        CallStatement::Rec { body, .. } => add_calls_in(body, names, out),
        CallStatement::Choice { branches, .. } => add_calls_among(branches, names, out),
        CallStatement::Message { .. }
        | CallStatement::Continue { .. }
        | CallStatement::Compute { .. }
        | CallStatement::Barrier { .. }
        | CallStatement::Broadcast { .. }
        | CallStatement::Reduce { .. }
        | CallStatement::Allreduce { .. } => Ok(()),
    }
}

fn body_of(alloc: Global, block: &CallBlock, names: &Names) -> Result<Body, NoMemory>
    ensures { IfOk result (λ body. body.calls.items ≡ calls_in names.now (plain_block block.now).list) }
{
    let mut calls = Vec::new(alloc);
    add_calls_in(block, names, &mut calls)?;
    Ok(Body { calls })
}

/// The calls of each subprotocol, and last those of the protocol. The table has the names of the subprotocols.
pub fn collected_calls(
    alloc: Global,
    calls: &CallTree,
    names: &Names,
) -> Result<Vec<Body>, NoMemory>
    ensures { IfOk result (λ list. map body_calls list.items ≡ bodies_of names.now (map plain_sub calls.now.subs.items) ++ (calls_in names.now (plain_block calls.now.body).list ∷ [])) }
{
    let mut list = Vec::new(alloc);
    for sub in &calls.subs {
        list.push(body_of(alloc, &sub.body, names)?)?;
    }
    list.push(body_of(alloc, &calls.body, names)?)?;
    Ok(list)
}
