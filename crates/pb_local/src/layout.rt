ghost use Rattle.std.specs.Prelude.{◌≡◌, ◌++◌, ◌+◌, ◌≤◌, ◌<◌, OnOk, IfOk, length};
ghost use Rattle.pb_local.specs.Layout.{statement, statements, else_part, branch_part, choice_lines, layout};
ghost use Rattle.pb_local.specs.Tree.{plain, plain_all, program_of};

use crate::lines::{
    push_again, push_allreduce, push_branch, push_broadcast, push_choice, push_for, push_loop,
    push_own, push_protocol, push_range_line, push_recv, push_reduce, push_relays, push_run,
    push_send, push_tests, push_when, push_word,
};
use crate::{Guard, Local, NoMemory, Relay, Stmt, Test};
use std::alloc::Global;

/// The layout of an endpoint program, a line a statement: `docs/FORMATS.md` has it whole.
pub fn print_local(alloc: Global, local: &Local) -> Result<Vec<u8>, NoMemory>
    ensures { IfOk result (λ bytes. bytes.items ≡ layout (program_of local.now)) }
{
    let mut out = Vec::new(alloc);
    push_protocol(local, &mut out)?;
    push_range_line(&mut out, local.range)?;
    push_all(&local.body, local, 0, &mut out)?;
    push_word(&mut out, 0, b"done")?;
    Ok(out)
}

fn deeper(out: &Vec<u8>, depth: usize) -> usize
    requires { depth < length out.now.items }
    ensures { result ≡ depth + 1 }
{
    depth + 1
}

/// Appends the layout of statements at a depth. A text is longer than it has open statements.
#[cycle(push)]
#[tactic(auto, using(crate::proofs::Lengths::longer))]
fn push_all(list: &[Stmt], local: &Local, depth: usize, out: &mut Vec<u8>) -> Result<(), NoMemory>
    requires { depth + 2 ≤ length out.old.items }
    ensures { OnOk result (out.new.items ≡ out.old.items ++ statements (program_of local.now) depth (plain_all list.now)) }
{
    for stmt in list {
        push_stmt(stmt, local, depth, out)?;
    }
    Ok(())
}

#[cycle(push)]
#[tactic(auto, using(crate::proofs::Lengths::longer))]
fn push_stmt(stmt: &Stmt, local: &Local, depth: usize, out: &mut Vec<u8>) -> Result<(), NoMemory>
    requires { depth + 2 ≤ length out.old.items }
    ensures { OnOk result (out.new.items ≡ out.old.items ++ statement (program_of local.now) depth (plain stmt.now)) }
{
    match stmt {
        Stmt::If {
            guards,
            first,
            other,
        } => {
            push_when(local, out, depth, guards.list())?;
            push_all(first, local, deeper(out, depth), out)?;
            push_else(other, local, depth, out)
        }
        Stmt::For { low, high, body } => {
            push_for(out, depth, *low, *high)?;
            push_all(body, local, deeper(out, depth), out)?;
            push_word(out, depth, b"end")
        }
        Stmt::Own { off } => push_own(out, depth, *off),
        Stmt::Loop { id, body } => {
            push_loop(out, depth, *id)?;
            push_all(body, local, deeper(out, depth), out)?;
            push_word(out, depth, b"end")
        }
        Stmt::Again { id } => push_again(out, depth, *id),
        Stmt::Choice {
            who,
            kernel,
            relays,
            from: _,
            tests,
            branches,
        } => {
            push_choice_lines(local, out, depth, *who, *kernel, relays, tests)?;
            for (number, branch) in branches.iter().enumerate() {
                push_part(branch, number, local, depth, out)?;
            }
            push_word(out, depth, b"end")
        }
        Stmt::Send { label, to } => push_send(local, out, depth, *label, *to),
        Stmt::Recv { label, from } => push_recv(local, out, depth, *label, *from),
        Stmt::Run { kernel } => push_run(local, out, depth, *kernel),
        Stmt::Barrier => push_word(out, depth, b"barrier"),
        Stmt::Broadcast { label, root } => push_broadcast(local, out, depth, *label, *root),
        Stmt::Reduce { label, op, root } => push_reduce(local, out, depth, *label, *op, *root),
        Stmt::Allreduce { label, op } => push_allreduce(local, out, depth, *label, *op),
    }
}

/// Appends the other part, where it isn't empty, and the end.
#[cycle(push)]
#[tactic(auto, using(crate::proofs::Lengths::longer))]
fn push_else(other: &[Stmt], local: &Local, depth: usize, out: &mut Vec<u8>) -> Result<(), NoMemory>
    requires { depth + 2 ≤ length out.old.items }
    ensures { OnOk result (out.new.items ≡ out.old.items ++ else_part (program_of local.now) depth (plain_all other.now)) }
{
    if other.is_empty() {
        return push_word(out, depth, b"end");
    }
    push_word(out, depth, b"else")?;
    push_all(other, local, deeper(out, depth), out)?;
    push_word(out, depth, b"end")
}

/// Appends one branch.
#[cycle(push)]
#[tactic(auto, using(crate::proofs::Lengths::longer))]
fn push_part(
    branch: &[Stmt],
    number: usize,
    local: &Local,
    depth: usize,
    out: &mut Vec<u8>,
) -> Result<(), NoMemory>
    requires { depth + 2 ≤ length out.old.items }
    ensures { OnOk result (out.new.items ≡ out.old.items ++ branch_part (program_of local.now) depth number (plain_all branch.now)) }
{
    push_branch(out, depth, number)?;
    push_all(branch, local, deeper(out, depth), out)
}

/// Appends the lines of a choice that stand before its branches.
fn push_choice_lines(
    local: &Local,
    out: &mut Vec<u8>,
    depth: usize,
    who: Guard,
    kernel: u32,
    relays: &[Relay],
    tests: &[Test],
) -> Result<(), NoMemory>
    ensures { OnOk result (out.new.items ≡ out.old.items ++ choice_lines (program_of local.now) depth who kernel relays.now tests.now) }
{
    push_choice(local, out, depth, kernel, who)?;
    push_relays(local, out, depth, relays)?;
    push_tests(local, out, depth, tests)
}
