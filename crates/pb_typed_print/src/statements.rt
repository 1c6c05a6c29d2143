//! The statements of a program.

ghost use Rattle.std.specs.Prelude.{◌≡◌, ◌++◌, ◌+◌, ◌≤◌, OnOk, length, map, drop};
ghost use Rattle.pb_local.specs.Tree.{plain, plain_all, program_of};
ghost use Rattle.pb_typed.specs.Pieces.{pieces_text};
ghost use Rattle.pb_typed.specs.Statements.{typed, typed_all, typed_other};
ghost use Rattle.pb_typed_print.specs.Written.{part_text};

use crate::choices::push_choice;
use pb_cprint::{deeper, is_last, push_branch_open};
use pb_cprint_lines::{push_for, push_goto, push_if, push_loop, push_own, push_word};
use pb_ctree::{Local, NoMemory, Stmt};
use pb_typed_actions::{
    push_allreduce, push_barrier, push_broadcast, push_recv, push_reduce, push_run, push_send,
};
use pb_typed_types::Carried;

/// Appends statements to a text that is longer than it has open braces.
#[cycle(push)]
#[tactic(auto, using(pb_cprint::proofs::Lengths::longer))]
pub fn push_all(
    list: &[Stmt],
    local: &Local,
    types: &[Carried],
    depth: usize,
    out: &mut Vec<u8>,
) -> Result<(), NoMemory>
    requires { depth + 2 ≤ length out.old.items }
    ensures { OnOk result (out.new.items ≡ out.old.items ++ pieces_text (program_of local.now) (typed_all (program_of local.now) types.now depth (plain_all list.now))) }
{
    for stmt in list {
        push_stmt(stmt, local, types, depth, out)?;
    }
    Ok(())
}

#[cycle(push)]
#[tactic(auto, using(pb_cprint::proofs::Lengths::longer))]
fn push_stmt(
    stmt: &Stmt,
    local: &Local,
    types: &[Carried],
    depth: usize,
    out: &mut Vec<u8>,
) -> Result<(), NoMemory>
    requires { depth + 2 ≤ length out.old.items }
    ensures { OnOk result (out.new.items ≡ out.old.items ++ pieces_text (program_of local.now) (typed (program_of local.now) types.now depth (plain stmt.now))) }
{
    match stmt {
        Stmt::If {
            guards,
            first,
            other,
        } => {
            push_if(local, out, depth, guards.list())?;
            push_all(first, local, types, deeper(out, depth), out)?;
            push_other(other, local, types, depth, out)
        }
        Stmt::For { low, high, body } => {
            push_for(local, out, depth, *low, *high)?;
            push_all(body, local, types, deeper(out, depth), out)?;
            push_word(out, depth, b"}")
        }
        Stmt::Own { off } => push_own(local, out, depth, *off),
        Stmt::Loop { id, body } => {
            push_loop(local, out, depth, *id)?;
            push_all(body, local, types, deeper(out, depth), out)?;
            push_word(out, depth, b"}")
        }
        Stmt::Again { id } => push_goto(local, out, depth, *id),
        Stmt::Choice {
            who,
            kernel,
            relays,
            from,
            tests,
            branches,
        } => {
            let _inner = deeper(out, depth);
            push_choice(
                local,
                types,
                out,
                depth,
                *who,
                *kernel,
                branches.len(),
                relays,
                *from,
                tests,
            )?;
            for (number, branch) in branches.iter().enumerate() {
                let last = is_last(branches, number);
                push_part(branch, number, last, local, types, depth, out)?;
            }
            push_word(out, depth, b"}")
        }
        Stmt::Send { label, to } => push_send(local, types, out, depth, *label, *to),
        Stmt::Recv { label, from } => push_recv(local, types, out, depth, *label, *from),
        Stmt::Run { kernel } => push_run(local, types, out, depth, *kernel),
        Stmt::Barrier => push_barrier(local, out, depth),
        Stmt::Broadcast { label, root } => push_broadcast(local, types, out, depth, *label, *root),
        Stmt::Reduce { label, op, root } => {
            push_reduce(local, types, out, depth, *label, *op, *root)
        }
        Stmt::Allreduce { label, op } => push_allreduce(local, types, out, depth, *label, *op),
    }
}

/// Appends the other part, where it isn't empty, and the closing brace.
#[cycle(push)]
#[tactic(auto, using(pb_cprint::proofs::Lengths::longer))]
fn push_other(
    other: &[Stmt],
    local: &Local,
    types: &[Carried],
    depth: usize,
    out: &mut Vec<u8>,
) -> Result<(), NoMemory>
    requires { depth + 2 ≤ length out.old.items }
    ensures { OnOk result (out.new.items ≡ out.old.items ++ pieces_text (program_of local.now) (typed_other (program_of local.now) types.now depth (plain_all other.now))) }
{
    if other.is_empty() {
        return push_word(out, depth, b"}");
    }
    push_word(out, depth, b"} else {")?;
    push_all(other, local, types, deeper(out, depth), out)?;
    push_word(out, depth, b"}")
}

/// Appends one branch.
#[cycle(push)]
#[tactic(auto, using(pb_cprint::proofs::Lengths::longer))]
fn push_part(
    branch: &[Stmt],
    number: usize,
    is_last: bool,
    local: &Local,
    types: &[Carried],
    depth: usize,
    out: &mut Vec<u8>,
) -> Result<(), NoMemory>
    requires { depth + 2 ≤ length out.old.items }
    ensures { OnOk result (out.new.items ≡ out.old.items ++ part_text (program_of local.now) types.now depth number is_last (plain_all branch.now)) }
{
    push_branch_open(local, out, depth, number, is_last)?;
    push_all(branch, local, types, deeper(out, depth), out)
}
