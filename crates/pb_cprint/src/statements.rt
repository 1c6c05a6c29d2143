//! The statements of a program.

ghost use Rattle.std.specs.Prelude.{◌≡◌, ◌++◌, ◌+◌, ◌≤◌, ◌<◌, ◌^◌, OnOk, length, map, drop};
ghost use Rattle.pb_local.specs.Tree.{parts_of, plain, plain_all, program_of};
ghost use Rattle.pb_ctree.specs.Small.{outgoing, incoming};
ghost use Rattle.pb_cprint_lines.specs.Printed.{bytes};
ghost use Rattle.pb_cprint.specs.Written.{branch_item, send_written, recv_written, broadcast_written, reduce_written, allreduce_written, written, written_all, written_other, part_written, is_last};

use crate::choices::push_choice;
use pb_cprint_lines::{
    push_calls, push_else_pick, push_for, push_goto, push_if, push_loop, push_makes,
    push_mpi_allreduce, push_mpi_bcast, push_mpi_recv, push_mpi_reduce, push_mpi_send, push_own,
    push_pick, push_root_makes, push_root_takes, push_takes, push_takes_sent, push_word,
};
use pb_ctree::{Local, NoMemory, Op, Peer, Stmt, has_words};

#[tactic(auto, unfolding(crate::specs::Written::send_written))]
fn push_send(
    local: &Local,
    out: &mut Vec<u8>,
    depth: usize,
    label: u32,
    to: Peer,
) -> Result<(), NoMemory>
    ensures { OnOk result (out.new.items ≡ out.old.items ++ send_written (program_of local.now) depth label to) }
{
    if has_words(local.payload(label)) {
        push_makes(local, out, depth, label)?;
    }
    push_mpi_send(local, out, depth, label, to)
}

#[tactic(auto, unfolding(crate::specs::Written::recv_written))]
fn push_recv(
    local: &Local,
    out: &mut Vec<u8>,
    depth: usize,
    label: u32,
    from: Peer,
) -> Result<(), NoMemory>
    ensures { OnOk result (out.new.items ≡ out.old.items ++ recv_written (program_of local.now) depth label from) }
{
    push_mpi_recv(local, out, depth, label, from)?;
    if has_words(local.payload(label)) {
        push_takes(local, out, depth, label)?;
    }
    Ok(())
}

#[tactic(auto, unfolding(crate::specs::Written::broadcast_written))]
fn push_broadcast(
    local: &Local,
    out: &mut Vec<u8>,
    depth: usize,
    label: u32,
    root: Peer,
) -> Result<(), NoMemory>
    ensures { OnOk result (out.new.items ≡ out.old.items ++ broadcast_written (program_of local.now) depth label root) }
{
    push_root_makes(local, out, depth, root, label)?;
    push_mpi_bcast(local, out, depth, label, root)?;
    push_takes_sent(local, out, depth, label)
}

#[tactic(auto, unfolding(crate::specs::Written::reduce_written))]
fn push_reduce(
    local: &Local,
    out: &mut Vec<u8>,
    depth: usize,
    label: u32,
    op: Op,
    root: Peer,
) -> Result<(), NoMemory>
    ensures { OnOk result (out.new.items ≡ out.old.items ++ reduce_written (program_of local.now) depth label op root) }
{
    push_makes(local, out, depth, label)?;
    push_mpi_reduce(local, out, depth, label, op, root)?;
    push_root_takes(local, out, depth, root, label)
}

#[tactic(auto, unfolding(crate::specs::Written::allreduce_written))]
fn push_allreduce(
    local: &Local,
    out: &mut Vec<u8>,
    depth: usize,
    label: u32,
    op: Op,
) -> Result<(), NoMemory>
    ensures { OnOk result (out.new.items ≡ out.old.items ++ allreduce_written (program_of local.now) depth label op) }
{
    push_makes(local, out, depth, label)?;
    push_mpi_allreduce(local, out, depth, label, op)?;
    push_takes(local, out, depth, label)
}

/// The line that opens a branch.
pub fn push_branch_open(
    local: &Local,
    out: &mut Vec<u8>,
    depth: usize,
    number: usize,
    is_last: bool,
) -> Result<(), NoMemory>
    ensures { OnOk result (out.new.items ≡ out.old.items ++ bytes (program_of local.now) depth (branch_item number is_last)) }
{
    if number == 0 {
        return push_pick(local, out, depth, 0);
    }
    if is_last {
        return push_word(out, depth, b"} else {");
    }
    push_else_pick(local, out, depth, number)
}

/// True where no branch stands behind this one.
pub fn is_last(branches: &[Vec<Stmt>], number: usize) -> bool
    requires { number < length branches.now }
    ensures { result ≡ is_last (parts_of (map (λ v. map plain v.items) (drop (number + 1) branches.now))) }
{
    number + 1 == branches.len()
}

/// One more open brace. A text is longer than it has open braces.
pub fn deeper(out: &Vec<u8>, depth: usize) -> usize
    requires { depth < length out.now.items }
    ensures deeper { result ≡ depth + 1 }
    ensures room { result + 2 < 2 ^ 64 }
{
    depth + 1
}

/// Spells the statements at the end of a text, which is longer than it has open braces.
#[cycle(push)]
#[tactic(auto, using(crate::proofs::Lengths::longer))]
pub fn push_all(
    list: &[Stmt],
    local: &Local,
    depth: usize,
    out: &mut Vec<u8>,
) -> Result<(), NoMemory>
    requires { depth + 2 ≤ length out.old.items }
    ensures { OnOk result (out.new.items ≡ out.old.items ++ written_all (program_of local.now) depth (plain_all list.now)) }
{
    for stmt in list {
        push_stmt(stmt, local, depth, out)?;
    }
    Ok(())
}

#[cycle(push)]
#[tactic(auto, using(crate::proofs::Lengths::longer))]
fn push_stmt(stmt: &Stmt, local: &Local, depth: usize, out: &mut Vec<u8>) -> Result<(), NoMemory>
    requires { depth + 2 ≤ length out.old.items }
    ensures { OnOk result (out.new.items ≡ out.old.items ++ written (program_of local.now) depth (plain stmt.now)) }
{
    match stmt {
        Stmt::If {
            guards,
            first,
            other,
        } => {
            push_if(local, out, depth, guards.list())?;
            push_all(first, local, deeper(out, depth), out)?;
            push_other(other, local, depth, out)
        }
        Stmt::For { low, high, body } => {
            push_for(local, out, depth, *low, *high)?;
            push_all(body, local, deeper(out, depth), out)?;
            push_word(out, depth, b"}")
        }
        Stmt::Own { off } => push_own(local, out, depth, *off),
        Stmt::Loop { id, body } => {
            push_loop(local, out, depth, *id)?;
            push_all(body, local, deeper(out, depth), out)?;
            push_word(out, depth, b"}")
        }
        Stmt::Again { id } => push_goto(local, out, depth, *id),
        Stmt::Choice {
            who,
            kernel,
            relays,
            from,
            tests,
            branches,
        } => {
            let _inner = deeper(out, depth);
            push_choice(local, out, depth, *who, *kernel, relays, *from, tests)?;
            for (number, branch) in branches.iter().enumerate() {
                let last = is_last(branches, number);
                push_part(branch, number, last, local, depth, out)?;
            }
            push_word(out, depth, b"}")
        }
        Stmt::Send { label, to } => push_send(local, out, depth, *label, *to),
        Stmt::Recv { label, from } => push_recv(local, out, depth, *label, *from),
        Stmt::Run { kernel } => push_calls(local, out, depth, *kernel),
        Stmt::Barrier => push_word(out, depth, b"MPI_Barrier(MPI_COMM_WORLD);"),
        Stmt::Broadcast { label, root } => push_broadcast(local, out, depth, *label, *root),
        Stmt::Reduce { label, op, root } => push_reduce(local, out, depth, *label, *op, *root),
        Stmt::Allreduce { label, op } => push_allreduce(local, out, depth, *label, *op),
    }
}

/// Spells the other part, where it isn't empty, and the closing brace.
#[cycle(push)]
#[tactic(auto, using(crate::proofs::Lengths::longer))]
fn push_other(
    other: &[Stmt],
    local: &Local,
    depth: usize,
    out: &mut Vec<u8>,
) -> Result<(), NoMemory>
    requires { depth + 2 ≤ length out.old.items }
    ensures { OnOk result (out.new.items ≡ out.old.items ++ written_other (program_of local.now) depth (plain_all other.now)) }
{
    if other.is_empty() {
        return push_word(out, depth, b"}");
    }
    push_word(out, depth, b"} else {")?;
    push_all(other, local, deeper(out, depth), out)?;
    push_word(out, depth, b"}")
}

/// Spells one branch.
#[cycle(push)]
#[tactic(auto, using(crate::proofs::Lengths::longer))]
fn push_part(
    branch: &[Stmt],
    number: usize,
    is_last: bool,
    local: &Local,
    depth: usize,
    out: &mut Vec<u8>,
) -> Result<(), NoMemory>
    requires { depth + 2 ≤ length out.old.items }
    ensures { OnOk result (out.new.items ≡ out.old.items ++ part_written (program_of local.now) depth number is_last (plain_all branch.now)) }
{
    push_branch_open(local, out, depth, number, is_last)?;
    push_all(branch, local, deeper(out, depth), out)
}
