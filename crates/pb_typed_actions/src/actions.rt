//! Actions whole.

ghost use Rattle.std.specs.Prelude.{◌≡◌, ◌++◌, ◌∷◌, [], OnOk};
ghost use Rattle.pb_local.specs.Tree.{program_of};
ghost use Rattle.pb_ctree.specs.Lines.{chooses};
ghost use Rattle.pb_typed.specs.Hooks.{choose_hook};
ghost use Rattle.pb_typed.specs.Pieces.{same, added, pieces_text};
ghost use Rattle.pb_typed.specs.Statements.{made_pieces, taken_pieces, send_pieces, recv_pieces, broadcast_pieces, reduce_pieces, allreduce_pieces, run_pieces, barrier_pieces};

use crate::calls::{
    push_choose_hook, push_enter, push_leave, push_make, push_mpi_allreduce, push_mpi_bcast,
    push_mpi_recv, push_mpi_reduce, push_mpi_send, push_recv_hook, push_root_make, push_root_take,
    push_run_hook, push_send_hook, push_shared_take, push_take,
};
use crate::memory::{
    push_all_rooms, push_arrivals, push_made_checks, push_rooms, push_root_rooms, push_shared_rooms,
};
use pb_cprint_lines::{push_calls, push_chooses, push_word};
use pb_ctree::has_words;
use pb_local::{Local, Op, Peer};
use pb_text::NoMemory;
use pb_typed_lines::{Carried, Side, carried_at};

/// Appends a kernel's run.
pub fn push_run(
    local: &Local,
    types: &[Carried],
    out: &mut Vec<u8>,
    depth: usize,
    kernel: u32,
) -> Result<(), NoMemory>
    ensures { OnOk result (out.new.items ≡ out.old.items ++ pieces_text (program_of local.now) (run_pieces (program_of local.now) depth kernel)) }
{
    push_calls(local, out, depth, kernel)?;
    push_run_hook(local, types, out, depth, kernel)?;
    Ok(())
}

/// Appends a barrier.
pub fn push_barrier(local: &Local, out: &mut Vec<u8>, depth: usize) -> Result<(), NoMemory>
    ensures { OnOk result (out.new.items ≡ out.old.items ++ pieces_text (program_of local.now) (barrier_pieces depth)) }
{
    push_word(out, depth, b"PABBLE(enter, \"barrier\", zero, 0);")?;
    push_word(out, depth, b"MPI_Barrier(MPI_COMM_WORLD);")?;
    push_word(out, depth, b"PABBLE(leave, \"barrier\", zero, 0);")?;
    Ok(())
}

/// Appends the call of a choice kernel, and the recorder's line on its answer.
pub fn push_choose(
    local: &Local,
    types: &[Carried],
    out: &mut Vec<u8>,
    depth: usize,
    kernel: u32,
    branches: usize,
) -> Result<(), NoMemory>
    ensures { OnOk result (out.new.items ≡ out.old.items ++ pieces_text (program_of local.now) (same depth (chooses kernel) ∷ added depth (choose_hook (program_of local.now) kernel branches) ∷ [])) }
{
    push_chooses(local, out, depth, kernel)?;
    push_choose_hook(local, types, out, depth, kernel, branches)?;
    Ok(())
}

fn push_made(
    local: &Local,
    types: &[Carried],
    out: &mut Vec<u8>,
    depth: usize,
    label: u32,
    to: Peer,
) -> Result<(), NoMemory>
    ensures { OnOk result (out.new.items ≡ out.old.items ++ pieces_text (program_of local.now) (made_pieces (program_of local.now) types.now depth label to)) }
{
    if has_words(local.payload(label)) {
        push_make(local, types, out, depth, label, Some(to))?;
        push_made_checks(local, types, out, carried_at(types, label), depth, label)?;
    }
    Ok(())
}

/// Appends a send: what is made, the recorder's line, and the message.
pub fn push_send(
    local: &Local,
    types: &[Carried],
    out: &mut Vec<u8>,
    depth: usize,
    label: u32,
    to: Peer,
) -> Result<(), NoMemory>
    ensures { OnOk result (out.new.items ≡ out.old.items ++ pieces_text (program_of local.now) (send_pieces (program_of local.now) types.now depth label to)) }
{
    push_made(local, types, out, depth, label, to)?;
    push_send_hook(local, types, out, depth, label, to)?;
    push_mpi_send(local, types, out, depth, label, to)?;
    Ok(())
}

fn push_taken(
    local: &Local,
    types: &[Carried],
    out: &mut Vec<u8>,
    depth: usize,
    label: u32,
    from: Peer,
) -> Result<(), NoMemory>
    ensures { OnOk result (out.new.items ≡ out.old.items ++ pieces_text (program_of local.now) (taken_pieces (program_of local.now) types.now depth label from)) }
{
    if has_words(local.payload(label)) {
        push_take(local, types, out, depth, label, Some(from), Side::Received)?;
    }
    Ok(())
}

/// Appends a receive: room, the message, the recorder's line, and what is taken.
pub fn push_recv(
    local: &Local,
    types: &[Carried],
    out: &mut Vec<u8>,
    depth: usize,
    label: u32,
    from: Peer,
) -> Result<(), NoMemory>
    ensures { OnOk result (out.new.items ≡ out.old.items ++ pieces_text (program_of local.now) (recv_pieces (program_of local.now) types.now depth label from)) }
{
    let carried = carried_at(types, label);
    push_rooms(local, types, out, carried, depth, label, from)?;
    push_mpi_recv(local, types, out, depth, label, from)?;
    push_arrivals(local, types, out, carried, depth, label)?;
    push_recv_hook(local, types, out, depth, label, from)?;
    push_taken(local, types, out, depth, label, from)?;
    Ok(())
}

/// Appends a broadcast from the root.
pub fn push_broadcast(
    local: &Local,
    types: &[Carried],
    out: &mut Vec<u8>,
    depth: usize,
    label: u32,
    root: Peer,
) -> Result<(), NoMemory>
    ensures { OnOk result (out.new.items ≡ out.old.items ++ pieces_text (program_of local.now) (broadcast_pieces (program_of local.now) types.now depth label root)) }
{
    push_root_make(local, types, out, depth, label, root)?;
    push_shared_rooms(
        local,
        types,
        out,
        carried_at(types, label),
        depth,
        label,
        root,
    )?;
    push_enter(local, types, out, depth, label, Some(root), Side::Sent)?;
    push_mpi_bcast(local, types, out, depth, label, root)?;
    push_leave(local, types, out, depth, label, None, Side::Sent)?;
    push_shared_take(local, types, out, depth, label, root)?;
    Ok(())
}

/// Appends a reduction to the root.
pub fn push_reduce(
    local: &Local,
    types: &[Carried],
    out: &mut Vec<u8>,
    depth: usize,
    label: u32,
    op: Op,
    root: Peer,
) -> Result<(), NoMemory>
    ensures { OnOk result (out.new.items ≡ out.old.items ++ pieces_text (program_of local.now) (reduce_pieces (program_of local.now) types.now depth label op root)) }
{
    push_make(local, types, out, depth, label, Some(root))?;
    push_root_rooms(
        local,
        types,
        out,
        carried_at(types, label),
        depth,
        label,
        root,
    )?;
    push_enter(local, types, out, depth, label, None, Side::Sent)?;
    push_mpi_reduce(local, types, out, depth, label, op, root)?;
    push_leave(local, types, out, depth, label, Some(root), Side::Received)?;
    push_root_take(local, types, out, depth, label, root)?;
    Ok(())
}

/// Appends a reduction to all ranks.
pub fn push_allreduce(
    local: &Local,
    types: &[Carried],
    out: &mut Vec<u8>,
    depth: usize,
    label: u32,
    op: Op,
) -> Result<(), NoMemory>
    ensures { OnOk result (out.new.items ≡ out.old.items ++ pieces_text (program_of local.now) (allreduce_pieces (program_of local.now) types.now depth label op)) }
{
    push_make(local, types, out, depth, label, None)?;
    push_all_rooms(local, types, out, carried_at(types, label), depth, label)?;
    push_enter(local, types, out, depth, label, None, Side::Sent)?;
    push_mpi_allreduce(local, types, out, depth, label, op)?;
    push_leave(local, types, out, depth, label, None, Side::Received)?;
    push_take(local, types, out, depth, label, None, Side::Received)?;
    Ok(())
}
