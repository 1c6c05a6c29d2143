//! Spells a line as the printer does.

ghost use Rattle.std.specs.Prelude.{◌≡◌, ◌++◌, ◌∷◌, [], OnOk, true};
ghost use Rattle.pb_local.specs.Tree.{program_of};
ghost use Rattle.pb_cprint_lines.specs.Printed.{bytes};
ghost use Rattle.pb_ctree.specs.Small.{outgoing, incoming};
ghost use Rattle.pb_ctree.specs.Lines.{takes};
ghost use Rattle.pb_cread_lines.specs.Items.{item_of, side_of};

use crate::item::{Item, Side};
use pb_cprint_lines::{
    push_calls, push_chooses, push_else_if, push_else_pick, push_else_test_line, push_for,
    push_goto, push_if, push_loop, push_makes, push_mpi_allreduce, push_mpi_bcast, push_mpi_recv,
    push_mpi_reduce, push_mpi_send, push_own, push_pick, push_picks, push_probe, push_root_makes,
    push_root_takes, push_takes, push_takes_sent, push_test_line, push_word,
};
use pb_ctree::{Local, NoMemory};

fn push_taken(
    local: &Local,
    out: &mut Vec<u8>,
    depth: usize,
    label: u32,
    side: Side,
) -> Result<(), NoMemory>
    ensures { OnOk result (out.new.items ≡ out.old.items ++ bytes (program_of local.now) depth (takes label (side_of side))) }
{
    match side {
        Side::Outgoing => push_takes_sent(local, out, depth, label),
        Side::Incoming => push_takes(local, out, depth, label),
    }
}

/// Appends a line at a depth, with its line feed.
pub fn push_item(
    local: &Local,
    out: &mut Vec<u8>,
    depth: usize,
    item: &Item,
) -> Result<(), NoMemory>
    ensures { OnOk result (out.new.items ≡ out.old.items ++ bytes (program_of local.now) depth (item_of item.now)) }
{
    match item {
        Item::Close => push_word(out, depth, b"}"),
        Item::ElseOpen => push_word(out, depth, b"} else {"),
        Item::IfOpen { guards } => push_if(local, out, depth, guards.list()),
        Item::ElseIfOpen { guards } => push_else_if(local, out, depth, guards.list()),
        Item::ForOpen { low, high } => push_for(local, out, depth, *low, *high),
        Item::OwnIs { off } => push_own(local, out, depth, *off),
        Item::LoopOpen { id } => push_loop(local, out, depth, *id),
        Item::Goto { id } => push_goto(local, out, depth, *id),
        Item::Makes { label } => push_makes(local, out, depth, *label),
        Item::RootMakes { root, label } => push_root_makes(local, out, depth, *root, *label),
        Item::Takes { label, side } => push_taken(local, out, depth, *label, *side),
        Item::RootTakes { root, label } => push_root_takes(local, out, depth, *root, *label),
        Item::Sends { label, to } => push_mpi_send(local, out, depth, *label, *to),
        Item::Receives { label, from } => push_mpi_recv(local, out, depth, *label, *from),
        Item::Barrier => push_word(out, depth, b"MPI_Barrier(MPI_COMM_WORLD);"),
        Item::Broadcasts { label, root } => push_mpi_bcast(local, out, depth, *label, *root),
        Item::Reduces { label, op, root } => {
            push_mpi_reduce(local, out, depth, *label, *op, *root)
        }
        Item::Allreduces { label, op } => push_mpi_allreduce(local, out, depth, *label, *op),
        Item::Calls { kernel } => push_calls(local, out, depth, *kernel),
        Item::Chooses { kernel } => push_chooses(local, out, depth, *kernel),
        Item::Probe { from } => push_probe(local, out, depth, *from),
        Item::TestOpen { label, guards } => {
            push_test_line(local, out, depth, *label, guards.list())
        }
        Item::ElseTestOpen { label, guards } => {
            push_else_test_line(local, out, depth, *label, guards.list())
        }
        Item::Picks { branch } => push_picks(local, out, depth, *branch),
        Item::Aborts => push_word(out, depth, b"MPI_Abort(MPI_COMM_WORLD, 3);"),
        Item::PickOpen { branch } => push_pick(local, out, depth, *branch as usize),
        Item::ElsePickOpen { branch } => push_else_pick(local, out, depth, *branch as usize),
    }
}
