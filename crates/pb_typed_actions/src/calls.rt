//! The lines that call kernel functions and MPI, and the recorder's lines.

ghost use Rattle.std.specs.Prelude.{◌≡◌, ◌++◌, OnOk, Some, None};
ghost use Rattle.pb_local.specs.Pieces.{line};
ghost use Rattle.pb_local.specs.Tree.{program_of};
ghost use Rattle.pb_typed.specs.Carrying.{carried_at, shared};
ghost use Rattle.pb_typed.specs.Calls.{make_text, root_make_text, take_text, root_take_text, send_text, recv_text, bcast_text, reduce_text, allreduce_text};
ghost use Rattle.pb_typed.specs.Hooks.{send_hook, recv_hook, enter_hook, leave_hook, run_hook, choose_hook};
ghost use Rattle.pb_typed_lines.specs.Bits.{side_of};
ghost use Rattle.pb_ctree.specs.Small.{op_text, incoming};

use pb_local::{Local, Op, Peer};
use pb_text::NoMemory;
use pb_typed_lines::{Bit, Carried, Side, carried_at, push_line};

/// Appends a call of `make_`.
pub fn push_make(
    local: &Local,
    types: &[Carried],
    out: &mut Vec<u8>,
    depth: usize,
    label: u32,
    to: Option<Peer>,
) -> Result<(), NoMemory>
    ensures { OnOk result (out.new.items ≡ out.old.items ++ line depth (make_text (program_of local.now) types.now label to)) }
{
    push_line(
        local,
        types,
        out,
        depth,
        &[Bit::Makes(label), Bit::End(to), Bit::Made(label)],
    )
}

/// Appends a call of `make_` at the root.
pub fn push_root_make(
    local: &Local,
    types: &[Carried],
    out: &mut Vec<u8>,
    depth: usize,
    label: u32,
    root: Peer,
) -> Result<(), NoMemory>
    ensures { OnOk result (out.new.items ≡ out.old.items ++ line depth (root_make_text (program_of local.now) types.now label root None)) }
{
    push_line(
        local,
        types,
        out,
        depth,
        &[
            Bit::Word(b"if ("),
            Bit::Root(root),
            Bit::Word(b") "),
            Bit::Makes(label),
            Bit::End(None),
            Bit::Made(label),
        ],
    )
}

/// Appends a call of `take_`.
pub fn push_take(
    local: &Local,
    types: &[Carried],
    out: &mut Vec<u8>,
    depth: usize,
    label: u32,
    from: Option<Peer>,
    side: Side,
) -> Result<(), NoMemory>
    ensures { OnOk result (out.new.items ≡ out.old.items ++ line depth (take_text (program_of local.now) types.now label from (side_of side))) }
{
    push_line(
        local,
        types,
        out,
        depth,
        &[
            Bit::Word(b"take_"),
            Bit::Name(label),
            Bit::Word(b"(N, R, I, "),
            Bit::End(from),
            Bit::Taken(label, side),
        ],
    )
}

/// Appends a call of `take_` on what a broadcast gave.
pub fn push_shared_take(
    local: &Local,
    types: &[Carried],
    out: &mut Vec<u8>,
    depth: usize,
    label: u32,
    root: Peer,
) -> Result<(), NoMemory>
    ensures { OnOk result (out.new.items ≡ out.old.items ++ line depth (take_text (program_of local.now) types.now label (Some root) (shared (carried_at types.now label)))) }
{
    match carried_at(types, label) {
        Carried::Words => push_take(local, types, out, depth, label, Some(root), Side::Sent),
        Carried::Fixed { .. } => push_take(local, types, out, depth, label, Some(root), Side::Sent),
        Carried::Open { .. } => push_take(
            local,
            types,
            out,
            depth,
            label,
            Some(root),
            Side::Received,
        ),
    }
}

/// Appends a call of `take_` at the root.
pub fn push_root_take(
    local: &Local,
    types: &[Carried],
    out: &mut Vec<u8>,
    depth: usize,
    label: u32,
    root: Peer,
) -> Result<(), NoMemory>
    ensures { OnOk result (out.new.items ≡ out.old.items ++ line depth (root_take_text (program_of local.now) types.now label root None incoming)) }
{
    push_line(
        local,
        types,
        out,
        depth,
        &[
            Bit::Word(b"if ("),
            Bit::Root(root),
            Bit::Word(b") take_"),
            Bit::Name(label),
            Bit::Word(b"(N, R, I, "),
            Bit::End(None),
            Bit::Taken(label, Side::Received),
        ],
    )
}

/// Appends the call that sends a message.
pub fn push_mpi_send(
    local: &Local,
    types: &[Carried],
    out: &mut Vec<u8>,
    depth: usize,
    label: u32,
    to: Peer,
) -> Result<(), NoMemory>
    ensures { OnOk result (out.new.items ≡ out.old.items ++ line depth (send_text (program_of local.now) types.now label to)) }
{
    push_line(
        local,
        types,
        out,
        depth,
        &[
            Bit::Word(b"MPI_Send("),
            Bit::Data(label, Side::Sent),
            Bit::Word(b", "),
            Bit::Rank(to),
            Bit::Word(b", "),
            Bit::Number(u64::from(label)),
            Bit::Word(b", MPI_COMM_WORLD);"),
        ],
    )
}

/// Appends the call that receives a message.
pub fn push_mpi_recv(
    local: &Local,
    types: &[Carried],
    out: &mut Vec<u8>,
    depth: usize,
    label: u32,
    from: Peer,
) -> Result<(), NoMemory>
    ensures { OnOk result (out.new.items ≡ out.old.items ++ line depth (recv_text (program_of local.now) types.now label from)) }
{
    push_line(
        local,
        types,
        out,
        depth,
        &[
            Bit::Word(b"MPI_Recv("),
            Bit::Data(label, Side::Received),
            Bit::Word(b", "),
            Bit::Rank(from),
            Bit::Word(b", "),
            Bit::Number(u64::from(label)),
            Bit::Status(label),
        ],
    )
}

/// Appends the call of a broadcast.
pub fn push_mpi_bcast(
    local: &Local,
    types: &[Carried],
    out: &mut Vec<u8>,
    depth: usize,
    label: u32,
    root: Peer,
) -> Result<(), NoMemory>
    ensures { OnOk result (out.new.items ≡ out.old.items ++ line depth (bcast_text (program_of local.now) types.now label root)) }
{
    push_line(
        local,
        types,
        out,
        depth,
        &[
            Bit::Word(b"MPI_Bcast("),
            Bit::Shared(label),
            Bit::Word(b", "),
            Bit::Rank(root),
            Bit::Word(b", MPI_COMM_WORLD);"),
        ],
    )
}

fn op_name(op: Op) -> &'static [u8]
    ensures { result.now ≡ op_text op }
{
    match op {
        Op::Min => b"MPI_MIN",
        Op::Max => b"MPI_MAX",
        Op::Sum => b"MPI_SUM",
    }
}

/// Appends the call of a reduction to the root.
pub fn push_mpi_reduce(
    local: &Local,
    types: &[Carried],
    out: &mut Vec<u8>,
    depth: usize,
    label: u32,
    op: Op,
    root: Peer,
) -> Result<(), NoMemory>
    ensures { OnOk result (out.new.items ≡ out.old.items ++ line depth (reduce_text (program_of local.now) types.now label op root)) }
{
    push_line(
        local,
        types,
        out,
        depth,
        &[
            Bit::Word(b"MPI_Reduce("),
            Bit::Buffer(label, Side::Sent),
            Bit::Word(b", "),
            Bit::Data(label, Side::Received),
            Bit::Word(b", "),
            Bit::Word(op_name(op)),
            Bit::Word(b", "),
            Bit::Rank(root),
            Bit::Word(b", MPI_COMM_WORLD);"),
        ],
    )
}

/// Appends the call of a reduction to all.
pub fn push_mpi_allreduce(
    local: &Local,
    types: &[Carried],
    out: &mut Vec<u8>,
    depth: usize,
    label: u32,
    op: Op,
) -> Result<(), NoMemory>
    ensures { OnOk result (out.new.items ≡ out.old.items ++ line depth (allreduce_text (program_of local.now) types.now label op)) }
{
    push_line(
        local,
        types,
        out,
        depth,
        &[
            Bit::Word(b"MPI_Allreduce("),
            Bit::Buffer(label, Side::Sent),
            Bit::Word(b", "),
            Bit::Data(label, Side::Received),
            Bit::Word(b", "),
            Bit::Word(op_name(op)),
            Bit::Word(b", MPI_COMM_WORLD);"),
        ],
    )
}

/// Appends the recorder's line of a send.
pub fn push_send_hook(
    local: &Local,
    types: &[Carried],
    out: &mut Vec<u8>,
    depth: usize,
    label: u32,
    to: Peer,
) -> Result<(), NoMemory>
    ensures { OnOk result (out.new.items ≡ out.old.items ++ line depth (send_hook (program_of local.now) types.now label to)) }
{
    push_line(
        local,
        types,
        out,
        depth,
        &[
            Bit::Word(b"PABBLE(send, "),
            Bit::Rank(to),
            Bit::Word(b", \""),
            Bit::Name(label),
            Bit::Word(b"\", "),
            Bit::Message(label, Side::Sent),
            Bit::Word(b");"),
        ],
    )
}

/// Appends the recorder's line of a receive.
pub fn push_recv_hook(
    local: &Local,
    types: &[Carried],
    out: &mut Vec<u8>,
    depth: usize,
    label: u32,
    from: Peer,
) -> Result<(), NoMemory>
    ensures { OnOk result (out.new.items ≡ out.old.items ++ line depth (recv_hook (program_of local.now) types.now label from)) }
{
    push_line(
        local,
        types,
        out,
        depth,
        &[
            Bit::Word(b"PABBLE(recv, "),
            Bit::Rank(from),
            Bit::Word(b", \""),
            Bit::Name(label),
            Bit::Word(b"\", "),
            Bit::Message(label, Side::Received),
            Bit::Word(b");"),
        ],
    )
}

/// Appends the recorder's line before a collective.
pub fn push_enter(
    local: &Local,
    types: &[Carried],
    out: &mut Vec<u8>,
    depth: usize,
    label: u32,
    root: Option<Peer>,
    side: Side,
) -> Result<(), NoMemory>
    ensures { OnOk result (out.new.items ≡ out.old.items ++ line depth (enter_hook (program_of local.now) types.now label root (side_of side))) }
{
    push_line(
        local,
        types,
        out,
        depth,
        &[
            Bit::Word(b"PABBLE(enter, \""),
            Bit::Name(label),
            Bit::Word(b"\", "),
            Bit::Joint(label, root, side),
            Bit::Word(b");"),
        ],
    )
}

/// Appends the recorder's line behind a collective.
pub fn push_leave(
    local: &Local,
    types: &[Carried],
    out: &mut Vec<u8>,
    depth: usize,
    label: u32,
    root: Option<Peer>,
    side: Side,
) -> Result<(), NoMemory>
    ensures { OnOk result (out.new.items ≡ out.old.items ++ line depth (leave_hook (program_of local.now) types.now label root (side_of side))) }
{
    push_line(
        local,
        types,
        out,
        depth,
        &[
            Bit::Word(b"PABBLE(leave, \""),
            Bit::Name(label),
            Bit::Word(b"\", "),
            Bit::Joint(label, root, side),
            Bit::Word(b");"),
        ],
    )
}

/// Appends the recorder's line of a kernel's run.
pub fn push_run_hook(
    local: &Local,
    types: &[Carried],
    out: &mut Vec<u8>,
    depth: usize,
    kernel: u32,
) -> Result<(), NoMemory>
    ensures { OnOk result (out.new.items ≡ out.old.items ++ line depth (run_hook (program_of local.now) kernel)) }
{
    push_line(
        local,
        types,
        out,
        depth,
        &[
            Bit::Word(b"PABBLE(run, \""),
            Bit::Kernel(kernel),
            Bit::Word(b"\");"),
        ],
    )
}

/// Appends the recorder's line of a choice among so many branches.
pub fn push_choose_hook(
    local: &Local,
    types: &[Carried],
    out: &mut Vec<u8>,
    depth: usize,
    kernel: u32,
    branches: usize,
) -> Result<(), NoMemory>
    ensures { OnOk result (out.new.items ≡ out.old.items ++ line depth (choose_hook (program_of local.now) kernel branches)) }
{
    push_line(
        local,
        types,
        out,
        depth,
        &[
            Bit::Word(b"PABBLE(choose, \""),
            Bit::Kernel(kernel),
            Bit::Word(b"\", a, "),
            Bit::Number(branches as u64),
            Bit::Word(b");"),
        ],
    )
}
