//! The lines of statements. Each takes its depth, which is the number of open braces.

ghost use Rattle.std.specs.Prelude.{◌≡◌, ◌++◌, OnOk};
ghost use Rattle.pb_local.specs.Pieces.{line};
ghost use Rattle.pb_local.specs.Tables.{kernel_at};
ghost use Rattle.pb_local.specs.Tree.{program_of};
ghost use Rattle.pb_ctree.specs.Lines.{if_open, else_if_open, for_open, own_is, loop_open, goto, makes, root_makes, takes, root_takes, mpi_send, mpi_recv, mpi_bcast, mpi_reduce, mpi_allreduce, calls, chooses, probe, test_open, else_test_open, picks, pick_open, else_pick_open};
ghost use Rattle.pb_ctree.specs.Small.{outgoing, incoming};
ghost use Rattle.pb_cprint_lines.specs.Printed.{bytes};

use crate::small::{
    push_cond, push_lin, push_offset, push_peer, push_received, push_received_call, push_reduced,
    push_root, push_sent, push_sent_call, push_test,
};
use itoa::Buffer;
use pb_ctree::{Guard, Lin, Local, NoMemory, Op, Peer};
use pb_local::{push_indent, push_pieces};
use pb_text::push_decimal;

fn push_kernel_name(local: &Local, out: &mut Vec<u8>, kernel: u32) -> Result<(), NoMemory>
    ensures { OnOk result (out.new.items ≡ out.old.items ++ (kernel_at (program_of local.now) kernel).name) }
{
    out.extend_from_slice(local.kernel_name(kernel))?;
    Ok(())
}

/// Appends a line of these bytes.
pub fn push_word(out: &mut Vec<u8>, depth: usize, word: &[u8]) -> Result<(), NoMemory>
    ensures { OnOk result (out.new.items ≡ out.old.items ++ line depth word.now) }
{
    push_indent(out, depth)?;
    out.extend_from_slice(word)?;
    out.push(b'\n')?;
    Ok(())
}

/// Appends a line such as `if (R == 0) {`.
pub fn push_if(
    local: &Local,
    out: &mut Vec<u8>,
    depth: usize,
    guards: &[Guard],
) -> Result<(), NoMemory>
    ensures { OnOk result (out.new.items ≡ out.old.items ++ bytes (program_of local.now) depth (if_open guards.now)) }
{
    push_indent(out, depth)?;
    push_pieces(out, &[b"if ("])?;
    push_cond(out, guards)?;
    push_pieces(out, &[b") {\n"])
}

/// Appends a line such as `} else if (R == 0) {`.
pub fn push_else_if(
    local: &Local,
    out: &mut Vec<u8>,
    depth: usize,
    guards: &[Guard],
) -> Result<(), NoMemory>
    ensures { OnOk result (out.new.items ≡ out.old.items ++ bytes (program_of local.now) depth (else_if_open guards.now)) }
{
    push_indent(out, depth)?;
    push_pieces(out, &[b"} else if ("])?;
    push_cond(out, guards)?;
    push_pieces(out, &[b") {"])?;
    out.push(b'\n')?;
    Ok(())
}

/// Appends a line such as `for (i = 0; i <= N - 1; i++) {`.
pub fn push_for(
    local: &Local,
    out: &mut Vec<u8>,
    depth: usize,
    low: Lin,
    high: Lin,
) -> Result<(), NoMemory>
    ensures { OnOk result (out.new.items ≡ out.old.items ++ bytes (program_of local.now) depth (for_open low high)) }
{
    push_indent(out, depth)?;
    push_pieces(out, &[b"for (i = "])?;
    push_lin(out, low)?;
    push_pieces(out, &[b"; i <= "])?;
    push_lin(out, high)?;
    push_pieces(out, &[b"; i++) {\n"])
}

/// Appends a line such as `i = I + 1;`.
pub fn push_own(local: &Local, out: &mut Vec<u8>, depth: usize, off: i32) -> Result<(), NoMemory>
    ensures { OnOk result (out.new.items ≡ out.old.items ++ bytes (program_of local.now) depth (own_is off)) }
{
    push_indent(out, depth)?;
    push_pieces(out, &[b"i = I"])?;
    push_offset(out, off)?;
    push_pieces(out, &[b";\n"])
}

/// Appends a line such as `L0: {`.
pub fn push_loop(local: &Local, out: &mut Vec<u8>, depth: usize, id: u32) -> Result<(), NoMemory>
    ensures { OnOk result (out.new.items ≡ out.old.items ++ bytes (program_of local.now) depth (loop_open id)) }
{
    push_indent(out, depth)?;
    out.push(b'L')?;
    push_decimal(out, u64::from(id))?;
    push_pieces(out, &[b": {\n"])
}

/// Appends a line such as `goto L0;`.
pub fn push_goto(local: &Local, out: &mut Vec<u8>, depth: usize, id: u32) -> Result<(), NoMemory>
    ensures { OnOk result (out.new.items ≡ out.old.items ++ bytes (program_of local.now) depth (goto id)) }
{
    push_indent(out, depth)?;
    push_pieces(out, &[b"goto L"])?;
    push_decimal(out, u64::from(id))?;
    push_pieces(out, &[b";\n"])
}

/// Appends a line such as `make_A(N, R, I, is);`.
pub fn push_makes(
    local: &Local,
    out: &mut Vec<u8>,
    depth: usize,
    label: u32,
) -> Result<(), NoMemory>
    ensures { OnOk result (out.new.items ≡ out.old.items ++ bytes (program_of local.now) depth (makes label)) }
{
    push_indent(out, depth)?;
    push_pieces(out, &[b"make_"])?;
    push_sent_call(local, out, label)?;
    out.push(b'\n')?;
    Ok(())
}

/// Appends a line such as `if (R == 0 && I == 0) make_A(N, R, I, is);`.
pub fn push_root_makes(
    local: &Local,
    out: &mut Vec<u8>,
    depth: usize,
    root: Peer,
    label: u32,
) -> Result<(), NoMemory>
    ensures { OnOk result (out.new.items ≡ out.old.items ++ bytes (program_of local.now) depth (root_makes root label)) }
{
    push_indent(out, depth)?;
    push_pieces(out, &[b"if ("])?;
    push_root(out, root)?;
    push_pieces(out, &[b") make_"])?;
    push_sent_call(local, out, label)?;
    out.push(b'\n')?;
    Ok(())
}

/// Appends a line such as `take_A(N, R, I, is);`.
pub fn push_takes_sent(
    local: &Local,
    out: &mut Vec<u8>,
    depth: usize,
    label: u32,
) -> Result<(), NoMemory>
    ensures { OnOk result (out.new.items ≡ out.old.items ++ bytes (program_of local.now) depth (takes label outgoing)) }
{
    push_indent(out, depth)?;
    push_pieces(out, &[b"take_"])?;
    push_sent_call(local, out, label)?;
    out.push(b'\n')?;
    Ok(())
}

/// Appends a line such as `take_A(N, R, I, ir);`.
pub fn push_takes(
    local: &Local,
    out: &mut Vec<u8>,
    depth: usize,
    label: u32,
) -> Result<(), NoMemory>
    ensures { OnOk result (out.new.items ≡ out.old.items ++ bytes (program_of local.now) depth (takes label incoming)) }
{
    push_indent(out, depth)?;
    push_pieces(out, &[b"take_"])?;
    push_received_call(local, out, label)?;
    out.push(b'\n')?;
    Ok(())
}

/// Appends a line such as `if (R == 0 && I == 0) take_A(N, R, I, ir);`.
pub fn push_root_takes(
    local: &Local,
    out: &mut Vec<u8>,
    depth: usize,
    root: Peer,
    label: u32,
) -> Result<(), NoMemory>
    ensures { OnOk result (out.new.items ≡ out.old.items ++ bytes (program_of local.now) depth (root_takes root label)) }
{
    push_indent(out, depth)?;
    push_pieces(out, &[b"if ("])?;
    push_root(out, root)?;
    push_pieces(out, &[b") take_"])?;
    push_received_call(local, out, label)?;
    out.push(b'\n')?;
    Ok(())
}

/// Appends a line such as `MPI_Send(is, 1, MPI_INT32_T, r_W(N, 0), 0, MPI_COMM_WORLD);`.
pub fn push_mpi_send(
    local: &Local,
    out: &mut Vec<u8>,
    depth: usize,
    label: u32,
    to: Peer,
) -> Result<(), NoMemory>
    ensures { OnOk result (out.new.items ≡ out.old.items ++ bytes (program_of local.now) depth (mpi_send label to)) }
{
    push_indent(out, depth)?;
    push_pieces(out, &[b"MPI_Send("])?;
    push_sent(local, out, label)?;
    push_pieces(out, &[b", "])?;
    push_peer(local, out, to)?;
    push_pieces(out, &[b", "])?;
    push_decimal(out, u64::from(label))?;
    push_pieces(out, &[b", MPI_COMM_WORLD);"])?;
    out.push(b'\n')?;
    Ok(())
}

/// Appends a line such as `MPI_Recv(ir, 1, MPI_INT32_T, r_W(N, 0), 0, MPI_COMM_WORLD, MPI_STATUS_IGNORE);`.
pub fn push_mpi_recv(
    local: &Local,
    out: &mut Vec<u8>,
    depth: usize,
    label: u32,
    from: Peer,
) -> Result<(), NoMemory>
    ensures { OnOk result (out.new.items ≡ out.old.items ++ bytes (program_of local.now) depth (mpi_recv label from)) }
{
    push_indent(out, depth)?;
    push_pieces(out, &[b"MPI_Recv("])?;
    push_received(local, out, label)?;
    push_pieces(out, &[b", "])?;
    push_peer(local, out, from)?;
    push_pieces(out, &[b", "])?;
    push_decimal(out, u64::from(label))?;
    push_pieces(out, &[b", MPI_COMM_WORLD, MPI_STATUS_IGNORE);"])?;
    out.push(b'\n')?;
    Ok(())
}

/// Appends a line such as `MPI_Bcast(is, 1, MPI_INT32_T, r_W(N, 0), MPI_COMM_WORLD);`.
pub fn push_mpi_bcast(
    local: &Local,
    out: &mut Vec<u8>,
    depth: usize,
    label: u32,
    root: Peer,
) -> Result<(), NoMemory>
    ensures { OnOk result (out.new.items ≡ out.old.items ++ bytes (program_of local.now) depth (mpi_bcast label root)) }
{
    push_indent(out, depth)?;
    push_pieces(out, &[b"MPI_Bcast("])?;
    push_sent(local, out, label)?;
    push_pieces(out, &[b", "])?;
    push_peer(local, out, root)?;
    push_pieces(out, &[b", MPI_COMM_WORLD);\n"])
}

/// Appends a line such as `MPI_Reduce(is, ir, 1, MPI_INT32_T, MPI_MAX, r_W(N, 0), MPI_COMM_WORLD);`.
pub fn push_mpi_reduce(
    local: &Local,
    out: &mut Vec<u8>,
    depth: usize,
    label: u32,
    op: Op,
    root: Peer,
) -> Result<(), NoMemory>
    ensures { OnOk result (out.new.items ≡ out.old.items ++ bytes (program_of local.now) depth (mpi_reduce label op root)) }
{
    push_indent(out, depth)?;
    push_pieces(out, &[b"MPI_Reduce("])?;
    push_reduced(local, out, label, op)?;
    push_pieces(out, &[b", "])?;
    push_peer(local, out, root)?;
    push_pieces(out, &[b", MPI_COMM_WORLD);"])?;
    out.push(b'\n')?;
    Ok(())
}

/// Appends a line such as `MPI_Allreduce(is, ir, 1, MPI_INT32_T, MPI_MAX, MPI_COMM_WORLD);`.
pub fn push_mpi_allreduce(
    local: &Local,
    out: &mut Vec<u8>,
    depth: usize,
    label: u32,
    op: Op,
) -> Result<(), NoMemory>
    ensures { OnOk result (out.new.items ≡ out.old.items ++ bytes (program_of local.now) depth (mpi_allreduce label op)) }
{
    push_indent(out, depth)?;
    push_pieces(out, &[b"MPI_Allreduce("])?;
    push_reduced(local, out, label, op)?;
    push_pieces(out, &[b", MPI_COMM_WORLD);\n"])
}

/// Appends a line such as `k_K(N, R, I);`.
pub fn push_calls(
    local: &Local,
    out: &mut Vec<u8>,
    depth: usize,
    kernel: u32,
) -> Result<(), NoMemory>
    ensures { OnOk result (out.new.items ≡ out.old.items ++ bytes (program_of local.now) depth (calls kernel)) }
{
    push_indent(out, depth)?;
    push_pieces(out, &[b"k_"])?;
    push_kernel_name(local, out, kernel)?;
    push_pieces(out, &[b"(N, R, I);"])?;
    out.push(b'\n')?;
    Ok(())
}

/// Appends a line such as `a = c_K(N, R, I);`.
pub fn push_chooses(
    local: &Local,
    out: &mut Vec<u8>,
    depth: usize,
    kernel: u32,
) -> Result<(), NoMemory>
    ensures { OnOk result (out.new.items ≡ out.old.items ++ bytes (program_of local.now) depth (chooses kernel)) }
{
    push_indent(out, depth)?;
    push_pieces(out, &[b"a = c_"])?;
    push_kernel_name(local, out, kernel)?;
    push_pieces(out, &[b"(N, R, I);"])?;
    out.push(b'\n')?;
    Ok(())
}

/// Appends a line such as `MPI_Probe(r_W(N, 0), MPI_ANY_TAG, MPI_COMM_WORLD, &st);`.
pub fn push_probe(
    local: &Local,
    out: &mut Vec<u8>,
    depth: usize,
    from: Peer,
) -> Result<(), NoMemory>
    ensures { OnOk result (out.new.items ≡ out.old.items ++ bytes (program_of local.now) depth (probe from)) }
{
    push_indent(out, depth)?;
    push_pieces(out, &[b"MPI_Probe("])?;
    push_peer(local, out, from)?;
    push_pieces(out, &[b", MPI_ANY_TAG, MPI_COMM_WORLD, &st);"])?;
    out.push(b'\n')?;
    Ok(())
}

/// Appends a line such as `if (st.MPI_TAG == 0 && (R == 0)) {`.
pub fn push_test_line(
    local: &Local,
    out: &mut Vec<u8>,
    depth: usize,
    label: u32,
    guards: &[Guard],
) -> Result<(), NoMemory>
    ensures { OnOk result (out.new.items ≡ out.old.items ++ bytes (program_of local.now) depth (test_open label guards.now)) }
{
    push_indent(out, depth)?;
    out.extend_from_slice(b"if (st.MPI_TAG == ")?;
    push_test(out, label, guards)?;
    out.push(b'\n')?;
    Ok(())
}

/// Appends a line such as `} else if (st.MPI_TAG == 0 && (R == 0)) {`.
pub fn push_else_test_line(
    local: &Local,
    out: &mut Vec<u8>,
    depth: usize,
    label: u32,
    guards: &[Guard],
) -> Result<(), NoMemory>
    ensures { OnOk result (out.new.items ≡ out.old.items ++ bytes (program_of local.now) depth (else_test_open label guards.now)) }
{
    push_indent(out, depth)?;
    out.extend_from_slice(b"} else if (st.MPI_TAG == ")?;
    push_test(out, label, guards)?;
    out.push(b'\n')?;
    Ok(())
}

/// Appends a line such as `a = 1;`.
pub fn push_picks(
    local: &Local,
    out: &mut Vec<u8>,
    depth: usize,
    branch: u32,
) -> Result<(), NoMemory>
    ensures { OnOk result (out.new.items ≡ out.old.items ++ bytes (program_of local.now) depth (picks branch)) }
{
    push_indent(out, depth)?;
    push_pieces(out, &[b"a = "])?;
    push_decimal(out, u64::from(branch))?;
    push_pieces(out, &[b";\n"])
}

/// Appends a line such as `if (a == 0) {`.
pub fn push_pick(
    local: &Local,
    out: &mut Vec<u8>,
    depth: usize,
    branch: usize,
) -> Result<(), NoMemory>
    ensures { OnOk result (out.new.items ≡ out.old.items ++ bytes (program_of local.now) depth (pick_open branch)) }
{
    let mut buffer = Buffer::new();
    push_indent(out, depth)?;
    push_pieces(
        out,
        &[b"if (a == ", buffer.format(branch).as_bytes(), b") {\n"],
    )
}

/// Appends a line such as `} else if (a == 1) {`.
pub fn push_else_pick(
    local: &Local,
    out: &mut Vec<u8>,
    depth: usize,
    branch: usize,
) -> Result<(), NoMemory>
    ensures { OnOk result (out.new.items ≡ out.old.items ++ bytes (program_of local.now) depth (else_pick_open branch)) }
{
    push_indent(out, depth)?;
    push_pieces(out, &[b"} else if (a == "])?;
    push_decimal(out, branch as u64)?;
    push_pieces(out, &[b") {"])?;
    out.push(b'\n')?;
    Ok(())
}
