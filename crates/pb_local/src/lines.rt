//! The lines of the printed endpoint. Each takes its depth, which is the number of open statements.

ghost use Rattle.std.specs.Prelude.{◌≡◌, ◌++◌, OnOk, codes};
ghost use Rattle.pb_local.specs.Layout.{high_text, range_line, protocol_line, when_line, for_line, own_line, loop_line, again_line, choice_line, relay_line, test_line, branch_line, send_line, recv_line, run_line, broadcast_line, reduce_line, allreduce_line, relay_lines, test_lines};
ghost use Rattle.pb_local.specs.Pieces.{line};
ghost use Rattle.pb_local.specs.Tree.{program_of};

use crate::small::{op_name, push_guard, push_guards, push_lin, push_offset, push_peer};
use crate::{Guard, Lin, Local, NRange, NoMemory, Op, Peer, Relay, Test, push_indent, push_pieces};
use itoa::Buffer;
use pb_text::push_decimal;

/// Appends a line of one word.
pub fn push_word(out: &mut Vec<u8>, depth: usize, word: &[u8]) -> Result<(), NoMemory>
    ensures { OnOk result (out.new.items ≡ out.old.items ++ line depth word.now) }
{
    push_indent(out, depth)?;
    out.extend_from_slice(word)?;
    out.push(b'\n')?;
    Ok(())
}

fn push_high(out: &mut Vec<u8>, high: Option<u32>) -> Result<(), NoMemory>
    ensures { OnOk result (out.new.items ≡ out.old.items ++ high_text high) }
{
    match high {
        None => push_pieces(out, &[b"max"]),
        Some(n) => push_decimal(out, u64::from(n)),
    }
}

/// Appends the line of the range of N.
pub fn push_range_line(out: &mut Vec<u8>, range: NRange) -> Result<(), NoMemory>
    ensures { OnOk result (out.new.items ≡ out.old.items ++ range_line range) }
{
    push_pieces(out, &[b"N "])?;
    push_decimal(out, u64::from(range.low))?;
    push_pieces(out, &[b" to "])?;
    push_high(out, range.high)?;
    out.push(b'\n')?;
    Ok(())
}

/// Appends the line that names the protocol.
pub fn push_protocol(local: &Local, out: &mut Vec<u8>) -> Result<(), NoMemory>
    ensures { OnOk result (out.new.items ≡ out.old.items ++ protocol_line (program_of local.now)) }
{
    push_pieces(out, &[b"local ", local.protocol.bytes(), b"\n"])
}

/// Appends the line that opens an `If`, with its guards.
pub fn push_when(
    local: &Local,
    out: &mut Vec<u8>,
    depth: usize,
    guards: &[Guard],
) -> Result<(), NoMemory>
    ensures { OnOk result (out.new.items ≡ out.old.items ++ when_line (program_of local.now) depth guards.now) }
{
    push_indent(out, depth)?;
    push_pieces(out, &[b"when "])?;
    push_guards(local, out, guards)?;
    out.push(b'\n')?;
    Ok(())
}

/// Appends the line that opens a `For`, with both ends of its range.
pub fn push_for(out: &mut Vec<u8>, depth: usize, low: Lin, high: Lin) -> Result<(), NoMemory>
    ensures { OnOk result (out.new.items ≡ out.old.items ++ for_line depth low high) }
{
    push_indent(out, depth)?;
    push_pieces(out, &[b"for "])?;
    push_lin(out, low)?;
    push_pieces(out, &[b" to "])?;
    push_lin(out, high)?;
    out.push(b'\n')?;
    Ok(())
}

/// Appends the line of an `Own`, with its offset.
pub fn push_own(out: &mut Vec<u8>, depth: usize, off: i32) -> Result<(), NoMemory>
    ensures { OnOk result (out.new.items ≡ out.old.items ++ own_line depth off) }
{
    push_indent(out, depth)?;
    push_pieces(out, &[b"own I"])?;
    push_offset(out, off)?;
    out.push(b'\n')?;
    Ok(())
}

/// Appends the line that opens a `Loop`, with its number.
pub fn push_loop(out: &mut Vec<u8>, depth: usize, id: u32) -> Result<(), NoMemory>
    ensures { OnOk result (out.new.items ≡ out.old.items ++ loop_line depth id) }
{
    push_indent(out, depth)?;
    push_pieces(out, &[b"loop "])?;
    push_decimal(out, u64::from(id))?;
    out.push(b'\n')?;
    Ok(())
}

/// Appends the line of an `Again`, with the number of its loop.
pub fn push_again(out: &mut Vec<u8>, depth: usize, id: u32) -> Result<(), NoMemory>
    ensures { OnOk result (out.new.items ≡ out.old.items ++ again_line depth id) }
{
    push_indent(out, depth)?;
    push_pieces(out, &[b"again "])?;
    push_decimal(out, u64::from(id))?;
    out.push(b'\n')?;
    Ok(())
}

/// Appends the line that opens a `Choice`, with its kernel and the rank that chooses.
pub fn push_choice(
    local: &Local,
    out: &mut Vec<u8>,
    depth: usize,
    kernel: u32,
    who: Guard,
) -> Result<(), NoMemory>
    ensures { OnOk result (out.new.items ≡ out.old.items ++ choice_line (program_of local.now) depth kernel who) }
{
    push_indent(out, depth)?;
    push_pieces(out, &[b"choice ", local.kernel_name(kernel), b" at "])?;
    push_guard(local, out, who)?;
    out.push(b'\n')?;
    Ok(())
}

fn push_relay(local: &Local, out: &mut Vec<u8>, depth: usize, relay: &Relay) -> Result<(), NoMemory>
    ensures { OnOk result (out.new.items ≡ out.old.items ++ relay_line (program_of local.now) depth relay.now) }
{
    push_indent(out, depth)?;
    push_pieces(out, &[b"relay "])?;
    push_peer(local, out, relay.from)?;
    push_pieces(out, &[b" when "])?;
    push_guards(local, out, relay.guards.list())?;
    out.push(b'\n')?;
    Ok(())
}

/// Appends a line for each relay of a choice.
pub fn push_relays(
    local: &Local,
    out: &mut Vec<u8>,
    depth: usize,
    relays: &[Relay],
) -> Result<(), NoMemory>
    ensures { OnOk result (out.new.items ≡ out.old.items ++ relay_lines (program_of local.now) depth relays.now) }
{
    for relay in relays {
        push_relay(local, out, depth, relay)?;
    }
    Ok(())
}

fn push_test(local: &Local, out: &mut Vec<u8>, depth: usize, test: &Test) -> Result<(), NoMemory>
    ensures { OnOk result (out.new.items ≡ out.old.items ++ test_line (program_of local.now) depth test.now) }
{
    push_indent(out, depth)?;
    push_pieces(out, &[b"told ", local.label_name(test.label), b" "])?;
    push_decimal(out, u64::from(test.branch))?;
    push_pieces(out, &[b" when "])?;
    push_guards(local, out, test.guards.list())?;
    out.push(b'\n')?;
    Ok(())
}

/// Appends a line for each test of a choice.
pub fn push_tests(
    local: &Local,
    out: &mut Vec<u8>,
    depth: usize,
    tests: &[Test],
) -> Result<(), NoMemory>
    ensures { OnOk result (out.new.items ≡ out.old.items ++ test_lines (program_of local.now) depth tests.now) }
{
    for test in tests {
        push_test(local, out, depth, test)?;
    }
    Ok(())
}

/// Appends the line that opens a branch, with its number.
pub fn push_branch(out: &mut Vec<u8>, depth: usize, number: usize) -> Result<(), NoMemory>
    ensures { OnOk result (out.new.items ≡ out.old.items ++ branch_line depth number) }
{
    let mut buffer = Buffer::new();
    push_indent(out, depth)?;
    push_pieces(out, &[b"branch ", buffer.format(number).as_bytes(), b"\n"])
}

/// Appends the line of a `Send`.
pub fn push_send(
    local: &Local,
    out: &mut Vec<u8>,
    depth: usize,
    label: u32,
    to: Peer,
) -> Result<(), NoMemory>
    ensures { OnOk result (out.new.items ≡ out.old.items ++ send_line (program_of local.now) depth label to) }
{
    push_indent(out, depth)?;
    push_pieces(out, &[b"send ", local.label_name(label), b" to "])?;
    push_peer(local, out, to)?;
    out.push(b'\n')?;
    Ok(())
}

/// Appends the line of a `Recv`.
pub fn push_recv(
    local: &Local,
    out: &mut Vec<u8>,
    depth: usize,
    label: u32,
    from: Peer,
) -> Result<(), NoMemory>
    ensures { OnOk result (out.new.items ≡ out.old.items ++ recv_line (program_of local.now) depth label from) }
{
    push_indent(out, depth)?;
    push_pieces(out, &[b"recv ", local.label_name(label), b" from "])?;
    push_peer(local, out, from)?;
    out.push(b'\n')?;
    Ok(())
}

/// Appends the line of a `Run`.
pub fn push_run(local: &Local, out: &mut Vec<u8>, depth: usize, kernel: u32) -> Result<(), NoMemory>
    ensures { OnOk result (out.new.items ≡ out.old.items ++ run_line (program_of local.now) depth kernel) }
{
    push_indent(out, depth)?;
    push_pieces(out, &[b"run ", local.kernel_name(kernel), b"\n"])
}

/// Appends the line of a `Broadcast`.
pub fn push_broadcast(
    local: &Local,
    out: &mut Vec<u8>,
    depth: usize,
    label: u32,
    root: Peer,
) -> Result<(), NoMemory>
    ensures { OnOk result (out.new.items ≡ out.old.items ++ broadcast_line (program_of local.now) depth label root) }
{
    push_indent(out, depth)?;
    push_pieces(out, &[b"broadcast ", local.label_name(label), b" from "])?;
    push_peer(local, out, root)?;
    out.push(b'\n')?;
    Ok(())
}

/// Appends the line of a `Reduce`.
pub fn push_reduce(
    local: &Local,
    out: &mut Vec<u8>,
    depth: usize,
    label: u32,
    op: Op,
    root: Peer,
) -> Result<(), NoMemory>
    ensures { OnOk result (out.new.items ≡ out.old.items ++ reduce_line (program_of local.now) depth label op root) }
{
    push_indent(out, depth)?;
    push_pieces(out, &[b"reduce ", local.label_name(label), b" "])?;
    push_pieces(out, &[op_name(op), b" to "])?;
    push_peer(local, out, root)?;
    out.push(b'\n')?;
    Ok(())
}

/// Appends the line of an `Allreduce`.
pub fn push_allreduce(
    local: &Local,
    out: &mut Vec<u8>,
    depth: usize,
    label: u32,
    op: Op,
) -> Result<(), NoMemory>
    ensures { OnOk result (out.new.items ≡ out.old.items ++ allreduce_line (program_of local.now) depth label op) }
{
    push_indent(out, depth)?;
    push_pieces(out, &[b"allreduce ", local.label_name(label), b" "])?;
    push_pieces(out, &[op_name(op), b"\n"])
}
