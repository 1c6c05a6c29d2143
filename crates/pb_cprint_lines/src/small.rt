//! Numbers, lins, guards and ranks as they are spelled in C.

ghost use Rattle.std.specs.Prelude.{◌≡◌, ◌++◌, OnOk, Some, None};
ghost use Rattle.pb_ctree.specs.Small.{offset_text, lin_text, index_text, from_text, to_text, guard_text, others_text, cond_text, peer_text, root_text, buffer_text, outgoing, incoming, type_text, count_of, op_text, words_text, call_text, reduced_text};
ghost use Rattle.pb_ctree.specs.Lines.{test_text};
ghost use Rattle.pb_local.specs.Tree.{program_of};
ghost use Rattle.pb_cprint_lines.specs.Printed.{several_text};

use pb_ctree::{Base, Guard, Lin, Local, NoMemory, Op, Payload, Peer};
use pb_local::{is_same_lin, push_pieces};
use pb_text::{push_decimal, push_number};

/// Appends ` + 1` or ` - 1`, and nothing for 0.
pub fn push_offset(out: &mut Vec<u8>, off: i32) -> Result<(), NoMemory>
    ensures { OnOk result (out.new.items ≡ out.old.items ++ offset_text off) }
{
    if off < 0 {
        out.extend_from_slice(b" - ")?;
        push_decimal(out, u64::from(off.unsigned_abs()))?;
    } else if 0 < off {
        out.extend_from_slice(b" + ")?;
        push_decimal(out, u64::from(off.unsigned_abs()))?;
    }
    Ok(())
}

/// Appends a lin such as `5`, `N - 1` or `i + 1`.
pub fn push_lin(out: &mut Vec<u8>, lin: Lin) -> Result<(), NoMemory>
    ensures { OnOk result (out.new.items ≡ out.old.items ++ lin_text lin) }
{
    match lin.base {
        Base::Fixed => push_number(out, i64::from(lin.off)),
        Base::Param => {
            out.push(b'N')?;
            push_offset(out, lin.off)
        }
        Base::Var => {
            out.push(b'i')?;
            push_offset(out, lin.off)
        }
    }
}

fn push_range(out: &mut Vec<u8>, low: Lin, high: Lin) -> Result<(), NoMemory>
    ensures { OnOk result (out.new.items ≡ out.old.items ++ index_text (Some low) (Some high)) }
{
    if is_same_lin(low, high) {
        push_pieces(out, &[b" && I == "])?;
        return push_lin(out, low);
    }
    push_pieces(out, &[b" && I >= "])?;
    push_lin(out, low)?;
    push_pieces(out, &[b" && I <= "])?;
    push_lin(out, high)
}

fn push_index(out: &mut Vec<u8>, low: Option<Lin>, high: Option<Lin>) -> Result<(), NoMemory>
    ensures { OnOk result (out.new.items ≡ out.old.items ++ index_text low high) }
{
    match (low, high) {
        (None, None) => Ok(()),
        (Some(low), None) => {
            push_pieces(out, &[b" && I >= "])?;
            push_lin(out, low)
        }
        (None, Some(high)) => {
            push_pieces(out, &[b" && I <= "])?;
            push_lin(out, high)
        }
        (Some(low), Some(high)) => push_range(out, low, high),
    }
}

fn push_from(out: &mut Vec<u8>, from: Option<u32>) -> Result<(), NoMemory>
    ensures { OnOk result (out.new.items ≡ out.old.items ++ from_text from) }
{
    if let Some(n) = from {
        push_pieces(out, &[b" && N >= "])?;
        push_decimal(out, u64::from(n))?;
    }
    Ok(())
}

fn push_to(out: &mut Vec<u8>, to: Option<u32>) -> Result<(), NoMemory>
    ensures { OnOk result (out.new.items ≡ out.old.items ++ to_text to) }
{
    if let Some(n) = to {
        push_pieces(out, &[b" && N <= "])?;
        push_decimal(out, u64::from(n))?;
    }
    Ok(())
}

fn push_guard(out: &mut Vec<u8>, guard: Guard) -> Result<(), NoMemory>
    ensures { OnOk result (out.new.items ≡ out.old.items ++ guard_text guard) }
{
    push_pieces(out, &[b"R == "])?;
    push_decimal(out, u64::from(guard.role))?;
    push_index(out, guard.low, guard.high)?;
    push_from(out, guard.from)?;
    push_to(out, guard.to)
}

fn push_others(out: &mut Vec<u8>, guards: &[Guard]) -> Result<(), NoMemory>
    ensures { OnOk result (out.new.items ≡ out.old.items ++ others_text guards.now) }
{
    for guard in guards {
        push_pieces(out, &[b" || ("])?;
        push_guard(out, *guard)?;
        out.push(b')')?;
    }
    Ok(())
}

/// Appends the condition that one of the guards holds, and nothing where there are none.
pub fn push_cond(out: &mut Vec<u8>, guards: &[Guard]) -> Result<(), NoMemory>
    ensures { OnOk result (out.new.items ≡ out.old.items ++ cond_text guards.now) }
{
    match guards {
        [] => Ok(()),
        [guard] => push_guard(out, *guard),
        [first, others @ ..] => push_several(out, *first, others),
    }
}

fn push_several(out: &mut Vec<u8>, first: Guard, others: &[Guard]) -> Result<(), NoMemory>
    ensures { OnOk result (out.new.items ≡ out.old.items ++ several_text first others.now) }
{
    out.push(b'(')?;
    push_guard(out, first)?;
    out.push(b')')?;
    push_others(out, others)
}

/// A tag, and the ranks that hear of it.
pub fn push_test(out: &mut Vec<u8>, label: u32, guards: &[Guard]) -> Result<(), NoMemory>
    ensures { OnOk result (out.new.items ≡ out.old.items ++ test_text label guards.now) }
{
    push_decimal(out, u64::from(label))?;
    push_pieces(out, &[b" && ("])?;
    push_cond(out, guards)?;
    push_pieces(out, &[b")) {"])
}

/// Appends the call that gives the number of a rank.
pub fn push_peer(local: &Local, out: &mut Vec<u8>, peer: Peer) -> Result<(), NoMemory>
    ensures { OnOk result (out.new.items ≡ out.old.items ++ peer_text (program_of local.now) peer) }
{
    push_pieces(out, &[b"r_", local.role_name(peer.role), b"(N, "])?;
    push_lin(out, peer.at)?;
    out.push(b')')?;
    Ok(())
}

/// Appends the condition that the rank is the root.
pub fn push_root(out: &mut Vec<u8>, root: Peer) -> Result<(), NoMemory>
    ensures { OnOk result (out.new.items ≡ out.old.items ++ root_text root) }
{
    push_pieces(out, &[b"R == "])?;
    push_decimal(out, u64::from(root.role))?;
    push_pieces(out, &[b" && I == "])?;
    push_lin(out, root.at)
}

/// The buffer that words are sent from.
pub fn sent_from(payload: Payload) -> &'static [u8]
    ensures { result.now ≡ buffer_text payload outgoing }
{
    match payload {
        Payload::Int32(_) => b"is",
        Payload::Uint32(_) => b"us",
        Payload::Unit => b"us",
    }
}

/// The buffer that words are received into.
pub fn received_into(payload: Payload) -> &'static [u8]
    ensures { result.now ≡ buffer_text payload incoming }
{
    match payload {
        Payload::Int32(_) => b"ir",
        Payload::Uint32(_) => b"ur",
        Payload::Unit => b"ur",
    }
}

/// The type of words, for MPI.
pub fn type_name(payload: Payload) -> &'static [u8]
    ensures { result.now ≡ type_text payload }
{
    match payload {
        Payload::Int32(_) => b"MPI_INT32_T",
        Payload::Uint32(_) => b"MPI_UINT32_T",
        Payload::Unit => b"MPI_UINT32_T",
    }
}

/// How many words.
pub fn count_of(payload: Payload) -> u32
    ensures { result ≡ count_of payload }
{
    match payload {
        Payload::Int32(count) => count,
        Payload::Uint32(count) => count,
        Payload::Unit => 0,
    }
}

fn op_name(op: Op) -> &'static [u8]
    ensures { result.now ≡ op_text op }
{
    match op {
        Op::Min => b"MPI_MIN",
        Op::Max => b"MPI_MAX",
        Op::Sum => b"MPI_SUM",
    }
}

/// The buffer that is sent from, its count and its type.
pub fn push_sent(local: &Local, out: &mut Vec<u8>, label: u32) -> Result<(), NoMemory>
    ensures { OnOk result (out.new.items ≡ out.old.items ++ words_text (program_of local.now) label outgoing) }
{
    let payload = local.payload(label);
    push_pieces(out, &[sent_from(payload), b", "])?;
    push_decimal(out, u64::from(count_of(payload)))?;
    push_pieces(out, &[b", ", type_name(payload)])
}

/// The buffer that is received into, its count and its type.
pub fn push_received(local: &Local, out: &mut Vec<u8>, label: u32) -> Result<(), NoMemory>
    ensures { OnOk result (out.new.items ≡ out.old.items ++ words_text (program_of local.now) label incoming) }
{
    let payload = local.payload(label);
    push_pieces(out, &[received_into(payload), b", "])?;
    push_decimal(out, u64::from(count_of(payload)))?;
    push_pieces(out, &[b", ", type_name(payload)])
}

/// The two buffers of a reduction, their count and type, and the operation.
pub fn push_reduced(local: &Local, out: &mut Vec<u8>, label: u32, op: Op) -> Result<(), NoMemory>
    ensures { OnOk result (out.new.items ≡ out.old.items ++ reduced_text (program_of local.now) label op) }
{
    push_pieces(out, &[sent_from(local.payload(label)), b", "])?;
    push_received(local, out, label)?;
    push_pieces(out, &[b", ", op_name(op)])
}

/// The rest of a call of a kernel function on the buffer that is sent from.
pub fn push_sent_call(local: &Local, out: &mut Vec<u8>, label: u32) -> Result<(), NoMemory>
    ensures { OnOk result (out.new.items ≡ out.old.items ++ call_text (program_of local.now) label outgoing) }
{
    push_pieces(out, &[local.label_name(label), b"(N, R, I, "])?;
    push_pieces(out, &[sent_from(local.payload(label)), b");"])
}

/// The rest of a call of a kernel function on the buffer that is received into.
pub fn push_received_call(local: &Local, out: &mut Vec<u8>, label: u32) -> Result<(), NoMemory>
    ensures { OnOk result (out.new.items ≡ out.old.items ++ call_text (program_of local.now) label incoming) }
{
    push_pieces(out, &[local.label_name(label), b"(N, R, I, "])?;
    push_pieces(out, &[received_into(local.payload(label)), b");"])
}
