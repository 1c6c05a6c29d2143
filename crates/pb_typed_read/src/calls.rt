//! The lines of main that call kernel functions and MPI.

use crate::line::{behind, behind_word, name, unindented};
use crate::rows::Rows;
use pb_cprint_lines::{count_of, received_into, sent_from, type_name};
use pb_ctree::Payload;
use pb_text::{NoMemory, push_decimal};

/// The buffer that stands in a plain call of `take_`.
#[derive(Clone, Copy)]
pub enum Buffer {
    Sent,
    Received,
}

/// How the call of MPI in a line uses the buffers.
#[derive(Clone, Copy)]
enum Use {
    Send,
    Receive,
    Share,
    Reduce,
}

/// The buffer that a `take_` behind this line has, where it calls MPI.
pub fn buffer_behind(line: &[u8], before: Buffer) -> Buffer {
    let (_, call) = unindented(line);
    if call.starts_with(b"MPI_Bcast(") {
        Buffer::Sent
    } else if call.starts_with(b"MPI_") {
        Buffer::Received
    } else {
        before
    }
}

/// Whether a line of main has no line in its place in the plain text.
pub fn is_further(line: &[u8]) -> bool {
    let (_, call) = unindented(line);
    let fronts: [&[u8]; 5] = [b"PABBLE(", b"t_", b"m_", b"n_", b"MPI_Get_count("];
    fronts.iter().any(|front| call.starts_with(*front))
}

/// Appends the plain line of a line of main.
pub fn push_plain(
    out: &mut Vec<u8>,
    rows: &Rows,
    line: &[u8],
    buffer: Buffer,
) -> Result<(), NoMemory> {
    let (indent, call) = unindented(line);
    let (root, call) = root_of(call);
    if let Some(payload) = made_in(rows, call) {
        push_call(out, indent, root, b"make_", call, sent_from(payload))
    } else if let Some(payload) = taken_in(rows, call) {
        push_call(
            out,
            indent,
            root,
            b"take_",
            call,
            buffer_of(payload, buffer),
        )
    } else {
        push_mpi(out, rows, line)
    }
}

fn buffer_of(payload: Payload, buffer: Buffer) -> &'static [u8] {
    match buffer {
        Buffer::Sent => sent_from(payload),
        Buffer::Received => received_into(payload),
    }
}

/// The condition in front that the rank is the root, and the rest.
fn root_of(call: &[u8]) -> (&[u8], &[u8]) {
    if !call.starts_with(b"if (R == ") || call.ends_with(b"{\n") {
        return (b"", call);
    }
    match behind(b')', call) {
        Some(rest) => match rest.strip_prefix(b" ") {
            Some(rest) => (
                call.get(..call.len().saturating_sub(rest.len()))
                    .unwrap_or(b""),
                rest,
            ),
            None => (b"", call),
        },
        None => (b"", call),
    }
}

/// The payload of the label that is made.
fn made_in(rows: &Rows, call: &[u8]) -> Option<Payload> {
    payload_of(rows, made_name(call)?)
}

/// What stands behind `make_`, also where what it gives is kept.
fn made_name(call: &[u8]) -> Option<&[u8]> {
    match call.strip_prefix(b"make_") {
        Some(rest) => Some(rest),
        None => {
            let text = call.strip_prefix(b"s_")?;
            behind_word(text).strip_prefix(b" = make_")
        }
    }
}

fn taken_in(rows: &Rows, call: &[u8]) -> Option<Payload> {
    payload_of(rows, call.strip_prefix(b"take_")?)
}

/// The payload of the label whose name stands in front.
fn payload_of(rows: &Rows, text: &[u8]) -> Option<Payload> {
    let name = name(text)?;
    let row = rows.label(&name)?;
    Some(row.payload)
}

/// Appends a plain call of a kernel function on a buffer.
fn push_call(
    out: &mut Vec<u8>,
    indent: &[u8],
    root: &[u8],
    front: &[u8],
    call: &[u8],
    buffer: &[u8],
) -> Result<(), NoMemory> {
    let text = made_name(call).unwrap_or(call.strip_prefix(b"take_").unwrap_or(call));
    let Some(label) = name(text) else {
        return Ok(());
    };
    out.extend_from_slice(indent)?;
    out.extend_from_slice(root)?;
    out.extend_from_slice(front)?;
    out.extend_from_slice(label.bytes())?;
    out.extend_from_slice(b"(N, R, I, ")?;
    out.extend_from_slice(buffer)?;
    out.extend_from_slice(b");\n")?;
    Ok(())
}

/// How a call of MPI uses the buffers, where the line is one with a typed label, and what stands behind its bracket.
fn use_of(call: &[u8]) -> Option<(Use, &[u8])> {
    if let Some(data) = call.strip_prefix(b"MPI_Send(") {
        Some((Use::Send, data))
    } else if let Some(data) = call.strip_prefix(b"MPI_Recv(") {
        Some((Use::Receive, data))
    } else if let Some(data) = call.strip_prefix(b"MPI_Bcast(") {
        Some((Use::Share, data))
    } else if let Some(data) = call.strip_prefix(b"MPI_Reduce(") {
        Some((Use::Reduce, data))
    } else {
        let data = call.strip_prefix(b"MPI_Allreduce(")?;
        Some((Use::Reduce, data))
    }
}

/// Appends the plain line of a line that may call MPI.
fn push_mpi(out: &mut Vec<u8>, rows: &Rows, line: &[u8]) -> Result<(), NoMemory> {
    match typed_call(rows, line) {
        Some((usage, payload, data)) => push_typed(out, line, usage, payload, data),
        None => {
            out.extend_from_slice(line)?;
            Ok(())
        }
    }
}

/// What a call of MPI with a typed label uses, the label's payload, and the data behind the bracket.
fn typed_call<'a>(rows: &Rows, line: &'a [u8]) -> Option<(Use, Payload, &'a [u8])> {
    let (_, call) = unindented(line);
    let (usage, data) = use_of(call)?;
    let text = match data.strip_prefix(b"s_") {
        Some(text) => text,
        None => data.strip_prefix(b"t_")?,
    };
    Some((usage, payload_of(rows, text)?, data))
}

/// Appends a call of MPI with plain data.
fn push_typed(
    out: &mut Vec<u8>,
    line: &[u8],
    usage: Use,
    payload: Payload,
    data: &[u8],
) -> Result<(), NoMemory> {
    let front = line
        .get(..line.len().saturating_sub(data.len()))
        .unwrap_or(b"");
    out.extend_from_slice(front)?;
    push_data(out, usage, payload)?;
    let rest = rest_of(usage, data).unwrap_or(b"");
    match rest.strip_suffix(b"&st);\n") {
        Some(rest) => {
            out.extend_from_slice(rest)?;
            out.extend_from_slice(b"MPI_STATUS_IGNORE);\n")?;
        }
        None => out.extend_from_slice(rest)?,
    }
    Ok(())
}

/// What stands behind buffers, count and type, with its comma.
fn rest_of(usage: Use, data: &[u8]) -> Option<&[u8]> {
    let behind_first = behind(b',', data)?;
    let behind_second = behind(b',', behind_first)?;
    let last = match usage {
        Use::Send | Use::Receive | Use::Share => behind_second,
        Use::Reduce => behind(b',', behind_second)?,
    };
    let len = last.iter().take_while(|byte| **byte != b',').count();
    last.get(len..)
}

/// Appends the plain buffers, count and type.
fn push_data(out: &mut Vec<u8>, usage: Use, payload: Payload) -> Result<(), NoMemory> {
    match usage {
        Use::Send | Use::Share => out.extend_from_slice(sent_from(payload))?,
        Use::Receive => out.extend_from_slice(received_into(payload))?,
        Use::Reduce => {
            out.extend_from_slice(sent_from(payload))?;
            out.extend_from_slice(b", ")?;
            out.extend_from_slice(received_into(payload))?;
        }
    }
    out.extend_from_slice(b", ")?;
    push_decimal(out, u64::from(count_of(payload)))?;
    out.extend_from_slice(b", ")?;
    out.extend_from_slice(type_name(payload))?;
    Ok(())
}
