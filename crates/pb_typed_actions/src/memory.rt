//! The lines of labels in the kernels' own memory: room, and counts that are looked at before MPI is called.

ghost use Rattle.std.specs.Prelude.{◌≡◌, ◌++◌, OnOk, Some, None};
ghost use Rattle.pb_local.specs.Pieces.{line};
ghost use Rattle.pb_local.specs.Tree.{program_of};
ghost use Rattle.pb_typed.specs.Calls.{made_count, room_text, room_count, came_text, shared_room, shared_count, root_room, root_count, all_count};
ghost use Rattle.pb_typed.specs.Pieces.{pieces_text};
ghost use Rattle.pb_typed.specs.Statements.{made_checks, rooms, arrivals, shared_rooms, root_rooms, all_rooms};

use pb_local::{Local, Peer};
use pb_text::NoMemory;
use pb_typed_lines::{Bit, Carried, Element, push_line};

/// The count of what was made isn't below 0.
fn push_made_count(
    local: &Local,
    types: &[Carried],
    out: &mut Vec<u8>,
    depth: usize,
    label: u32,
) -> Result<(), NoMemory>
    ensures { OnOk result (out.new.items ≡ out.old.items ++ line depth (made_count (program_of local.now) label)) }
{
    push_line(
        local,
        types,
        out,
        depth,
        &[
            Bit::Word(b"n_"),
            Bit::Name(label),
            Bit::Word(b" = pabble_count(\"make_"),
            Bit::Name(label),
            Bit::Word(b"\", n_"),
            Bit::Name(label),
            Bit::Word(b", 2147483647);"),
        ],
    )
}

/// Room for a message.
fn push_room(
    local: &Local,
    types: &[Carried],
    out: &mut Vec<u8>,
    depth: usize,
    label: u32,
    from: Peer,
) -> Result<(), NoMemory>
    ensures { OnOk result (out.new.items ≡ out.old.items ++ line depth (room_text (program_of local.now) label (Some from))) }
{
    push_line(
        local,
        types,
        out,
        depth,
        &[
            Bit::Word(b"t_"),
            Bit::Name(label),
            Bit::Word(b" = room_"),
            Bit::Name(label),
            Bit::Word(b"(N, R, I, "),
            Bit::End(Some(from)),
            Bit::Word(b", &m_"),
            Bit::Name(label),
            Bit::Word(b");"),
        ],
    )
}

/// Room for what is reduced.
fn push_all_room(
    local: &Local,
    types: &[Carried],
    out: &mut Vec<u8>,
    depth: usize,
    label: u32,
) -> Result<(), NoMemory>
    ensures { OnOk result (out.new.items ≡ out.old.items ++ line depth (room_text (program_of local.now) label None)) }
{
    push_line(
        local,
        types,
        out,
        depth,
        &[
            Bit::Word(b"t_"),
            Bit::Name(label),
            Bit::Word(b" = room_"),
            Bit::Name(label),
            Bit::Word(b"(N, R, I, "),
            Bit::End(None),
            Bit::Word(b", &m_"),
            Bit::Name(label),
            Bit::Word(b");"),
        ],
    )
}

/// The room isn't below 0.
fn push_room_count(
    local: &Local,
    types: &[Carried],
    out: &mut Vec<u8>,
    depth: usize,
    label: u32,
) -> Result<(), NoMemory>
    ensures { OnOk result (out.new.items ≡ out.old.items ++ line depth (room_count (program_of local.now) label)) }
{
    push_line(
        local,
        types,
        out,
        depth,
        &[
            Bit::Word(b"m_"),
            Bit::Name(label),
            Bit::Word(b" = pabble_count(\"room_"),
            Bit::Name(label),
            Bit::Word(b"\", m_"),
            Bit::Name(label),
            Bit::Word(b", 2147483647);"),
        ],
    )
}

/// How much came.
fn push_came(
    local: &Local,
    types: &[Carried],
    out: &mut Vec<u8>,
    depth: usize,
    label: u32,
    element: Element,
) -> Result<(), NoMemory>
    ensures { OnOk result (out.new.items ≡ out.old.items ++ line depth (came_text element (program_of local.now) label)) }
{
    push_line(
        local,
        types,
        out,
        depth,
        &[
            Bit::Word(b"MPI_Get_count(&st, "),
            Bit::Word(element.mpi_name()),
            Bit::Word(b", &m_"),
            Bit::Name(label),
            Bit::Word(b");"),
        ],
    )?;
    Ok(())
}

/// What the root of a broadcast made, and room at the others.
fn push_shared_room(
    local: &Local,
    types: &[Carried],
    out: &mut Vec<u8>,
    depth: usize,
    label: u32,
    element: Element,
    root: Peer,
) -> Result<(), NoMemory>
    ensures { OnOk result (out.new.items ≡ out.old.items ++ line depth (shared_room element (program_of local.now) label root)) }
{
    push_line(
        local,
        types,
        out,
        depth,
        &[
            Bit::Word(b"t_"),
            Bit::Name(label),
            Bit::Word(b" = "),
            Bit::Root(root),
            Bit::Word(b" ? ("),
            Bit::Word(element.c_name()),
            Bit::Word(b" *)s_"),
            Bit::Name(label),
            Bit::Word(b" : room_"),
            Bit::Name(label),
            Bit::Word(b"(N, R, I, "),
            Bit::End(Some(root)),
            Bit::Word(b", &m_"),
            Bit::Name(label),
            Bit::Word(b");"),
        ],
    )
}

/// Neither count of a broadcast is below 0.
fn push_shared_count(
    local: &Local,
    types: &[Carried],
    out: &mut Vec<u8>,
    depth: usize,
    label: u32,
    root: Peer,
) -> Result<(), NoMemory>
    ensures { OnOk result (out.new.items ≡ out.old.items ++ line depth (shared_count (program_of local.now) label root)) }
{
    push_line(
        local,
        types,
        out,
        depth,
        &[
            Bit::Word(b"m_"),
            Bit::Name(label),
            Bit::Word(b" = pabble_count("),
            Bit::Root(root),
            Bit::Word(b" ? \"make_"),
            Bit::Name(label),
            Bit::Word(b"\" : \"room_"),
            Bit::Name(label),
            Bit::Word(b"\", "),
            Bit::Root(root),
            Bit::Word(b" ? n_"),
            Bit::Name(label),
            Bit::Word(b" : m_"),
            Bit::Name(label),
            Bit::Word(b", 2147483647);"),
        ],
    )
}

/// Room at the root for what is reduced.
fn push_root_room(
    local: &Local,
    types: &[Carried],
    out: &mut Vec<u8>,
    depth: usize,
    label: u32,
    root: Peer,
) -> Result<(), NoMemory>
    ensures { OnOk result (out.new.items ≡ out.old.items ++ line depth (root_room (program_of local.now) label root)) }
{
    push_line(
        local,
        types,
        out,
        depth,
        &[
            Bit::Word(b"t_"),
            Bit::Name(label),
            Bit::Word(b" = "),
            Bit::Root(root),
            Bit::Word(b" ? room_"),
            Bit::Name(label),
            Bit::Word(b"(N, R, I, -1, -1, &m_"),
            Bit::Name(label),
            Bit::Word(b") : 0;"),
        ],
    )
}

/// A reduction's count isn't above the root's room.
fn push_root_count(
    local: &Local,
    types: &[Carried],
    out: &mut Vec<u8>,
    depth: usize,
    label: u32,
    root: Peer,
) -> Result<(), NoMemory>
    ensures { OnOk result (out.new.items ≡ out.old.items ++ line depth (root_count (program_of local.now) label root)) }
{
    push_line(
        local,
        types,
        out,
        depth,
        &[
            Bit::Word(b"m_"),
            Bit::Name(label),
            Bit::Word(b" = pabble_count(\"make_"),
            Bit::Name(label),
            Bit::Word(b"\", n_"),
            Bit::Name(label),
            Bit::Word(b", "),
            Bit::Root(root),
            Bit::Word(b" ? m_"),
            Bit::Name(label),
            Bit::Word(b" : 2147483647);"),
        ],
    )
}

/// A reduction's count isn't above the room.
fn push_all_count(
    local: &Local,
    types: &[Carried],
    out: &mut Vec<u8>,
    depth: usize,
    label: u32,
) -> Result<(), NoMemory>
    ensures { OnOk result (out.new.items ≡ out.old.items ++ line depth (all_count (program_of local.now) label)) }
{
    push_line(
        local,
        types,
        out,
        depth,
        &[
            Bit::Word(b"m_"),
            Bit::Name(label),
            Bit::Word(b" = pabble_count(\"make_"),
            Bit::Name(label),
            Bit::Word(b"\", n_"),
            Bit::Name(label),
            Bit::Word(b", m_"),
            Bit::Name(label),
            Bit::Word(b");"),
        ],
    )
}

/// Where the label has the kernels' own memory, checks that a message's count isn't below 0.
pub fn push_made_checks(
    local: &Local,
    types: &[Carried],
    out: &mut Vec<u8>,
    carried: Carried,
    depth: usize,
    label: u32,
) -> Result<(), NoMemory>
    ensures { OnOk result (out.new.items ≡ out.old.items ++ pieces_text (program_of local.now) (made_checks carried (program_of local.now) depth label)) }
{
    match carried {
        Carried::Words => Ok(()),
        Carried::Fixed { .. } => Ok(()),
        Carried::Open { .. } => {
            push_made_count(local, types, out, depth, label)?;
            Ok(())
        }
    }
}

/// Where the label has the kernels' own memory, asks for room for a message.
pub fn push_rooms(
    local: &Local,
    types: &[Carried],
    out: &mut Vec<u8>,
    carried: Carried,
    depth: usize,
    label: u32,
    from: Peer,
) -> Result<(), NoMemory>
    ensures { OnOk result (out.new.items ≡ out.old.items ++ pieces_text (program_of local.now) (rooms carried (program_of local.now) depth label from)) }
{
    match carried {
        Carried::Words => Ok(()),
        Carried::Fixed { .. } => Ok(()),
        Carried::Open { .. } => {
            push_room(local, types, out, depth, label, from)?;
            push_room_count(local, types, out, depth, label)?;
            Ok(())
        }
    }
}

/// Where the label has the kernels' own memory, asks how much came.
pub fn push_arrivals(
    local: &Local,
    types: &[Carried],
    out: &mut Vec<u8>,
    carried: Carried,
    depth: usize,
    label: u32,
) -> Result<(), NoMemory>
    ensures { OnOk result (out.new.items ≡ out.old.items ++ pieces_text (program_of local.now) (arrivals carried (program_of local.now) depth label)) }
{
    match carried {
        Carried::Words => Ok(()),
        Carried::Fixed { .. } => Ok(()),
        Carried::Open { element } => {
            push_came(local, types, out, depth, label, element)?;
            Ok(())
        }
    }
}

/// Where the label has the kernels' own memory, asks for room for a broadcast, but at the root.
pub fn push_shared_rooms(
    local: &Local,
    types: &[Carried],
    out: &mut Vec<u8>,
    carried: Carried,
    depth: usize,
    label: u32,
    root: Peer,
) -> Result<(), NoMemory>
    ensures { OnOk result (out.new.items ≡ out.old.items ++ pieces_text (program_of local.now) (shared_rooms carried (program_of local.now) depth label root)) }
{
    match carried {
        Carried::Words => Ok(()),
        Carried::Fixed { .. } => Ok(()),
        Carried::Open { element } => {
            push_shared_room(local, types, out, depth, label, element, root)?;
            push_shared_count(local, types, out, depth, label, root)?;
            Ok(())
        }
    }
}

/// Where the label has the kernels' own memory, asks the root for room for what is reduced.
pub fn push_root_rooms(
    local: &Local,
    types: &[Carried],
    out: &mut Vec<u8>,
    carried: Carried,
    depth: usize,
    label: u32,
    root: Peer,
) -> Result<(), NoMemory>
    ensures { OnOk result (out.new.items ≡ out.old.items ++ pieces_text (program_of local.now) (root_rooms carried (program_of local.now) depth label root)) }
{
    match carried {
        Carried::Words => Ok(()),
        Carried::Fixed { .. } => Ok(()),
        Carried::Open { .. } => {
            push_root_room(local, types, out, depth, label, root)?;
            push_root_count(local, types, out, depth, label, root)?;
            Ok(())
        }
    }
}

/// Where the label has the kernels' own memory, asks all ranks for room for what is reduced.
pub fn push_all_rooms(
    local: &Local,
    types: &[Carried],
    out: &mut Vec<u8>,
    carried: Carried,
    depth: usize,
    label: u32,
) -> Result<(), NoMemory>
    ensures { OnOk result (out.new.items ≡ out.old.items ++ pieces_text (program_of local.now) (all_rooms carried (program_of local.now) depth label)) }
{
    match carried {
        Carried::Words => Ok(()),
        Carried::Fixed { .. } => Ok(()),
        Carried::Open { .. } => {
            push_all_room(local, types, out, depth, label)?;
            push_all_count(local, types, out, depth, label)?;
            Ok(())
        }
    }
}
