//! What stands for the words of a label.

ghost use Rattle.std.specs.Prelude.{◌≡◌, ◌++◌, ◌∷◌, [], OnOk, codes, decimal};
ghost use Rattle.pb_local.specs.Pieces.{joined};
ghost use Rattle.pb_local.specs.Tree.{program_of};
ghost use Rattle.pb_ctree.specs.Small.{buffer_text, type_text, count_of, payload_of, root_text};
ghost use Rattle.pb_typed.specs.Carrying.{carried_at, letter, buffer_of, count_letter, count_at, type_at, data_of, data_text, shared};
ghost use Rattle.pb_typed.specs.Calls.{end_text, make_front, make_rest, take_rest, status_text};
ghost use Rattle.pb_typed.specs.Hooks.{words_kind, size_data, bytes_data, message_data, words_there, joint_data};
ghost use Rattle.pb_types.specs.declared.carried.Carried.TheVariants.{Words};
ghost use Rattle.pb_typed_lines.specs.Bits.{side_of};

use crate::bits::Side;
use pb_cprint_lines::{count_of, push_lin, push_root, received_into, sent_from, type_name};
use pb_local::{Local, Payload, Peer, push_pieces};
use pb_text::{NoMemory, push_decimal};
use pb_typed_types::Carried;

/// What a label carries; its words where the number is no label's.
pub fn carried_at(types: &[Carried], label: u32) -> Carried
    ensures { result ≡ carried_at types.now label }
{
    match types.get(label as usize) {
        Some(carried) => *carried,
        None => Carried::Words,
    }
}

fn letter(side: Side) -> &'static [u8]
    ensures { result.now ≡ letter (side_of side) }
{
    match side {
        Side::Sent => b"s_",
        Side::Received => b"t_",
    }
}

fn count_letter(side: Side) -> &'static [u8]
    ensures { result.now ≡ count_letter (side_of side) }
{
    match side {
        Side::Sent => b"n_",
        Side::Received => b"m_",
    }
}

fn plain_buffer(payload: Payload, side: Side) -> &'static [u8]
    ensures { result.now ≡ buffer_text payload (side_of side) }
{
    match side {
        Side::Sent => sent_from(payload),
        Side::Received => received_into(payload),
    }
}

fn words_kind(payload: Payload) -> &'static [u8]
    ensures { result.now ≡ words_kind payload }
{
    match payload {
        Payload::Int32(_) => b"int32",
        Payload::Uint32(_) => b"uint32",
        Payload::Unit => b"uint32",
    }
}

fn push_words(out: &mut Vec<u8>, payload: Payload) -> Result<(), NoMemory>
    ensures { OnOk result (out.new.items ≡ out.old.items ++ decimal (count_of payload)) }
{
    push_decimal(out, u64::from(count_of(payload)))
}

fn push_two(out: &mut Vec<u8>, first: &[u8], second: &[u8]) -> Result<(), NoMemory>
    ensures { OnOk result (out.new.items ≡ out.old.items ++ (first.now ++ second.now)) }
{
    out.extend_from_slice(first)?;
    out.extend_from_slice(second)?;
    Ok(())
}

/// A label's buffer, or the pointer to the kernels' own memory.
pub fn push_buffer(
    local: &Local,
    carried: Carried,
    out: &mut Vec<u8>,
    label: u32,
    side: Side,
) -> Result<(), NoMemory>
    ensures { OnOk result (out.new.items ≡ out.old.items ++ buffer_of carried (program_of local.now) label (side_of side)) }
{
    match carried {
        Carried::Words => push_pieces(out, &[plain_buffer(local.payload(label), side)]),
        Carried::Fixed { .. } => push_two(out, letter(side), local.label_name(label)),
        Carried::Open { .. } => push_two(out, letter(side), local.label_name(label)),
    }
}

fn push_count(
    local: &Local,
    carried: Carried,
    out: &mut Vec<u8>,
    label: u32,
    side: Side,
) -> Result<(), NoMemory>
    ensures { OnOk result (out.new.items ≡ out.old.items ++ count_at carried (program_of local.now) label (side_of side)) }
{
    match carried {
        Carried::Words => push_words(out, local.payload(label)),
        Carried::Fixed { .. } => push_pieces(out, &[b"n_", local.label_name(label)]),
        Carried::Open { .. } => push_two(out, count_letter(side), local.label_name(label)),
    }
}

fn type_of(local: &Local, carried: Carried, label: u32) -> &'static [u8]
    ensures { result.now ≡ type_at carried (program_of local.now) label }
{
    match carried {
        Carried::Words => type_name(local.payload(label)),
        Carried::Fixed { element, .. } => element.mpi_name(),
        Carried::Open { element } => element.mpi_name(),
    }
}

/// A label's buffer, count and type.
pub fn push_data(
    local: &Local,
    carried: Carried,
    out: &mut Vec<u8>,
    label: u32,
    side: Side,
) -> Result<(), NoMemory>
    ensures { OnOk result (out.new.items ≡ out.old.items ++ data_of carried (program_of local.now) label (side_of side)) }
{
    push_buffer(local, carried, out, label, side)?;
    push_pieces(out, &[b", "])?;
    push_count(local, carried, out, label, side)?;
    push_pieces(out, &[b", ", type_of(local, carried, label)])
}

/// A broadcast's buffer, count and type.
pub fn push_shared(
    local: &Local,
    carried: Carried,
    out: &mut Vec<u8>,
    label: u32,
) -> Result<(), NoMemory>
    ensures { OnOk result (out.new.items ≡ out.old.items ++ data_of carried (program_of local.now) label (shared carried)) }
{
    match carried {
        Carried::Words => push_data(local, carried, out, label, Side::Sent),
        Carried::Fixed { .. } => push_data(local, carried, out, label, Side::Sent),
        Carried::Open { .. } => push_data(local, carried, out, label, Side::Received),
    }
}

/// The role and the index at the other end, or -1 and -1 for all.
pub fn push_end(out: &mut Vec<u8>, end: Option<Peer>) -> Result<(), NoMemory>
    ensures { OnOk result (out.new.items ≡ out.old.items ++ end_text end) }
{
    match end {
        None => push_pieces(out, &[b"-1, -1"]),
        Some(peer) => {
            push_decimal(out, u64::from(peer.role))?;
            push_pieces(out, &[b", "])?;
            push_lin(out, peer.at)
        }
    }
}

/// A call of `make_` up to the other end.
pub fn push_make_front(
    local: &Local,
    carried: Carried,
    out: &mut Vec<u8>,
    label: u32,
) -> Result<(), NoMemory>
    ensures { OnOk result (out.new.items ≡ out.old.items ++ make_front carried (program_of local.now) label) }
{
    let name = local.label_name(label);
    match carried {
        Carried::Words => push_pieces(out, &[b"make_", name, b"(N, R, I, "]),
        Carried::Fixed { .. } => push_pieces(out, &[b"make_", name, b"(N, R, I, "]),
        Carried::Open { .. } => push_pieces(out, &[b"s_", name, b" = make_", name, b"(N, R, I, "]),
    }
}

/// The rest of that call.
pub fn push_make_rest(
    local: &Local,
    carried: Carried,
    out: &mut Vec<u8>,
    label: u32,
) -> Result<(), NoMemory>
    ensures { OnOk result (out.new.items ≡ out.old.items ++ make_rest carried (program_of local.now) label) }
{
    let name = local.label_name(label);
    match carried {
        Carried::Words => push_pieces(
            out,
            &[b", ", plain_buffer(local.payload(label), Side::Sent), b");"],
        ),
        Carried::Fixed { .. } => push_pieces(out, &[b", s_", name, b");"]),
        Carried::Open { .. } => push_pieces(out, &[b", &n_", name, b");"]),
    }
}

fn push_buffer_rest(
    local: &Local,
    carried: Carried,
    out: &mut Vec<u8>,
    label: u32,
    side: Side,
) -> Result<(), NoMemory>
    ensures { OnOk result (out.new.items ≡ out.old.items ++ joined (codes ", " ∷ buffer_of carried (program_of local.now) label (side_of side) ∷ codes ");" ∷ [])) }
{
    push_pieces(out, &[b", "])?;
    push_buffer(local, carried, out, label, side)?;
    push_pieces(out, &[b");"])
}

/// The rest of a call of `take_` behind the other end.
pub fn push_take_rest(
    local: &Local,
    carried: Carried,
    out: &mut Vec<u8>,
    label: u32,
    side: Side,
) -> Result<(), NoMemory>
    ensures { OnOk result (out.new.items ≡ out.old.items ++ take_rest carried (program_of local.now) label (side_of side)) }
{
    let name = local.label_name(label);
    match carried {
        Carried::Words => push_buffer_rest(local, carried, out, label, side),
        Carried::Fixed { .. } => push_buffer_rest(local, carried, out, label, side),
        Carried::Open { .. } => push_pieces(out, &[b", t_", name, b", m_", name, b");"]),
    }
}

/// The end of a receive, with the status that it asks for.
pub fn status(carried: Carried) -> &'static [u8]
    ensures { result.now ≡ status_text carried }
{
    match carried {
        Carried::Words => b", MPI_COMM_WORLD, MPI_STATUS_IGNORE);",
        Carried::Fixed { .. } => b", MPI_COMM_WORLD, MPI_STATUS_IGNORE);",
        Carried::Open { .. } => b", MPI_COMM_WORLD, &st);",
    }
}

fn push_buffer_comma(
    local: &Local,
    carried: Carried,
    out: &mut Vec<u8>,
    label: u32,
    side: Side,
) -> Result<(), NoMemory>
    ensures { OnOk result (out.new.items ≡ out.old.items ++ (buffer_of carried (program_of local.now) label (side_of side) ++ codes ", ")) }
{
    push_buffer(local, carried, out, label, side)?;
    push_pieces(out, &[b", "])
}

fn push_size(
    local: &Local,
    carried: Carried,
    out: &mut Vec<u8>,
    label: u32,
    side: Side,
) -> Result<(), NoMemory>
    ensures { OnOk result (out.new.items ≡ out.old.items ++ size_data carried (program_of local.now) label (side_of side)) }
{
    push_count(local, carried, out, label, side)?;
    push_pieces(out, &[b" * sizeof *"])?;
    push_buffer(local, carried, out, label, side)
}

fn push_bytes_data(
    local: &Local,
    carried: Carried,
    out: &mut Vec<u8>,
    label: u32,
    side: Side,
) -> Result<(), NoMemory>
    ensures { OnOk result (out.new.items ≡ out.old.items ++ bytes_data carried (program_of local.now) label (side_of side)) }
{
    push_pieces(out, &[b"bytes, "])?;
    push_words(out, local.payload(label))?;
    push_pieces(out, &[b", "])?;
    push_buffer_comma(local, carried, out, label, side)?;
    push_size(local, carried, out, label, side)
}

fn push_plain_words(
    local: &Local,
    out: &mut Vec<u8>,
    label: u32,
    side: Side,
) -> Result<(), NoMemory>
    ensures { OnOk result (out.new.items ≡ out.old.items ++ message_data Words (program_of local.now) label (side_of side)) }
{
    push_pieces(out, &[words_kind(local.payload(label)), b", "])?;
    push_words(out, local.payload(label))?;
    push_pieces(out, &[b", ", plain_buffer(local.payload(label), side)])
}

/// What is recorded of a message.
pub fn push_message(
    local: &Local,
    carried: Carried,
    out: &mut Vec<u8>,
    label: u32,
    side: Side,
) -> Result<(), NoMemory>
    ensures { OnOk result (out.new.items ≡ out.old.items ++ message_data carried (program_of local.now) label (side_of side)) }
{
    match carried {
        Carried::Words => push_plain_words(local, out, label, side),
        Carried::Fixed { .. } => push_bytes_data(local, carried, out, label, side),
        Carried::Open { .. } => push_bytes_data(local, carried, out, label, side),
    }
}

fn push_words_there(out: &mut Vec<u8>, root: Option<Peer>, payload: Payload) -> Result<(), NoMemory>
    ensures { OnOk result (out.new.items ≡ out.old.items ++ words_there root (count_of payload)) }
{
    match root {
        None => push_words(out, payload),
        Some(root) => {
            push_root(out, root)?;
            push_pieces(out, &[b" ? "])?;
            push_words(out, payload)?;
            push_pieces(out, &[b" : 0"])
        }
    }
}

fn push_plain_joint(
    local: &Local,
    out: &mut Vec<u8>,
    label: u32,
    root: Option<Peer>,
    side: Side,
) -> Result<(), NoMemory>
    ensures { OnOk result (out.new.items ≡ out.old.items ++ joint_data Words (program_of local.now) label root (side_of side)) }
{
    push_pieces(out, &[words_kind(local.payload(label)), b", "])?;
    push_words_there(out, root, local.payload(label))?;
    push_pieces(out, &[b", ", plain_buffer(local.payload(label), side)])
}

fn push_zeros(
    local: &Local,
    out: &mut Vec<u8>,
    label: u32,
    root: Option<Peer>,
) -> Result<(), NoMemory>
    ensures { OnOk result (out.new.items ≡ out.old.items ++ (codes "zero, " ++ words_there root (count_of (payload_of (program_of local.now) label)))) }
{
    push_pieces(out, &[b"zero, "])?;
    push_words_there(out, root, local.payload(label))
}

/// What is recorded of a collective: words, or zeros.
pub fn push_joint(
    local: &Local,
    carried: Carried,
    out: &mut Vec<u8>,
    label: u32,
    root: Option<Peer>,
    side: Side,
) -> Result<(), NoMemory>
    ensures { OnOk result (out.new.items ≡ out.old.items ++ joint_data carried (program_of local.now) label root (side_of side)) }
{
    match carried {
        Carried::Words => push_plain_joint(local, out, label, root, side),
        Carried::Fixed { .. } => push_zeros(local, out, label, root),
        Carried::Open { .. } => push_zeros(local, out, label, root),
    }
}
