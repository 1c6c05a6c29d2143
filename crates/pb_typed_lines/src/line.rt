//! Lines of bits.

ghost use Rattle.std.specs.Prelude.{◌≡◌, ◌++◌, OnOk};
ghost use Rattle.pb_local.specs.Pieces.{line};
ghost use Rattle.pb_local.specs.Tree.{program_of};
ghost use Rattle.pb_typed_lines.specs.Bits.{bit_text, bits_text};

use crate::bits::Bit;
use crate::data::{
    carried_at, push_buffer, push_data, push_end, push_joint, push_make_front, push_make_rest,
    push_message, push_shared, push_take_rest, status,
};
use pb_cprint_lines::{push_peer, push_root};
use pb_local::{Local, push_indent, push_pieces};
use pb_text::{NoMemory, push_decimal};
use pb_typed_types::Carried;

fn push_bit(local: &Local, types: &[Carried], out: &mut Vec<u8>, bit: Bit) -> Result<(), NoMemory>
    ensures { OnOk result (out.new.items ≡ out.old.items ++ bit_text (program_of local.now) types.now bit) }
{
    match bit {
        Bit::Word(word) => push_pieces(out, &[word]),
        Bit::Name(label) => push_pieces(out, &[local.label_name(label)]),
        Bit::Kernel(kernel) => push_pieces(out, &[local.kernel_name(kernel)]),
        Bit::Number(n) => push_decimal(out, n),
        Bit::Rank(peer) => push_peer(local, out, peer),
        Bit::Root(root) => push_root(out, root),
        Bit::End(end) => push_end(out, end),
        Bit::Makes(label) => push_make_front(local, carried_at(types, label), out, label),
        Bit::Made(label) => push_make_rest(local, carried_at(types, label), out, label),
        Bit::Taken(label, side) => push_take_rest(
            local,
            carried_at(types, label),
            out,
            label,
            side,
        ),
        Bit::Buffer(label, side) => push_buffer(local, carried_at(types, label), out, label, side),
        Bit::Data(label, side) => push_data(local, carried_at(types, label), out, label, side),
        Bit::Shared(label) => push_shared(local, carried_at(types, label), out, label),
        Bit::Status(label) => push_pieces(out, &[status(carried_at(types, label))]),
        Bit::Message(label, side) => push_message(
            local,
            carried_at(types, label),
            out,
            label,
            side,
        ),
        Bit::Joint(label, root, side) => push_joint(
            local,
            carried_at(types, label),
            out,
            label,
            root,
            side,
        ),
    }
}

fn push_bits(
    local: &Local,
    types: &[Carried],
    out: &mut Vec<u8>,
    bits: &[Bit],
) -> Result<(), NoMemory>
    ensures { OnOk result (out.new.items ≡ out.old.items ++ bits_text (program_of local.now) types.now bits.now) }
{
    for bit in bits {
        push_bit(local, types, out, *bit)?;
    }
    Ok(())
}

/// Appends a line of these bits.
pub fn push_line(
    local: &Local,
    types: &[Carried],
    out: &mut Vec<u8>,
    depth: usize,
    bits: &[Bit],
) -> Result<(), NoMemory>
    ensures { OnOk result (out.new.items ≡ out.old.items ++ line depth (bits_text (program_of local.now) types.now bits.now)) }
{
    push_indent(out, depth)?;
    push_bits(local, types, out, bits)?;
    out.push(b'\n')?;
    Ok(())
}
