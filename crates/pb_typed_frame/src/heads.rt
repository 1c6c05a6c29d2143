//! The first lines of functions, and of their bodies.

ghost use Rattle.std.specs.Prelude.{◌≡◌, ◌++◌, OnOk, codes};
ghost use Rattle.pb_local.specs.Pieces.{line};
ghost use Rattle.pb_ctree.specs.Frame.{element_text};
ghost use Rattle.pb_typed.specs.Frame.{to_end, from_end, typed_make_head, typed_take_head, room_head, marker_of};

use crate::lines::{push_begun, push_declared, push_text};
use pb_ctree::{CoreLabel, Payload};
use pb_text::NoMemory;
use pb_typed_types::Carried;
use pb_types::Element;

fn to_end() -> &'static [u8]
    ensures { result.now ≡ to_end }
{
    b"(int32_t N, int32_t role, int32_t index, int32_t to_role, int32_t to_index, "
}

fn from_end() -> &'static [u8]
    ensures { result.now ≡ from_end }
{
    b"(int32_t N, int32_t role, int32_t index, int32_t from_role, int32_t from_index, "
}

fn words_type(payload: Payload) -> &'static [u8]
    ensures { result.now ≡ element_text payload }
{
    match payload {
        Payload::Unit => b"uint32_t",
        Payload::Int32(_) => b"int32_t",
        Payload::Uint32(_) => b"uint32_t",
    }
}

/// Appends the first line of the function that makes what a label carries.
pub fn push_make_head(
    out: &mut Vec<u8>,
    label: &CoreLabel,
    carried: Carried,
) -> Result<(), NoMemory>
    ensures { OnOk result (out.new.items ≡ out.old.items ++ line 0 (typed_make_head carried label.now)) }
{
    let name = label.name.bytes();
    match carried {
        Carried::Words => push_begun(
            out,
            b"static void make_",
            name,
            &[to_end(), words_type(label.payload), b" *v)"],
        ),
        Carried::Fixed { element, .. } => push_begun(
            out,
            b"static void make_",
            name,
            &[to_end(), element.c_name(), b" *v)"],
        ),
        Carried::Open { element } => push_declared(
            out,
            b"static const ",
            element.c_name(),
            b" *make_",
            name,
            &[to_end(), b"int *count)"],
        ),
    }
}

/// Appends the first line of the function that gives room for a label's elements.
pub fn push_room_head(
    out: &mut Vec<u8>,
    label: &CoreLabel,
    element: Element,
) -> Result<(), NoMemory>
    ensures { OnOk result (out.new.items ≡ out.old.items ++ line 0 (room_head element label.now)) }
{
    push_declared(
        out,
        b"static ",
        element.c_name(),
        b" *room_",
        label.name.bytes(),
        &[from_end(), b"int *most)"],
    )
}

/// Appends the first line of the function that takes what a label carries.
pub fn push_take_head(
    out: &mut Vec<u8>,
    label: &CoreLabel,
    carried: Carried,
) -> Result<(), NoMemory>
    ensures { OnOk result (out.new.items ≡ out.old.items ++ line 0 (typed_take_head carried label.now)) }
{
    let name = label.name.bytes();
    match carried {
        Carried::Words => push_begun(
            out,
            b"static void take_",
            name,
            &[from_end(), b"const ", words_type(label.payload), b" *v)"],
        ),
        Carried::Fixed { element, .. } => push_begun(
            out,
            b"static void take_",
            name,
            &[from_end(), b"const ", element.c_name(), b" *v)"],
        ),
        Carried::Open { element } => push_begun(
            out,
            b"static void take_",
            name,
            &[from_end(), b"const ", element.c_name(), b" *v, int count)"],
        ),
    }
}

/// Appends the line that opens the body that gives room for a label's elements.
pub fn push_room_marker(out: &mut Vec<u8>, label: &CoreLabel) -> Result<(), NoMemory>
    ensures { OnOk result (out.new.items ≡ out.old.items ++ line 0 (marker_of (codes "room_" ++ label.now.name))) }
{
    push_text(
        out,
        0,
        &[b"/*@ kernel ", b"room_", label.name.bytes(), b" */"],
    )
}
