//! The lines before the prelude.

ghost use Rattle.std.specs.Prelude.{◌≡◌, ◌++◌, ◌∷◌, [], OnOk, codes, decimal, if◌then◌else◌};
ghost use Rattle.std.specs.List.{list_any};
ghost use Rattle.pb_local.specs.Pieces.{joined, line};
ghost use Rattle.pb_local.specs.Tree.{program_of};
ghost use Rattle.pb_types.specs.declared.carried.Carried.TheVariants.{Fixed, Open};
ghost use Rattle.pb_typed.specs.Frame.{type_row, type_rows, trace_lines, is_open, count_lines, constant_lines, own_lines, owns, head_pieces};
ghost use Rattle.pb_typed.specs.Pieces.{pieces_text};

use crate::labels::{carried_of, has_open};
use crate::lines::{push_declared, push_text};
use itoa::Buffer;
use pb_cprint::{push_buffers, push_labels, push_protocol, push_range, push_roles};
use pb_ctree::{CoreLabel, Local};
use pb_text::NoMemory;
use pb_typed_types::{Carried, Constant, Types};
use pb_types::{Element, push_type_row};

fn push_title(out: &mut Vec<u8>) -> Result<(), NoMemory>
    ensures { OnOk result (out.new.items ≡ out.old.items ++ line 0 (codes "/* pabble 1 typed */")) }
{
    out.extend_from_slice(b"/* pabble 1 typed */\n")?;
    Ok(())
}

fn push_row(
    local: &Local,
    out: &mut Vec<u8>,
    label: &CoreLabel,
    carried: Carried,
) -> Result<(), NoMemory>
    ensures { OnOk result (out.new.items ≡ out.old.items ++ pieces_text (program_of local.now) (type_row carried label.now)) }
{
    push_type_row(out, &label.name, carried)
}

fn push_rows(
    local: &Local,
    out: &mut Vec<u8>,
    labels: &[CoreLabel],
    types: &[Carried],
) -> Result<(), NoMemory>
    ensures { OnOk result (out.new.items ≡ out.old.items ++ pieces_text (program_of local.now) (type_rows labels.now types.now)) }
{
    for (at, label) in labels.iter().enumerate() {
        push_row(local, out, label, carried_of(types, at))?;
    }
    Ok(())
}

/// What calls a tracer where there is one.
fn push_trace(local: &Local, out: &mut Vec<u8>) -> Result<(), NoMemory>
    ensures { OnOk result (out.new.items ≡ out.old.items ++ pieces_text (program_of local.now) trace_lines) }
{
    out.extend_from_slice(
        b"#ifdef PABBLE_TRACE\n#include <pabble_trace.h>\n#else\n#define PABBLE(...)\n#endif\n",
    )?;
    Ok(())
}

/// The function that ends the run where a count isn't between 0 and the most.
fn push_count(local: &Local, out: &mut Vec<u8>) -> Result<(), NoMemory>
    ensures { OnOk result (out.new.items ≡ out.old.items ++ pieces_text (program_of local.now) count_lines) }
{
    out.extend_from_slice(
        b"#include <stdio.h>\nstatic int pabble_count(const char *kernel, int count, int most)\n{\n  if (count < 0 || count > most) {\n    fprintf(stderr, \"pabble: %s: count %d, room for %d\\n\", kernel, count, most);\n    MPI_Abort(MPI_COMM_WORLD, 4);\n  }\n  return count;\n}\n",
    )?;
    Ok(())
}

fn push_counts(local: &Local, out: &mut Vec<u8>, types: &[Carried]) -> Result<(), NoMemory>
    ensures { OnOk result (out.new.items ≡ out.old.items ++ pieces_text (program_of local.now) (if list_any is_open types.now then count_lines else [])) }
{
    if has_open(types) {
        return push_count(local, out);
    }
    Ok(())
}

fn push_constants(local: &Local, out: &mut Vec<u8>, constants: &[Constant]) -> Result<(), NoMemory>
    ensures { OnOk result (out.new.items ≡ out.old.items ++ pieces_text (program_of local.now) (constant_lines constants.now)) }
{
    for constant in constants {
        push_constant(out, constant)?;
    }
    Ok(())
}

fn push_constant(out: &mut Vec<u8>, constant: &Constant) -> Result<(), NoMemory>
    ensures { OnOk result (out.new.items ≡ out.old.items ++ line 0 (joined (codes "enum { " ∷ constant.now.name ∷ codes " = " ∷ decimal constant.now.value ∷ codes " };" ∷ []))) }
{
    let mut buffer = Buffer::new();
    push_text(
        out,
        0,
        &[
            b"enum { ",
            constant.name.bytes(),
            b" = ",
            buffer.format(constant.value).as_bytes(),
            b" };",
        ],
    )
}

fn push_own_count(out: &mut Vec<u8>, name: &[u8], count: u32) -> Result<(), NoMemory>
    ensures { OnOk result (out.new.items ≡ out.old.items ++ line 0 (joined (codes "enum { n_" ∷ name.now ∷ codes " = " ∷ decimal count ∷ codes " };" ∷ []))) }
{
    let mut buffer = Buffer::new();
    push_text(
        out,
        0,
        &[
            b"enum { n_",
            name,
            b" = ",
            buffer.format(count).as_bytes(),
            b" };",
        ],
    )
}

/// The count of a label, and its two buffers.
fn push_fixed(
    local: &Local,
    out: &mut Vec<u8>,
    label: &CoreLabel,
    element: Element,
    count: u32,
) -> Result<(), NoMemory>
    ensures { OnOk result (out.new.items ≡ out.old.items ++ pieces_text (program_of local.now) (own_lines (Fixed element count) label.now)) }
{
    push_own_count(out, label.name.bytes(), count)?;
    push_declared(
        out,
        b"static ",
        element.c_name(),
        b" s_",
        label.name.bytes(),
        &[
            b"[n_",
            label.name.bytes(),
            b"], t_",
            label.name.bytes(),
            b"[n_",
            label.name.bytes(),
            b"];",
        ],
    )?;
    Ok(())
}

/// The two pointers of a label, and their counts.
fn push_open(
    local: &Local,
    out: &mut Vec<u8>,
    label: &CoreLabel,
    element: Element,
) -> Result<(), NoMemory>
    ensures { OnOk result (out.new.items ≡ out.old.items ++ pieces_text (program_of local.now) (own_lines (Open element) label.now)) }
{
    push_declared(
        out,
        b"static const ",
        element.c_name(),
        b" *s_",
        label.name.bytes(),
        &[b";"],
    )?;
    push_declared(
        out,
        b"static ",
        element.c_name(),
        b" *t_",
        label.name.bytes(),
        &[b";"],
    )?;
    push_text(
        out,
        0,
        &[
            b"static int n_",
            label.name.bytes(),
            b", m_",
            label.name.bytes(),
            b";",
        ],
    )?;
    Ok(())
}

fn push_own(
    local: &Local,
    out: &mut Vec<u8>,
    label: &CoreLabel,
    carried: Carried,
) -> Result<(), NoMemory>
    ensures { OnOk result (out.new.items ≡ out.old.items ++ pieces_text (program_of local.now) (own_lines carried label.now)) }
{
    match carried {
        Carried::Words => Ok(()),
        Carried::Fixed { element, count } => push_fixed(local, out, label, element, count),
        Carried::Open { element } => push_open(local, out, label, element),
    }
}

fn push_owns(
    local: &Local,
    out: &mut Vec<u8>,
    labels: &[CoreLabel],
    types: &[Carried],
) -> Result<(), NoMemory>
    ensures { OnOk result (out.new.items ≡ out.old.items ++ pieces_text (program_of local.now) (owns labels.now types.now)) }
{
    for (at, label) in labels.iter().enumerate() {
        push_own(local, out, label, carried_of(types, at))?;
    }
    Ok(())
}

/// Appends the lines before the prelude.
pub fn push_head(local: &Local, types: &Types, out: &mut Vec<u8>) -> Result<(), NoMemory>
    ensures { OnOk result (out.new.items ≡ out.old.items ++ pieces_text (program_of local.now) (head_pieces (program_of local.now) types.now.labels.items types.now.constants.items)) }
{
    push_title(out)?;
    push_protocol(out, local)?;
    push_range(out, local.range)?;
    push_roles(out, &local.roles)?;
    push_labels(out, &local.labels)?;
    push_rows(local, out, &local.labels, &types.labels)?;
    push_buffers(out)?;
    push_trace(local, out)?;
    push_counts(local, out, &types.labels)?;
    push_constants(local, out, &types.constants)?;
    push_owns(local, out, &local.labels, &types.labels)?;
    Ok(())
}
