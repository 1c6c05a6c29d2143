//! The text around the statements.

ghost use Rattle.std.specs.Prelude.{◌≡◌, ◌++◌, OnOk};
ghost use Rattle.std.specs.Fmt.{signed_decimal};
ghost use Rattle.pb_ctree.specs.Frame.{high_text, payload_text, element_text, kernel_letter, kernel_type, above_text};
ghost use Rattle.pb_ctree.specs.Small.{sum_text};
ghost use Rattle.pb_ctree.specs.Trees.{sum_of};
ghost use Rattle.pb_cprint.specs.Framed.{protocol_line, range_line, role_line, label_line, place_head, place_line, make_line, take_line, kernel_line, make_marker, take_marker, kernel_marker, n_single, n_divided, test_size, rank_line, role_is, index_is};

use pb_cprint_lines::push_lin;
use pb_ctree::{
    CoreKernel, CoreLabel, Formula, KernelKind, Local, NRange, Name, NoMemory, Payload, Role,
};
use pb_local::{push_indent, push_pieces};
use pb_text::{push_decimal, push_number};

/// Appends the bytes of a name.
pub fn push_name(out: &mut Vec<u8>, name: &Name) -> Result<(), NoMemory>
    ensures { OnOk result (out.new.items ≡ out.old.items ++ name.now) }
{
    out.extend_from_slice(name.bytes())?;
    Ok(())
}

fn push_high(out: &mut Vec<u8>, high: Option<u32>) -> Result<(), NoMemory>
    ensures { OnOk result (out.new.items ≡ out.old.items ++ high_text high) }
{
    match high {
        None => push_pieces(out, &[b"max"]),
        Some(n) => push_decimal(out, u64::from(n)),
    }
}

fn push_payload(out: &mut Vec<u8>, payload: Payload) -> Result<(), NoMemory>
    ensures { OnOk result (out.new.items ≡ out.old.items ++ payload_text payload) }
{
    match payload {
        Payload::Unit => push_pieces(out, &[b"()"]),
        Payload::Int32(count) => {
            push_pieces(out, &[b"int32["])?;
            push_decimal(out, u64::from(count))?;
            out.push(b']')?;
            Ok(())
        }
        Payload::Uint32(count) => {
            push_pieces(out, &[b"uint32["])?;
            push_decimal(out, u64::from(count))?;
            out.push(b']')?;
            Ok(())
        }
    }
}

/// A sum in N, with its signs, zeros and ones.
fn push_sum(out: &mut Vec<u8>, sum: Formula) -> Result<(), NoMemory>
    ensures { OnOk result (out.new.items ≡ out.old.items ++ sum_text (sum_of sum)) }
{
    push_number(out, sum.a)?;
    push_pieces(out, &[b" * N + "])?;
    push_number(out, sum.b)
}

fn push_a(out: &mut Vec<u8>, sum: Formula) -> Result<(), NoMemory>
    ensures { OnOk result (out.new.items ≡ out.old.items ++ signed_decimal sum.a) }
{
    push_number(out, sum.a)
}

fn push_b(out: &mut Vec<u8>, sum: Formula) -> Result<(), NoMemory>
    ensures { OnOk result (out.new.items ≡ out.old.items ++ signed_decimal sum.b) }
{
    push_number(out, sum.b)
}

fn push_element(out: &mut Vec<u8>, payload: Payload) -> Result<(), NoMemory>
    ensures { OnOk result (out.new.items ≡ out.old.items ++ element_text payload) }
{
    match payload {
        Payload::Unit => push_pieces(out, &[b"uint32_t"]),
        Payload::Int32(_) => push_pieces(out, &[b"int32_t"]),
        Payload::Uint32(_) => push_pieces(out, &[b"uint32_t"]),
    }
}

fn push_letter(out: &mut Vec<u8>, kind: KernelKind) -> Result<(), NoMemory>
    ensures { OnOk result (out.new.items ≡ out.old.items ++ kernel_letter kind) }
{
    match kind {
        KernelKind::Compute => push_pieces(out, &[b"k_"]),
        KernelKind::Choice => push_pieces(out, &[b"c_"]),
    }
}

fn push_type(out: &mut Vec<u8>, kind: KernelKind) -> Result<(), NoMemory>
    ensures { OnOk result (out.new.items ≡ out.old.items ++ kernel_type kind) }
{
    match kind {
        KernelKind::Compute => out.extend_from_slice(b"static void ")?,
        KernelKind::Choice => out.extend_from_slice(b"static int32_t ")?,
    }
    Ok(())
}

fn push_above(out: &mut Vec<u8>, high: Option<u32>) -> Result<(), NoMemory>
    ensures { OnOk result (out.new.items ≡ out.old.items ++ above_text high) }
{
    if let Some(n) = high {
        push_pieces(out, &[b" || N > "])?;
        push_decimal(out, u64::from(n))?;
    }
    Ok(())
}

/// Appends the line that names the protocol.
pub fn push_protocol(out: &mut Vec<u8>, local: &Local) -> Result<(), NoMemory>
    ensures { OnOk result (out.new.items ≡ out.old.items ++ protocol_line local.now.protocol) }
{
    push_pieces(out, &[b"/* protocol "])?;
    push_name(out, &local.protocol)?;
    push_pieces(out, &[b" */"])?;
    out.push(b'\n')?;
    Ok(())
}

/// Appends the line of the range of N.
pub fn push_range(out: &mut Vec<u8>, range: NRange) -> Result<(), NoMemory>
    ensures { OnOk result (out.new.items ≡ out.old.items ++ range_line range) }
{
    push_pieces(out, &[b"/* N "])?;
    push_decimal(out, u64::from(range.low))?;
    push_pieces(out, &[b" to "])?;
    push_high(out, range.high)?;
    push_pieces(out, &[b" */"])?;
    out.push(b'\n')?;
    Ok(())
}

/// Appends the line of a role.
pub fn push_role(out: &mut Vec<u8>, role: &Role) -> Result<(), NoMemory>
    ensures { OnOk result (out.new.items ≡ out.old.items ++ role_line role.now) }
{
    push_pieces(out, &[b"/* role "])?;
    push_name(out, &role.name)?;
    push_pieces(out, &[b" "])?;
    push_lin(out, role.low)?;
    push_pieces(out, &[b" to "])?;
    push_lin(out, role.high)?;
    push_pieces(out, &[b" */"])?;
    out.push(b'\n')?;
    Ok(())
}

/// Appends the line of a label.
pub fn push_label(out: &mut Vec<u8>, label: &CoreLabel) -> Result<(), NoMemory>
    ensures { OnOk result (out.new.items ≡ out.old.items ++ label_line label.now) }
{
    push_pieces(out, &[b"/* label "])?;
    push_name(out, &label.name)?;
    push_pieces(out, &[b" "])?;
    push_payload(out, label.payload)?;
    push_pieces(out, &[b" */"])?;
    out.push(b'\n')?;
    Ok(())
}

/// Appends the first line of the function that numbers a role's ranks.
pub fn push_place_head(out: &mut Vec<u8>, role: &Role) -> Result<(), NoMemory>
    ensures { OnOk result (out.new.items ≡ out.old.items ++ place_head role.now) }
{
    push_pieces(out, &[b"static int32_t r_"])?;
    push_name(out, &role.name)?;
    push_pieces(out, &[b"(int32_t N, int32_t x)"])?;
    out.push(b'\n')?;
    Ok(())
}

/// Appends the line that gives the number of a role's rank.
pub fn push_place(out: &mut Vec<u8>, place: Formula) -> Result<(), NoMemory>
    ensures { OnOk result (out.new.items ≡ out.old.items ++ place_line (sum_of place)) }
{
    push_indent(out, 1)?;
    push_pieces(out, &[b"return x + "])?;
    push_sum(out, place)?;
    push_pieces(out, &[b";"])?;
    out.push(b'\n')?;
    Ok(())
}

/// Appends the first line of the function that makes a label's words.
pub fn push_make_head(out: &mut Vec<u8>, label: &CoreLabel) -> Result<(), NoMemory>
    ensures { OnOk result (out.new.items ≡ out.old.items ++ make_line label.now) }
{
    push_pieces(out, &[b"static void make_"])?;
    push_name(out, &label.name)?;
    push_pieces(out, &[b"(int32_t N, int32_t role, int32_t index, "])?;
    push_element(out, label.payload)?;
    push_pieces(out, &[b" *v)"])?;
    out.push(b'\n')?;
    Ok(())
}

/// Appends the first line of the function that takes a label's words.
pub fn push_take_head(out: &mut Vec<u8>, label: &CoreLabel) -> Result<(), NoMemory>
    ensures { OnOk result (out.new.items ≡ out.old.items ++ take_line label.now) }
{
    push_pieces(out, &[b"static void take_"])?;
    push_name(out, &label.name)?;
    push_pieces(out, &[b"(int32_t N, int32_t role, int32_t index, const "])?;
    push_element(out, label.payload)?;
    push_pieces(out, &[b" *v)"])?;
    out.push(b'\n')?;
    Ok(())
}

/// Appends the first line of a kernel's function.
pub fn push_kernel_head(out: &mut Vec<u8>, kernel: &CoreKernel) -> Result<(), NoMemory>
    ensures { OnOk result (out.new.items ≡ out.old.items ++ kernel_line kernel.now) }
{
    push_type(out, kernel.kind)?;
    push_letter(out, kernel.kind)?;
    push_name(out, &kernel.name)?;
    push_pieces(out, &[b"(int32_t N, int32_t role, int32_t index)"])?;
    out.push(b'\n')?;
    Ok(())
}

/// Appends the line that opens the body that makes a label's words.
pub fn push_make_marker(out: &mut Vec<u8>, label: &CoreLabel) -> Result<(), NoMemory>
    ensures { OnOk result (out.new.items ≡ out.old.items ++ make_marker label.now) }
{
    push_pieces(out, &[b"/*@ kernel "])?;
    push_pieces(out, &[b"make_"])?;
    push_name(out, &label.name)?;
    push_pieces(out, &[b" */"])?;
    out.push(b'\n')?;
    Ok(())
}

/// Appends the line that opens the body that takes a label's words.
pub fn push_take_marker(out: &mut Vec<u8>, label: &CoreLabel) -> Result<(), NoMemory>
    ensures { OnOk result (out.new.items ≡ out.old.items ++ take_marker label.now) }
{
    push_pieces(out, &[b"/*@ kernel "])?;
    push_pieces(out, &[b"take_"])?;
    push_name(out, &label.name)?;
    push_pieces(out, &[b" */"])?;
    out.push(b'\n')?;
    Ok(())
}

/// Appends the line that opens a kernel's body.
pub fn push_kernel_marker(out: &mut Vec<u8>, kernel: &CoreKernel) -> Result<(), NoMemory>
    ensures { OnOk result (out.new.items ≡ out.old.items ++ kernel_marker kernel.now) }
{
    push_pieces(out, &[b"/*@ kernel "])?;
    push_letter(out, kernel.kind)?;
    push_name(out, &kernel.name)?;
    push_pieces(out, &[b" */"])?;
    out.push(b'\n')?;
    Ok(())
}

/// Appends the line that sets N to the one number of its range.
pub fn push_n_single(out: &mut Vec<u8>, range: NRange) -> Result<(), NoMemory>
    ensures { OnOk result (out.new.items ≡ out.old.items ++ n_single range) }
{
    push_indent(out, 1)?;
    push_pieces(out, &[b"N = "])?;
    push_decimal(out, u64::from(range.low))?;
    push_pieces(out, &[b";"])?;
    out.push(b'\n')?;
    Ok(())
}

/// Appends the line that reckons N from the number of ranks.
pub fn push_n_divided(out: &mut Vec<u8>, size: Formula) -> Result<(), NoMemory>
    ensures { OnOk result (out.new.items ≡ out.old.items ++ n_divided (sum_of size)) }
{
    push_indent(out, 1)?;
    push_pieces(out, &[b"N = (size - "])?;
    push_b(out, size)?;
    push_pieces(out, &[b") / "])?;
    push_a(out, size)?;
    push_pieces(out, &[b";"])?;
    out.push(b'\n')?;
    Ok(())
}

/// Appends the line that tests N and the number of ranks.
pub fn push_test_size(out: &mut Vec<u8>, range: NRange, size: Formula) -> Result<(), NoMemory>
    ensures { OnOk result (out.new.items ≡ out.old.items ++ test_size range (sum_of size)) }
{
    push_indent(out, 1)?;
    push_pieces(out, &[b"if (N < "])?;
    push_decimal(out, u64::from(range.low))?;
    push_above(out, range.high)?;
    push_pieces(out, &[b" || "])?;
    push_sum(out, size)?;
    push_pieces(out, &[b" != size) {"])?;
    out.push(b'\n')?;
    Ok(())
}

/// Appends the line that tests whether a rank's number is at a role's base or above.
pub fn push_rank(out: &mut Vec<u8>, base: Formula) -> Result<(), NoMemory>
    ensures { OnOk result (out.new.items ≡ out.old.items ++ rank_line (sum_of base)) }
{
    push_indent(out, 1)?;
    push_pieces(out, &[b"if (rank >= "])?;
    push_sum(out, base)?;
    push_pieces(out, &[b") {"])?;
    out.push(b'\n')?;
    Ok(())
}

/// Appends the line that sets the number of the role.
pub fn push_role_is(out: &mut Vec<u8>, role: usize) -> Result<(), NoMemory>
    ensures { OnOk result (out.new.items ≡ out.old.items ++ role_is role) }
{
    push_indent(out, 2)?;
    push_pieces(out, &[b"R = "])?;
    push_decimal(out, role as u64)?;
    push_pieces(out, &[b";"])?;
    out.push(b'\n')?;
    Ok(())
}

/// Appends the line that sets the index.
pub fn push_index_is(out: &mut Vec<u8>, place: Formula) -> Result<(), NoMemory>
    ensures { OnOk result (out.new.items ≡ out.old.items ++ index_is (sum_of place)) }
{
    push_indent(out, 2)?;
    push_pieces(out, &[b"I = rank - ("])?;
    push_sum(out, place)?;
    push_pieces(out, &[b");"])?;
    out.push(b'\n')?;
    Ok(())
}
