//! The lines of a cost.

ghost use Rattle.std.specs.Prelude.{◌≡◌, ◌++◌, codes, IfOk, OnOk};
ghost use Rattle.std.specs.Fmt.{signed_decimal};
ghost use Rattle.pb_cli_cost.specs.Lines.{end_text, line_text, lines_of, list_lines, range_text};

use pb_cost::{Cost, Piece};
use pb_text::{NoMemory, push_number};
use std::alloc::Global;

/// Appends the upper end of a piece.
fn push_end(out: &mut Vec<u8>, end: Option<i64>) -> Result<(), NoMemory>
    ensures { OnOk result (out.new.items ≡ out.old.items ++ end_text end) }
{
    match end {
        None => {
            out.extend_from_slice(b"max")?;
            Ok(())
        }
        Some(end) => push_number(out, end),
    }
}

/// Appends the numbers of a piece.
fn push_range(out: &mut Vec<u8>, piece: &Piece) -> Result<(), NoMemory>
    ensures { OnOk result (out.new.items ≡ out.old.items ++ range_text piece.now) }
{
    push_number(out, piece.from)?;
    out.extend_from_slice(b" to ")?;
    push_end(out, piece.to)
}

/// Appends the line of a piece.
fn push_line(out: &mut Vec<u8>, piece: &Piece) -> Result<(), NoMemory>
    ensures { OnOk result (out.new.items ≡ out.old.items ++ line_text piece.now) }
{
    push_number(out, piece.a)?;
    out.extend_from_slice(b" * N + ")?;
    push_number(out, piece.b)
}

/// Appends the lines of a list of pieces.
fn push_list(out: &mut Vec<u8>, name: &[u8], pieces: &[Piece]) -> Result<(), NoMemory>
    ensures { OnOk result (out.new.items ≡ out.old.items ++ list_lines name.now pieces.now) }
{
    for piece in pieces {
        out.extend_from_slice(name)?;
        push_range(out, piece)?;
        out.extend_from_slice(b": ")?;
        push_line(out, piece)?;
        out.push(b'\n')?;
    }
    Ok(())
}

/// The lines of a cost.
pub fn lines(alloc: Global, cost: &Cost) -> Result<Vec<u8>, NoMemory>
    ensures { IfOk result (λ text. text.items ≡ lines_of cost.now) }
{
    let mut out = Vec::new(alloc);
    push_list(&mut out, b"least messages ", &cost.least_messages)?;
    push_list(&mut out, b"most messages ", &cost.most_messages)?;
    push_list(&mut out, b"least words ", &cost.least_words)?;
    push_list(&mut out, b"most words ", &cost.most_words)?;
    Ok(out)
}
