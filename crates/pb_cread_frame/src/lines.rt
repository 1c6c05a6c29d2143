//! The lines that are awaited.

ghost use Rattle.std.specs.Prelude.{◌≡◌, ◌+◌, ◌++◌, ◌∷◌, [], OnOk, IfOk, map, length, drop};
ghost use Rattle.pb_local.specs.Ranks.{ranks_of, bases_of, places_of};
ghost use Rattle.pb_ctree.specs.Frame.{number_lines, seat_lines, size_lines, zero_lines, start_lines};
ghost use Rattle.pb_ctree.specs.Trees.{sum_of};
ghost use Rattle.pb_cread_frame.specs.Reading.{text_at, make_opening, take_opening, kernel_opening, n_text_line, main_behind, abort_texts};
ghost use Rattle.pb_cprint.specs.Framed.{make_line, make_marker, take_line, take_marker, test_size, brace, end_brace, place_head, place_line};
ghost use Rattle.pb_cread_frame.specs.Views.{texts_of};

use pb_cprint::{
    push_index_is, push_kernel_marker, push_make_head, push_make_marker, push_n_divided,
    push_n_single, push_place, push_place_head, push_rank, push_role_is, push_take_head,
    push_take_marker, push_test_size,
};
use pb_ctree::{CoreKernel, CoreLabel, Formula, NRange, NoMemory, Role};
use std::alloc::Global;

/// Appends a line that is always the same.
pub fn push_fixed(alloc: Global, lines: &mut Vec<Vec<u8>>, text: &[u8]) -> Result<(), NoMemory>
    ensures { OnOk result (texts_of lines.new.items ≡ texts_of lines.old.items ++ text.now ∷ []) }
{
    let mut line = Vec::new(alloc);
    line.extend_from_slice(text)?;
    lines.push(line)?;
    Ok(())
}

/// Appends lines that are always the same.
pub fn push_all(alloc: Global, lines: &mut Vec<Vec<u8>>, texts: &[&[u8]]) -> Result<(), NoMemory>
    ensures { OnOk result (texts_of lines.new.items ≡ texts_of lines.old.items ++ map (λ t. t.now) texts.now) }
{
    for text in texts {
        push_fixed(alloc, lines, text)?;
    }
    Ok(())
}

/// Appends the four lines of a function that numbers ranks.
#[tactic(auto, unfolding(pb_cprint::specs::Framed::brace, pb_cprint::specs::Framed::end_brace))]
fn push_four(
    alloc: Global,
    lines: &mut Vec<Vec<u8>>,
    head: Vec<u8>,
    value: Vec<u8>,
) -> Result<(), NoMemory>
    ensures { OnOk result (texts_of lines.new.items ≡ texts_of lines.old.items ++ head.items ∷ brace ∷ value.items ∷ end_brace ∷ []) }
{
    lines.push(head)?;
    push_fixed(alloc, lines, b"{\n")?;
    lines.push(value)?;
    push_fixed(alloc, lines, b"}\n")
}

fn number_head(alloc: Global, role: &Role) -> Result<Vec<u8>, NoMemory>
    ensures { IfOk result (λ line. line.items ≡ place_head role.now) }
{
    let mut line = Vec::new(alloc);
    push_place_head(&mut line, role)?;
    Ok(line)
}

fn number_value(alloc: Global, place: Formula) -> Result<Vec<u8>, NoMemory>
    ensures { IfOk result (λ line. line.items ≡ place_line (sum_of place)) }
{
    let mut line = Vec::new(alloc);
    push_place(&mut line, place)?;
    Ok(line)
}

#[tactic(auto, using(crate::proofs::Texts::number_opened))]
fn push_number(
    alloc: Global,
    lines: &mut Vec<Vec<u8>>,
    role: &Role,
    place: Formula,
) -> Result<(), NoMemory>
    ensures { OnOk result (texts_of lines.new.items ≡ texts_of lines.old.items ++ map text_at (number_lines (role.now ∷ []) (sum_of place ∷ []))) }
{
    let head = number_head(alloc, role)?;
    let value = number_value(alloc, place)?;
    push_four(alloc, lines, head, value)
}

/// Appends the lines of the functions that number the ranks.
pub fn push_numbers(
    alloc: Global,
    lines: &mut Vec<Vec<u8>>,
    roles: &[Role],
    places: &[Formula],
) -> Result<(), NoMemory>
    requires { length places.now ≡ length roles.now }
    ensures { OnOk result (texts_of lines.new.items ≡ texts_of lines.old.items ++ map text_at (number_lines roles.now (map sum_of places.now))) }
{
    for (at, role) in roles.iter().enumerate() {
        push_number(alloc, lines, role, places[at])?;
    }
    Ok(())
}

/// Appends a function's lines before its body.
#[tactic(auto, unfolding(pb_cprint::specs::Framed::brace))]
fn push_opening(
    alloc: Global,
    lines: &mut Vec<Vec<u8>>,
    head: Vec<u8>,
    marker: Vec<u8>,
) -> Result<(), NoMemory>
    ensures { OnOk result (texts_of lines.new.items ≡ texts_of lines.old.items ++ head.items ∷ brace ∷ marker.items ∷ []) }
{
    lines.push(head)?;
    push_fixed(alloc, lines, b"{\n")?;
    lines.push(marker)?;
    Ok(())
}

fn make_head(alloc: Global, label: &CoreLabel) -> Result<Vec<u8>, NoMemory>
    ensures { IfOk result (λ line. line.items ≡ make_line label.now) }
{
    let mut line = Vec::new(alloc);
    push_make_head(&mut line, label)?;
    Ok(line)
}

fn make_mark(alloc: Global, label: &CoreLabel) -> Result<Vec<u8>, NoMemory>
    ensures { IfOk result (λ line. line.items ≡ make_marker label.now) }
{
    let mut line = Vec::new(alloc);
    push_make_marker(&mut line, label)?;
    Ok(line)
}

/// Appends the lines before the body that makes a label's words.
#[tactic(auto, using(crate::proofs::Texts::make_opened))]
pub fn push_make_opening(
    alloc: Global,
    lines: &mut Vec<Vec<u8>>,
    label: &CoreLabel,
) -> Result<(), NoMemory>
    ensures { OnOk result (texts_of lines.new.items ≡ texts_of lines.old.items ++ make_opening label.now) }
{
    let head = make_head(alloc, label)?;
    let marker = make_mark(alloc, label)?;
    push_opening(alloc, lines, head, marker)
}

fn take_head(alloc: Global, label: &CoreLabel) -> Result<Vec<u8>, NoMemory>
    ensures { IfOk result (λ line. line.items ≡ take_line label.now) }
{
    let mut line = Vec::new(alloc);
    push_take_head(&mut line, label)?;
    Ok(line)
}

fn take_mark(alloc: Global, label: &CoreLabel) -> Result<Vec<u8>, NoMemory>
    ensures { IfOk result (λ line. line.items ≡ take_marker label.now) }
{
    let mut line = Vec::new(alloc);
    push_take_marker(&mut line, label)?;
    Ok(line)
}

/// Appends the lines before the body that takes a label's words.
#[tactic(auto, using(crate::proofs::Texts::take_opened))]
pub fn push_take_opening(
    alloc: Global,
    lines: &mut Vec<Vec<u8>>,
    label: &CoreLabel,
) -> Result<(), NoMemory>
    ensures { OnOk result (texts_of lines.new.items ≡ texts_of lines.old.items ++ take_opening label.now) }
{
    let head = take_head(alloc, label)?;
    let marker = take_mark(alloc, label)?;
    push_opening(alloc, lines, head, marker)
}

/// Appends a kernel function's lines behind its head.
#[tactic(auto, unfolding(pb_cprint::specs::Framed::kernel_marker), using(crate::proofs::Texts::kernel_opened))]
pub fn push_kernel_opening(
    alloc: Global,
    lines: &mut Vec<Vec<u8>>,
    kernel: &CoreKernel,
) -> Result<(), NoMemory>
    ensures { OnOk result (texts_of lines.new.items ≡ texts_of lines.old.items ++ drop 1 (kernel_opening kernel.now)) }
{
    let mut marker = Vec::new(alloc);
    push_kernel_marker(&mut marker, kernel)?;
    push_fixed(alloc, lines, b"{\n")?;
    lines.push(marker)?;
    Ok(())
}

/// The line for N.
#[tactic(auto, unfolding(pb_cprint::specs::Framed::n_single, pb_cprint::specs::Framed::n_divided))]
fn n_line(alloc: Global, range: NRange, size: Formula) -> Result<Vec<u8>, NoMemory>
    ensures { IfOk result (λ line. line.items ≡ n_text_line range (sum_of size)) }
{
    let mut line = Vec::new(alloc);
    match range.high {
        Some(high) if high == range.low => push_n_single(&mut line, range)?,
        Some(_) => push_n_divided(&mut line, size)?,
        None => push_n_divided(&mut line, size)?,
    }
    Ok(line)
}

fn push_n(
    alloc: Global,
    lines: &mut Vec<Vec<u8>>,
    range: NRange,
    size: Formula,
) -> Result<(), NoMemory>
    ensures { OnOk result (texts_of lines.new.items ≡ texts_of lines.old.items ++ n_text_line range (sum_of size) ∷ []) }
{
    lines.push(n_line(alloc, range, size)?)?;
    Ok(())
}

fn push_test(
    alloc: Global,
    lines: &mut Vec<Vec<u8>>,
    range: NRange,
    size: Formula,
) -> Result<(), NoMemory>
    ensures { OnOk result (texts_of lines.new.items ≡ texts_of lines.old.items ++ test_size range (sum_of size) ∷ []) }
{
    let mut line = Vec::new(alloc);
    push_test_size(&mut line, range, size)?;
    lines.push(line)?;
    Ok(())
}

fn push_zeros(alloc: Global, lines: &mut Vec<Vec<u8>>) -> Result<(), NoMemory>
    ensures { OnOk result (texts_of lines.new.items ≡ texts_of lines.old.items ++ map text_at zero_lines) }
{
    push_all(
        alloc,
        lines,
        &[b"  R = 0;\n", b"  I = 0;\n", b"  a = 0;\n", b"  i = 0;\n"],
    )
}

fn push_abort(alloc: Global, lines: &mut Vec<Vec<u8>>) -> Result<(), NoMemory>
    ensures { OnOk result (texts_of lines.new.items ≡ texts_of lines.old.items ++ abort_texts) }
{
    push_all(
        alloc,
        lines,
        &[b"    MPI_Abort(MPI_COMM_WORLD, 2);\n", b"  }\n"],
    )
}

fn push_size(
    alloc: Global,
    lines: &mut Vec<Vec<u8>>,
    range: NRange,
    size: Formula,
) -> Result<(), NoMemory>
    ensures { OnOk result (texts_of lines.new.items ≡ texts_of lines.old.items ++ map text_at (size_lines range (sum_of size))) }
{
    push_n(alloc, lines, range, size)?;
    push_zeros(alloc, lines)?;
    push_test(alloc, lines, range, size)?;
    push_abort(alloc, lines)?;
    Ok(())
}

#[tactic(auto, unfolding(pb_cprint::specs::Framed::rank_line, pb_cprint::specs::Framed::role_is, pb_cprint::specs::Framed::index_is))]
fn push_seat(
    alloc: Global,
    lines: &mut Vec<Vec<u8>>,
    role: usize,
    base: Formula,
    place: Formula,
) -> Result<(), NoMemory>
    ensures { OnOk result (texts_of lines.new.items ≡ texts_of lines.old.items ++ map text_at (seat_lines role (sum_of base ∷ []) (sum_of place ∷ []))) }
{
    let mut rank = Vec::new(alloc);
    push_rank(&mut rank, base)?;
    let mut number = Vec::new(alloc);
    push_role_is(&mut number, role)?;
    let mut index = Vec::new(alloc);
    push_index_is(&mut index, place)?;
    lines.push(rank)?;
    lines.push(number)?;
    lines.push(index)?;
    push_fixed(alloc, lines, b"  }\n")
}

fn push_seats(
    alloc: Global,
    lines: &mut Vec<Vec<u8>>,
    bases: &[Formula],
    places: &[Formula],
) -> Result<(), NoMemory>
    requires { length places.now ≡ length bases.now }
    ensures { OnOk result (texts_of lines.new.items ≡ texts_of lines.old.items ++ map text_at (seat_lines 0 (map sum_of bases.now) (map sum_of places.now))) }
{
    for (role, base) in bases.iter().enumerate() {
        push_seat(alloc, lines, role, *base, places[role])?;
    }
    Ok(())
}

fn push_start(alloc: Global, lines: &mut Vec<Vec<u8>>) -> Result<(), NoMemory>
    ensures { OnOk result (texts_of lines.new.items ≡ texts_of lines.old.items ++ map text_at (drop 1 start_lines)) }
{
    push_all(
        alloc,
        lines,
        &[
            b"{\n",
            b"  int size, rank;\n",
            b"  int32_t N, R, I, a, i;\n",
            b"  MPI_Status st;\n",
            b"  MPI_Init(&argc, &argv);\n",
            b"  MPI_Comm_size(MPI_COMM_WORLD, &size);\n",
            b"  MPI_Comm_rank(MPI_COMM_WORLD, &rank);\n",
        ],
    )
}

/// Appends main's lines before the statements, but for its head.
pub fn push_main(
    alloc: Global,
    lines: &mut Vec<Vec<u8>>,
    range: NRange,
    size: Formula,
    bases: &[Formula],
    places: &[Formula],
) -> Result<(), NoMemory>
    requires { length places.now ≡ length bases.now }
    ensures { OnOk result (texts_of lines.new.items ≡ texts_of lines.old.items ++ main_behind range (sum_of size) (map sum_of bases.now) (map sum_of places.now)) }
{
    push_start(alloc, lines)?;
    push_size(alloc, lines, range, size)?;
    push_seats(alloc, lines, bases, places)?;
    Ok(())
}
