ghost use Rattle.std.specs.Prelude.{◌≡◌, ◌-ℤ◌, ◌*ℤ◌, ◌≤ℤ◌, pos, negsuc, map, IfOk, Some};
ghost use Rattle.pb_cost.specs.Pieces.{piece_to, last_of, as_pieces};
ghost use Rattle.pb_cost.specs.Closed.{closed};

use pb_cost_blocks::Stretch;
use pb_text::NoMemory;
use std::alloc::Global;

/// A line `a * N + b` for N from `from` to `to`, or without an upper end.
#[derive(Clone, Copy)]
pub struct Piece {
    pub from: i64,
    pub to: Option<i64>,
    pub a: i64,
    pub b: i64,
}

/// The same lines as pieces. The last one ends at the range's last number, where it has one.
#[tactic(auto, using(crate::proofs::Conversions::whole_list, crate::proofs::Conversions::no_list))]
pub(crate) fn pieces_of(
    alloc: Global,
    list: &[Stretch],
    high: Option<u32>,
) -> Result<Vec<Piece>, NoMemory>
    ensures { IfOk result (λ v. v.items ≡ as_pieces high list.now) }
{
    let Some((last, others)) = list.split_last() else {
        return Ok(Vec::new(alloc));
    };
    let mut pieces = closed_pieces(alloc, others)?;
    pieces.push(piece_to(last, end_of(high)))?;
    Ok(pieces)
}

/// Stretches as pieces, each of which has an end.
fn closed_pieces(alloc: Global, list: &[Stretch]) -> Result<Vec<Piece>, NoMemory>
    ensures { IfOk result (λ v. v.items ≡ map closed list.now) }
{
    let mut pieces = Vec::new(alloc);
    for stretch in list {
        pieces.push(closed_piece(stretch))?;
    }
    Ok(pieces)
}

/// A stretch as a piece that ends where the stretch does.
fn closed_piece(stretch: &Stretch) -> Piece
    ensures { result ≡ closed stretch.now }
{
    piece_to(stretch, Some(stretch.to))
}

/// Where the last piece ends.
fn end_of(high: Option<u32>) -> Option<i64>
    ensures { result ≡ last_of high }
{
    match high {
        Some(high) => Some(i64::from(high)),
        None => None,
    }
}

/// A stretch as a piece that ends there.
fn piece_to(stretch: &Stretch, to: Option<i64>) -> Piece
    ensures { result ≡ piece_to to stretch.now }
{
    Piece {
        from: stretch.from,
        to,
        a: stretch.slope,
        b: start_at_zero(stretch),
    }
}

/// What the stretch's line is at 0.
fn start_at_zero(stretch: &Stretch) -> i64
    ensures { result ≡ stretch.now.start -ℤ stretch.now.slope *ℤ stretch.now.from }
{
    stretch.start - grown(stretch.slope, stretch.from)
}

/// By how much a line grows in so many numbers.
#[tactic(auto, using(pb_cost_pieces::proofs::Products::product_low, pb_cost_pieces::proofs::Products::product_high))]
fn grown(slope: i64, steps: i64) -> i64
    requires slope_low { negsuc 4099999 ≤ℤ slope }
    requires slope_high { slope ≤ℤ pos 4100000 }
    requires low { pos 0 ≤ℤ steps }
    requires high { steps ≤ℤ pos 900000000000 }
    ensures is { result ≡ slope *ℤ steps }
    ensures least { negsuc 3689999999999999999 ≤ℤ result }
    ensures most { result ≤ℤ pos 3690000000000000000 }
{
    slope * steps
}
