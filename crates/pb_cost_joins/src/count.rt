ghost use Rattle.std.specs.Prelude.{◌≤ℤ◌, pos};

use crate::span::Span;
use pb_cost_pieces::Stretch;

/// A count for each number of a span, which changes by `weight` at most from one number to the next. The list has a stretch
/// for each part on which the count is a line.
#[derive(Drop)]
pub struct Count {
    pub span: Span,
    /// At most 4,100,000.
    pub weight: i64,
    pub list: Vec<Stretch>,
    ghost weight_low: { pos 0 ≤ℤ weight },
    ghost weight_high: { weight ≤ℤ pos 4100000 },
}
