ghost use Rattle.std.specs.Prelude.{◌≡◌, pos, true};
ghost use Rattle.pb_core_language.specs.Sound.{is_range};
ghost use Rattle.pb_cost.specs.Spans.{IsSpanOf};

use pb_affine::NRange;
use pb_cost_blocks::Span;

/// An N from which on each count of a file is one line.
const HORIZON: i64 = 900_000_000_000;

/// The numbers of a range, as far as they have to be looked at.
#[tactic(auto, using(crate::proofs::Ranges::low_small, crate::proofs::Ranges::low_reaches))]
pub(crate) fn span_of(range: NRange) -> Span
    requires { is_range range ≡ true }
    ensures { IsSpanOf range result }
{
    match range.high {
        Some(high) => Span {
            from: i64::from(range.low),
            to: i64::from(high),
        },
        None => Span {
            from: i64::from(range.low),
            to: HORIZON,
        },
    }
}
