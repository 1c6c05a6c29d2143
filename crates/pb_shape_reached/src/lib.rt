//! No dead statement in a program of the projection's shape.
#![tactic(auto)]

ghost use Rattle.pb_shape_reached.specs.Reached.{TextIsReached};

use pb_core_language::ranks_are_numbered;

/// Where a protocol keeps the rules at each N of its range, each statement of each well-made program of the projection's
/// shape is reached by some rank at some N with at most 2,000,000,000 ranks, and each part of an `If` that isn't empty is
/// taken by some.
pub fn text_is_reached()
    ensures { TextIsReached }
{
    ranks_are_numbered();
}
