//! No empty parts in a program of the projection's shape.
#![tactic(auto)]

ghost use Rattle.pb_shape_filled.specs.Filled.{TextIsFilled};

use pb_shape::ranges_agree;

/// In a program of the projection's shape no `If` has two empty parts, and no `For` an empty body.
pub fn text_is_filled()
    ensures { TextIsFilled }
{
    ranges_agree();
}
