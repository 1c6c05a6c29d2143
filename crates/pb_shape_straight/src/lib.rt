//! What the code of a straight statement does: a message, a compute, a foreach or a collective.
#![tactic(auto)]

ghost use Rattle.pb_shape.specs.Straight.{StraightPasses};
ghost use Rattle.pb_shape_straight.specs.Ends.{EndsAreFine};

use pb_core_language::ranks_are_numbered;

/// In a program of the projection's shape the code of a straight statement does exactly the rank's part of it, with no more silent
/// steps since the last action than the code has statements, and it is never undefined.
pub fn straight()
    ensures { StraightPasses }
{
    ranks_are_numbered();
}

/// Where no rule is broken, each end in a protocol is a rank, for each value of the variable, and no message goes from a rank to
/// itself.
pub fn ends_are_ranks()
    ensures { EndsAreFine }
{}
