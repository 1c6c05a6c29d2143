//! From a rank's flat endpoint to the text of the projection's shape.
#![tactic(auto)]

ghost use Rattle.pb_shape_follow.specs.Follow.{RankFollows};

use pb_core_language::ranks_are_numbered;

/// Where a protocol keeps the rules at one N, each rank of a well-made program of the projection's shape follows what its flat
/// endpoint follows, with at most four silent steps for each statement of the text before each action, and it ends where the
/// endpoint ends.
pub fn text_follows()
    ensures { RankFollows }
{
    ranks_are_numbered();
}
