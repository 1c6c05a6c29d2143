//! From the shape of a projection to what all its ranks do: the main theorem of the compiler.
#![tactic(auto)]

ghost use Rattle.std.specs.Prelude.{pos};
ghost use Rattle.pb_shape_ranks.specs.Ranks.{TextRanks};
ghost use Rattle.pb_shape_ranks.specs.Worked.{first_to_last, first_to_last_text};
ghost use Rattle.pb_shape_ranks.specs.Rounds.{rounds, rounds_text};
ghost use Rattle.pb_shape.specs.Shape.{HasShape};
ghost use Rattle.pb_shape.specs.Theorem.{DoesRun};

use pb_core_language::ranks_are_numbered;

/// Where a protocol keeps the rules at one N, the ranks of each well-made program of its projection's shape do its sequential run:
/// each follows its part of the run for all answers of its kernels, with at most four silent steps for each statement of the text
/// before each action, and ends where nothing more comes for it; all together do the run whatever the order of their events and the
/// modes of their sends, no rank is lost or undefined, none is left behind, and they stop only at its end, with empty channels.
pub fn text_ranks()
    ensures { TextRanks }
{
    ranks_are_numbered();
}

/// A message from the first rank to the last: the text with a test for each of them has the shape, and the four ranks of N = 4 do
/// the run.
pub fn first_to_last()
    ensures shape { HasShape first_to_last first_to_last_text }
    ensures runs { DoesRun first_to_last first_to_last_text (pos 4) }
{
    ranks_are_numbered();
}

/// A loop in which one rank chooses, tells the next, and that one tells the third: the text with its relay and its tests has the
/// shape, and the three ranks do the run.
pub fn rounds()
    ensures shape { HasShape rounds rounds_text }
    ensures runs { DoesRun rounds rounds_text (pos 3) }
{
    ranks_are_numbered();
}
