ghost use Rattle.pb_judge_walks.specs.Laws.{ChoicesAreWalked, LoopsAreWalked, RunsAreRuled, StepsAreWalked, WalksAreRuled};

/// Statements are walked one behind the other, and what stands behind one that isn't passed isn't done.
pub fn steps_are_walked()
    ensures { StepsAreWalked }
{}

/// A choice is walked where the branch that is taken is.
pub fn choices_are_walked()
    ensures { ChoicesAreWalked }
{}

/// A loop is walked round by round, and is endless where a round uses no entry.
pub fn loops_are_walked()
    ensures { LoopsAreWalked }
{}

/// How the walk over a whole protocol ends tells the ruling.
pub fn walks_are_ruled()
    ensures { WalksAreRuled }
{}

/// A log of a run, whatever front of each rank's part of it, is ruled whole or covered.
pub fn runs_are_ruled()
    ensures { RunsAreRuled }
{}
