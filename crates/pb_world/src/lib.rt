//! All ranks of a program together, whatever the order of their events.
#![tactic(auto)]

ghost use Rattle.pb_world.specs.Counted.{CountedFollows};
ghost use Rattle.pb_world.specs.Example.{family};
ghost use Rattle.pb_world.specs.Family.{Family, Laws, RunsBegin, ReceivesAreSends};
ghost use Rattle.pb_world.specs.Log.{LogLaws};
ghost use Rattle.pb_world.specs.Theorem.{AllRanks};
ghost use Rattle.pb_world.specs.World.{InFlight};

/// Where each rank's machine follows its part of a sequential run, all of them together do such a run, in whatever order
/// their events come, and stop only at its end.
pub fn all_ranks<S>()
    ensures { (F : Family S) → Laws F → AllRanks F }
{}

/// Two ranks that go on as long as one of them chooses so: a family that keeps the laws.
pub fn example()
    ensures laws { Laws family }
    ensures ranks { AllRanks family }
{}

/// What a sequential run has done, a longer one begins with.
pub fn runs_begin<S>()
    ensures { RunsBegin S }
{}

/// In a sequential run receives are the sends, in order, for every pair of ranks.
pub fn receives_are_sends<S>()
    ensures { ReceivesAreSends S }
{}

/// Where a run of the world is covered by a sequential run, each channel holds what was sent and not yet received.
pub fn in_flight<S>()
    ensures { InFlight S }
{}

/// What a machine follows within a bound on its silent steps, it follows where it is lost beyond the bound.
pub fn counted_follows<S>()
    ensures { CountedFollows S }
{}

/// The map from actions in full to their log keeps each rank's part, what covers what, and the answers.
pub fn logs()
    ensures { LogLaws }
{}
