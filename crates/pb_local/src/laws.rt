ghost use Rattle.std.specs.Prelude.{List, ℕ, ℤ};
ghost use Rattle.pb_world.specs.Actions.{Action};
ghost use Rattle.pb_local.specs.Tree.{Program};
ghost use Rattle.pb_local.specs.MachineLaws.{CountsWithin, EndsWhenFinished, FollowsAlone, KeepsRank, LostOrUndefined, NamesRanks};

/// Every step of a printed text keeps who the rank is. Actions and probes keep the variable too.
pub fn keeps_rank()
    ensures { (p : Program) (n : ℤ) → KeepsRank p n }
{}

/// Each receiver, source and root that a step of a printed text names is a rank of the world.
pub fn names_ranks()
    ensures { NamesRanks }
{}

/// A rank of a printed text has ended exactly where no statement is left.
pub fn ends_when_finished()
    ensures { (p : Program) (n : ℤ) → EndsWhenFinished p n }
{}

/// A rank of a printed text that is undefined by itself is never lost. It is lost exactly where it has made four silent
/// steps for each statement since its last action, or its start, and would make another, or probe.
pub fn lost_or_undefined()
    ensures { (p : Program) (n : ℤ) → LostOrUndefined p n }
{}

/// A rank of a printed text never makes more silent steps between two actions than four for each statement.
pub fn counts_within()
    ensures { (p : Program) (n : ℤ) → CountsWithin p n }
{}

/// What a rank of a printed text follows alone, with at most so many silent steps before each action, its machine in the
/// world follows.
pub fn follows_alone()
    ensures { (p : Program) (n : ℤ) (r : ℕ) (s : List Action) → FollowsAlone p n r s }
{}
