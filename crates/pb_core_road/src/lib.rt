//! Ways of a sequential run on which each choice may take any of its branches.
#![tactic(auto)]

ghost use Rattle.pb_core_language.specs.Run.{Setting};
ghost use Rattle.pb_core_road.specs.Roads.{RoadsAreRuns};

/// For each way on which each choice takes some branch there are answers under which the sequential run goes it.
pub fn roads_are_runs()
    ensures { (w : Setting) → RoadsAreRuns w }
{}
