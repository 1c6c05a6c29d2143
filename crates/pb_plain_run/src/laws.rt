ghost use Rattle.pb_plain_run.specs.Passing.{Passed};

/// Where no rank has an answer, a block that can end is passed within so many steps, the same wherever it stands.
#[tactic(auto, using(crate::proofs::Passing_laws::passed))]
pub fn blocks_are_passed()
    ensures { Passed }
{}
