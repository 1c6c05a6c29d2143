ghost use Rattle.pb_core_language.specs.Laws.{Extends, Matched, Numbered, Totalled};
ghost use Rattle.pb_core_language.specs.TakesPart.{BodyIs, ContinueIs, Least};

/// The number of a rank is its index and its role's place, a number `a*N + b`, for every N. So is the number of all ranks.
#[tactic(auto, using(crate::proofs::Numbers::number_is, crate::proofs::Numbers::total_is))]
pub fn ranks_are_numbered()
    ensures numbered { Numbered }
    ensures totalled { Totalled }
{}

/// Those who take part, as computed, are the least sets that keep the sentences on it. A rank takes part in a `continue`
/// exactly where it takes part in the loop's body for another reason, and so the `continue` adds nobody to the loop.
#[tactic(auto, using(crate::proofs::LeastSets::least_is, crate::proofs::LeastSets::body_is))]
pub fn takers_are_least()
    ensures least { Least }
    ensures continues { ContinueIs }
    ensures body { BodyIs }
{}

/// In a sequential run a rank receives from another what that one sent to it, in order.
#[tactic(auto, using(crate::proofs::RunLaws::matched))]
pub fn receives_match()
    ensures { Matched }
{}

/// A sequential run begins each longer one under the same answers.
#[tactic(auto, using(crate::proofs::RunLaws::extends))]
pub fn runs_extend()
    ensures { Extends }
{}
