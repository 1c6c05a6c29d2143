use crate::counts::Counts;
use pb_sim_ready::Ready;
use pb_sim_world::State;

/// A simulation but for its answers. `Held` keeps one, with the invariant that its parts agree.
#[derive(Drop)]
pub struct Seen {
    pub state: State,
    /// The ranks that have a step.
    pub ready: Ready,
    pub counts: Counts,
    /// How many steps were made.
    pub steps: u64,
}
