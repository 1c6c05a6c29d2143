ghost use Rattle.std.specs.Prelude.{◌≡◌, ◌≢◌, ℕ, ◌<◌, Some, None, IfSome};
ghost use Rattle.pb_local.specs.Family.{Sequence, family};
ghost use Rattle.pb_machine.specs.declared.act.Next.TheVariants.{Ended};
ghost use Rattle.pb_sim_world.specs.States.{program, total_of, next_at, stand};
ghost use Rattle.pb_sim_world.specs.Can.{is_undefined};
ghost use Rattle.pb_sim_world.specs.Worlds.{world_of};
ghost use Rattle.pb_sim.specs.Seen.{IsSeen};
ghost use Rattle.pb_sim.specs.Standing.{IsStanding, TellsIdle};
ghost use Rattle.pb_sim.specs.Causes.{IsLeast, cause_at, cause_of};

use crate::seen::Seen;
use crate::standing::{Cause, Standing};
use pb_sim_world::{Act, Next};

/// Why a rank has no step that waits for no message of its own to be taken, and is neither lost nor undefined.
fn waits_at(next: Next) -> Cause
    ensures { result ≡ cause_at next }
{
    match next {
        Next::Acts(Act::Recv { from, label }) => Cause::Receive { from, label },
        Next::Acts(Act::Leave) => Cause::Collective,
        Next::Waits { from } => Cause::Probe { from },
        Next::Lost => Cause::Lost,
        Next::Undefined => Cause::Undefined,
        Next::Silent => Cause::Undefined,
        Next::Ended => Cause::Undefined,
        Next::Acts(Act::Choose { .. }) => Cause::Undefined,
        Next::Acts(Act::Run { .. }) => Cause::Undefined,
        Next::Acts(Act::Send { .. }) => Cause::Undefined,
        Next::Acts(Act::Enter { .. }) => Cause::Undefined,
    }
}

impl Seen {
    /// Why a rank that hasn't ended has no step.
    fn cause(&self, rank: u32) -> Cause
        requires seen { IsSeen self.now }
        requires there { rank < total_of self.now.state }
        ensures { result ≡ cause_of self.now.state rank }
    {
        let next = self.state.next(rank);
        if let Next::Lost = next {
            return Cause::Lost;
        }
        if self.state.is_undefined(rank) {
            return Cause::Undefined;
        }
        match self.state.kept_of(rank).waits {
            None => waits_at(next),
            Some(waits) => Cause::Taken {
                by: waits.by,
                label: waits.label,
            },
        }
    }

    /// Why a rank that is there has no step. None where it has ended, or has a step.
    fn idle_there(&self, rank: u32) -> Option<Cause>
        requires seen { IsSeen self.now }
        requires there { rank < total_of self.now.state }
        ensures { (sequence : Sequence) → TellsIdle (family (program self.now.state) self.now.state.n sequence) (world_of self.now.state) rank result }
    {
        if self.is_ready(rank) {
            return None;
        }
        match self.state.next(rank) {
            Next::Ended => None,
            _ => Some(self.cause(rank)),
        }
    }

    /// Why a rank has no step. None where it isn't there, has ended, or has a step.
    #[tactic(auto, using(crate::proofs::Idle::away))]
    pub fn idle(&self, rank: u32) -> Option<Cause>
        requires { IsSeen self.now }
        ensures { (sequence : Sequence) → TellsIdle (family (program self.now.state) self.now.state.n sequence) (world_of self.now.state) rank result }
    {
        if (rank as usize) < self.state.ranks.len() {
            self.idle_there(rank)
        } else {
            None
        }
    }

    /// The least rank that hasn't ended.
    fn first_left(&self) -> Option<u32>
        requires seen { IsSeen self.now }
        ensures some { IfSome result (λ r. IsLeast self.now.state r) }
        ensures none { result ≡ None → (q : ℕ) → q < total_of self.now.state → next_at self.now.state q ≡ Ended }
    {
        let total = self.state.ranks.len() as u32;
        for rank in 0..total {
            match self.state.next(rank) {
                Next::Ended => {}
                _ => return Some(rank),
            }
        }
        None
    }

    /// How all ranks stand.
    pub fn standing(&self) -> Standing
        requires { IsSeen self.now }
        ensures { (sequence : Sequence) → IsStanding (family (program self.now.state) self.now.state.n sequence) (world_of self.now.state) result }
    {
        if !self.ready.list().is_empty() {
            return Standing::Going;
        }
        match self.first_left() {
            Some(rank) => Standing::Stuck {
                rank,
                cause: self.cause(rank),
            },
            None => self.left(),
        }
    }

    /// How ranks stand that have all ended.
    fn left(&self) -> Standing
        requires seen { IsSeen self.now }
        requires ended { (q : ℕ) → q < total_of self.now.state → next_at self.now.state q ≡ Ended }
        ensures { (sequence : Sequence) → IsStanding (family (program self.now.state) self.now.state.n sequence) (world_of self.now.state) result }
    {
        match self.state.channels.any() {
            None => Standing::Ended,
            Some((rank, from, label)) => Standing::Stuck {
                rank,
                cause: Cause::Left { from, label },
            },
        }
    }
}
