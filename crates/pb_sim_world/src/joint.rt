ghost use Rattle.std.specs.Prelude.{◌≡◌, ◌≤◌, ◌<◌, ◌+◌, ◌^◌, [], ◌∷◌, length, OnOk, OnErr, IfOk, true, false};
ghost use Rattle.pb_world.specs.Actions.{Enter, Leave};
ghost use Rattle.pb_local.specs.Collectives.{weight};
ghost use Rattle.pb_sim_collectives.specs.Calls.{collective_of, call_of};
ghost use Rattle.pb_sim_collectives.specs.Joined.{agrees, number, all_entered};
ghost use Rattle.pb_machine.specs.declared.act.Act.TheVariants as A;
ghost use Rattle.pb_machine.specs.declared.act.Next.TheVariants.{Acts};
ghost use Rattle.pb_sim_world.specs.States.{program, stand};
ghost use Rattle.pb_sim_world.specs.Can.{can_leave, is_root, decides};
ghost use Rattle.pb_sim_world.specs.Events.{IsEvent, IsOther, MayStep, IsAsked, IsSame};

use crate::stand::Stand;
use crate::state::State;
use crate::weights::payload;
use pb_machine::Input;
use pb_sim_collectives::{Call, Joint, Op};
use pb_text::{Mode, NoMemory, Words};
use std::alloc::Global;

impl State {
    /// A rank enters a collective. After `NoMemory` all is as before.
    pub fn enter(
        &mut self,
        alloc: Global,
        rank: u32,
        what: Joint,
        root: Option<u32>,
        op: Option<Op>,
        words: Words,
        mode: Mode,
    ) -> Result<(), NoMemory>
        requires may { MayStep self.old rank (Acts (A.Enter what root op)) }
        requires fit { agrees self.old.joins rank (collective_of (call_of what root op)) ≡ true }
        requires long { length words ≡ weight (program self.old) self.old.n (collective_of (call_of what root op)) rank }
        requires asked { (stand self.old rank).asked < 2 ^ 62 }
        ensures event { OnOk result (IsEvent self.old rank (Enter (collective_of (call_of what root op)) words ∷ []) self.new) }
        ensures others { OnOk result (decides self.old.joins rank (call_of what root op) ≡ false → all_entered self.new.joins (number self.old.joins rank) ≡ false → IsOther self.old rank self.new) }
        ensures mode { OnOk result ((stand self.new rank).mode ≡ mode) }
        ensures asked { OnOk result (IsAsked self.old rank (length words) self.new) }
        ensures same { OnErr result (self.new ≡ self.old) }
    {
        let kept = self.kept_of(rank);
        let count = words.list().len() as u64;
        let call = Call::of(what, root, op);
        let payload = payload(&self.tree, call.label());
        let entered = self.joins.enter(alloc, payload, rank, call, words).is_ok();
        if !entered {
            return Err(NoMemory);
        }
        self.advance(rank, Input::Plain);
        self.keep(
            rank,
            Stand {
                waits: kept.waits,
                left: kept.left,
                mode,
                asked: kept.asked + count,
            },
        );
        Ok(())
    }

    /// Whether an entry of a rank decides what others may do: it is the first one, or that of the root.
    pub fn decides(&self, rank: u32, call: Call) -> bool
        ensures { result ≡ decides self.now.joins rank call }
    {
        match self.joins.call(self.joins.number(rank)) {
            None => true,
            Some(_) => is_root(rank, call),
        }
    }

    /// A rank leaves the collective that it is in. After `NoMemory` all is as before.
    pub fn leave(&mut self, alloc: Global, rank: u32) -> Result<(Call, Words), NoMemory>
        requires may { MayStep self.old rank (Acts A.Leave) }
        requires out { can_leave self.old rank ≡ true }
        ensures event { IfOk result (λ x. IsEvent self.old rank (Leave (collective_of x.0) x.1 ∷ []) self.new × IsOther self.old rank self.new) }
        ensures asked { OnOk result (IsAsked self.old rank 0 self.new) }
        ensures same { OnErr result (self.new ≡ self.old) }
    {
        let kept = self.kept_of(rank);
        let call = self.joins.call(kept.left).unwrap();
        let payload = payload(&self.tree, call.label());
        let entered = self.joins.number(rank);
        let words = self.joins.outcome(alloc, payload, call, rank, kept.left)?;
        self.advance(rank, Input::Plain);
        self.keep(
            rank,
            Stand {
                waits: kept.waits,
                left: entered,
                mode: kept.mode,
                asked: kept.asked,
            },
        );
        Ok((call, words))
    }
}

fn is_root(rank: u32, call: Call) -> bool
    ensures { result ≡ is_root rank call }
{
    match call {
        Call::Barrier => false,
        Call::Broadcast { root, .. } => rank == root,
        Call::Reduce { .. } => false,
        Call::Allreduce { .. } => false,
    }
}
