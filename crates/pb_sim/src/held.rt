ghost use Rattle.std.specs.Prelude.{◌≡◌, ◌≤◌, ◌<◌, ◌+◌, ◌^◌, ◌↔◌, [], ◌∷◌, length, true, IsTrue, OnOk, OnErr, IfOk, IfErr};
ghost use Rattle.pb_world.specs.Actions.{Choose, Run, Send, Recv, Enter, Leave};
ghost use Rattle.pb_local.specs.Collectives.{words_of, weight};
ghost use Rattle.pb_local.specs.Family.{Sequence, family};
ghost use Rattle.pb_ctree.specs.Trees.{IsTree};
ghost use Rattle.pb_sim_collectives.specs.Calls.{collective_of, call_of};
ghost use Rattle.pb_sim_collectives.specs.Joined.{agrees};
ghost use Rattle.pb_chan.specs.Lists.{messages, position, words_in};
ghost use Rattle.pb_machine.specs.Steps.{is_there};
ghost use Rattle.pb_machine.specs.declared.act.Act.TheVariants as A;
ghost use Rattle.pb_machine.specs.declared.act.Next.TheVariants.{Silent, Acts, Waits};
ghost use Rattle.pb_sim_world.specs.States.{program, total_of, stand, state_at};
ghost use Rattle.pb_sim_world.specs.Worlds.{world_of};
ghost use Rattle.pb_sim_world.specs.Can.{can, can_next, can_read, can_leave};
ghost use Rattle.pb_sim_world.specs.Events.{MayStep};
ghost use Rattle.pb_sim.specs.Scheduled.{IsInMode};
ghost use Rattle.pb_sim.specs.Seen.{IsStepped, IsUnchanged, is_too_much};
ghost use Rattle.pb_sim.specs.Made.{IsBegun, IsNoStart, HasStep};
ghost use Rattle.pb_sim.specs.Runs.{IsReadyList};
ghost use Rattle.pb_sim.specs.Standing.{IsStanding, TellsIdle};

use crate::begun::{MOST_RANKS, is_number};
use crate::counts::Counts;
use crate::outcomes::SimFault;
use crate::seen::Seen;
use crate::standing::{Cause, Standing};
use pb_machine::{CTree, Next, total_of};
use pb_sim_collectives::{Call, Joint, Op};
use pb_sim_world::{weight, words_of};
use pb_text::{Mode, NoMemory, Words};
use std::alloc::Global;
use std::marker::Model;

/// A simulation but for its answers, in which what is kept agrees. The calls are the same as those of `Seen`, with that as
/// the invariant in place of a clause of each.
#[derive(Drop)]
pub struct Held {
    seen: Seen,
}

impl Model for Held {
    ghost use Rattle.pb_sim.specs.declared.seen.Seen.{Seen};
    ghost use Rattle.pb_sim.specs.contracts.seen.Seen as e;

    ghost Value = { Seen };

    ghost coded = { e.the_row.coded };

    ghost use Rattle.pb_sim.specs.Seen.{IsSeen};

    ghost view = { λ a. a.seen };

    ghost invariant = { λ a. IsSeen a.seen };
}

impl Held {
    /// All ranks at their starts. `OutOfRange` exactly where N isn't in the tree's range, else `TooManyRanks` exactly where
    /// there would be more than 1,024 ranks.
    pub fn new(alloc: Global, tree: CTree, n: i64) -> Result<Held, SimFault>
        requires { IsTree tree }
        ensures begun { IfOk result (λ x. IsBegun tree n x) }
        ensures out { IfErr result (IsNoStart tree n) }
    {
        if !is_number(tree.local.range, n) {
            return Err(SimFault::OutOfRange);
        }
        match total_of(&tree, n, MOST_RANKS) {
            None => Err(SimFault::TooManyRanks),
            Some(total) => {
                let seen = Seen::new(alloc, tree, n, total)?;
                Ok(Held { seen })
            }
        }
    }

    /// Whether the rank exists and has a step. The same as that of `Seen`, with the clause that its world has such a step.
    pub fn is_ready(&self, rank: u32) -> bool
        ensures step { (sequence : Sequence) → IsTrue result ↔ HasStep self.now sequence rank }
        ensures can { IsTrue result ↔ ((rank < total_of self.now.state) × (can self.now.state rank ≡ true)) }
    {
        self.seen.is_ready(rank)
    }

    /// What a rank that has a step does next.
    pub fn next(&self, rank: u32) -> Next
        requires there { rank < total_of self.now.state }
        requires ready { can self.now.state rank ≡ true }
        ensures may { MayStep self.now.state rank result }
        ensures can { can_next self.now.state rank (state_at self.now.state rank) result ≡ true }
    {
        self.seen.state.next(rank)
    }

    /// How many words the rank has asked.
    pub fn asked(&self, rank: u32) -> u64
        requires { rank < total_of self.now.state }
        ensures asked { result ≡ (stand self.now.state rank).asked }
        ensures few { self.now.steps < 2 ^ 40 → result < 2 ^ 62 }
    {
        self.seen.state.kept_of(rank).asked
    }

    /// Whether what comes next of a rank is a send after which more words would be in flight than may be.
    pub fn is_too_much(&self, next: Next) -> bool
        ensures { result ≡ is_too_much self.now next }
    {
        self.seen.is_too_much(next)
    }

    /// How many words a message with the label has.
    pub fn words_of(&self, label: u32) -> u32
        ensures { result ≡ words_of (program self.now.state) self.now.state.n label }
    {
        words_of(&self.seen.state.tree, self.seen.state.n, label)
    }

    /// With how many words a rank enters a collective.
    pub fn weight(&self, rank: u32, call: Call) -> u32
        ensures { result ≡ weight (program self.now.state) self.now.state.n (collective_of call) rank }
    {
        weight(&self.seen.state.tree, self.seen.state.n, rank, call)
    }

    /// The ranks that have a step, ascending.
    pub fn ready_ranks(&self) -> &[u32]
        ensures { (sequence : Sequence) → IsReadyList (family (program self.now.state) self.now.state.n sequence) (world_of self.now.state) result.now }
    {
        self.seen.ready.list()
    }

    /// How all ranks stand.
    pub fn standing(&self) -> Standing
        ensures { (sequence : Sequence) → IsStanding (family (program self.now.state) self.now.state.n sequence) (world_of self.now.state) result }
    {
        self.seen.standing()
    }

    /// Why a rank has no step. None where it isn't there, has ended, or has a step.
    pub fn idle(&self, rank: u32) -> Option<Cause>
        ensures { (sequence : Sequence) → TellsIdle (family (program self.now.state) self.now.state.n sequence) (world_of self.now.state) rank result }
    {
        self.seen.idle(rank)
    }

    /// The tree that is simulated.
    pub fn tree(&self) -> &CTree
        ensures { result.now ≡ self.now.state.tree }
    {
        &self.seen.state.tree
    }

    /// How many actions were done.
    pub fn counts(&self) -> Counts
        ensures { result ≡ self.now.counts }
    {
        self.seen.counts
    }

    /// A silent step of a rank.
    pub fn silent(&mut self, rank: u32)
        requires may { MayStep self.old.state rank Silent }
        requires few { self.old.steps < 2 ^ 40 }
        ensures { IsStepped self.old rank [] self.new }
    {
        self.seen.silent(rank);
    }

    /// A rank reads the label of the first message from `from`.
    pub fn read(&mut self, rank: u32, from: u32)
        requires may { MayStep self.old.state rank (Waits from) }
        requires test { can_read self.old.state rank (state_at self.old.state rank) from ≡ true }
        requires few { self.old.steps < 2 ^ 40 }
        ensures { IsStepped self.old rank [] self.new }
    {
        self.seen.read(rank, from);
    }

    /// A rank's compute kernel runs.
    pub fn run(&mut self, rank: u32, kernel: u32)
        requires may { MayStep self.old.state rank (Acts (A.Run kernel)) }
        requires few { self.old.steps < 2 ^ 40 }
        ensures { IsStepped self.old rank (Run kernel ∷ []) self.new }
    {
        self.seen.run(rank, kernel);
    }

    /// A rank's kernel chooses this branch.
    pub fn choose(&mut self, rank: u32, kernel: u32, branches: u32, branch: u32)
        requires may { MayStep self.old.state rank (Acts (A.Choose kernel branches)) }
        requires branch { branch < branches }
        requires few { self.old.steps < 2 ^ 40 }
        ensures { IsStepped self.old rank (Choose kernel branches branch ∷ []) self.new }
    {
        self.seen.choose(rank, kernel, branches, branch);
    }

    /// A rank takes the first message with the label.
    pub fn receive(&mut self, rank: u32, from: u32, label: u32) -> Words
        requires may { MayStep self.old.state rank (Acts (A.Recv from label)) }
        requires found { is_there (position label 0 (messages self.old.state.channels from rank)) ≡ true }
        requires few { self.old.steps < 2 ^ 40 }
        ensures { IsStepped self.old rank (Recv from label result ∷ []) self.new }
    {
        self.seen.receive(rank, from, label)
    }

    /// A rank sends a message. After `NoMemory` all is as before.
    pub fn send(
        &mut self,
        alloc: Global,
        rank: u32,
        to: u32,
        label: u32,
        words: Words,
        mode: Mode,
    ) -> Result<(), NoMemory>
        requires may { MayStep self.old.state rank (Acts (A.Send to label)) }
        requires long { length words ≡ words_of (program self.old.state) self.old.state.n label }
        requires room { words_in self.old.state.channels + length words ≤ 16777216 }
        requires few { self.old.steps < 2 ^ 40 }
        ensures stepped { OnOk result (IsStepped self.old rank (Send to label words ∷ []) self.new) }
        ensures mode { OnOk result (IsInMode mode rank (Send to label words ∷ []) (world_of self.new.state)) }
        ensures same { OnErr result (IsUnchanged self.old self.new) }
    {
        self.seen.send(alloc, rank, to, label, words, mode)
    }

    /// A rank enters a collective. After `NoMemory` all is as before.
    pub fn enter(
        &mut self,
        alloc: Global,
        rank: u32,
        what: Joint,
        root: Option<u32>,
        op: Option<Op>,
        words: Words,
        mode: Mode,
    ) -> Result<(), NoMemory>
        requires may { MayStep self.old.state rank (Acts (A.Enter what root op)) }
        requires fit { agrees self.old.state.joins rank (collective_of (call_of what root op)) ≡ true }
        requires long { length words ≡ weight (program self.old.state) self.old.state.n (collective_of (call_of what root op)) rank }
        requires few { self.old.steps < 2 ^ 40 }
        ensures stepped { OnOk result (IsStepped self.old rank (Enter (collective_of (call_of what root op)) words ∷ []) self.new) }
        ensures mode { OnOk result ((world_of self.new.state).mode rank ≡ mode) }
        ensures same { OnErr result (self.new ≡ self.old) }
    {
        self.seen.enter(alloc, rank, what, root, op, words, mode)
    }

    /// A rank leaves the collective that it is in. After `NoMemory` all is as before.
    pub fn leave(&mut self, alloc: Global, rank: u32) -> Result<(Call, Words), NoMemory>
        requires may { MayStep self.old.state rank (Acts A.Leave) }
        requires out { can_leave self.old.state rank ≡ true }
        requires few { self.old.steps < 2 ^ 40 }
        ensures stepped { IfOk result (λ x. IsStepped self.old rank (Leave (collective_of x.0) x.1 ∷ []) self.new) }
        ensures same { OnErr result (self.new ≡ self.old) }
    {
        self.seen.leave(alloc, rank)
    }
}
