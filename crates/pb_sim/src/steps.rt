ghost use Rattle.std.specs.Prelude.{◌≡◌, ◌≤◌, ◌<◌, ◌+◌, ◌^◌, [], ◌∷◌, Some, length, true, OnOk, OnErr, IfOk};
ghost use Rattle.pb_world.specs.Actions.{Choose, Run, Send, Recv, Enter, Leave};
ghost use Rattle.pb_local.specs.Collectives.{words_of, weight};
ghost use Rattle.pb_sim_collectives.specs.Calls.{collective_of, call_of};
ghost use Rattle.pb_sim_collectives.specs.Joined.{agrees};
ghost use Rattle.pb_chan.specs.Lists.{messages, position, words_in};
ghost use Rattle.pb_machine.specs.Steps.{is_there};
ghost use Rattle.pb_machine.specs.declared.act.Act.TheVariants as A;
ghost use Rattle.pb_machine.specs.declared.act.Next.TheVariants.{Silent, Acts, Waits};
ghost use Rattle.pb_sim_world.specs.States.{program, state_at};
ghost use Rattle.pb_sim_world.specs.Worlds.{world_of};
ghost use Rattle.pb_sim_world.specs.Can.{can_read, can_leave};
ghost use Rattle.pb_sim_world.specs.Events.{MayStep};
ghost use Rattle.pb_sim.specs.Scheduled.{IsInMode};
ghost use Rattle.pb_sim.specs.Seen.{IsSeen, IsStepped, IsUnchanged};

use crate::seen::Seen;
use pb_sim_collectives::{Call, Joint, Op};
use pb_text::{Mode, NoMemory, Words};
use std::alloc::Global;

impl Seen {
    /// A silent step of a rank.
    pub fn silent(&mut self, rank: u32)
        requires seen { IsSeen self.old }
        requires may { MayStep self.old.state rank Silent }
        requires few { self.old.steps < 2 ^ 40 }
        ensures stepped { IsStepped self.old rank [] self.new }
        ensures seen { IsSeen self.new }
    {
        self.state.silent(rank);
        self.steps += 1;
        self.refresh(rank);
    }

    /// A rank reads the label of the first message from `from`.
    pub fn read(&mut self, rank: u32, from: u32)
        requires seen { IsSeen self.old }
        requires may { MayStep self.old.state rank (Waits from) }
        requires test { can_read self.old.state rank (state_at self.old.state rank) from ≡ true }
        requires few { self.old.steps < 2 ^ 40 }
        ensures stepped { IsStepped self.old rank [] self.new }
        ensures seen { IsSeen self.new }
    {
        let tag = self.state.channels.head(from, rank).unwrap();
        self.state.read(rank, from, tag);
        self.steps += 1;
        self.refresh(rank);
    }

    /// A rank's compute kernel runs.
    pub fn run(&mut self, rank: u32, kernel: u32)
        requires seen { IsSeen self.old }
        requires may { MayStep self.old.state rank (Acts (A.Run kernel)) }
        requires few { self.old.steps < 2 ^ 40 }
        ensures stepped { IsStepped self.old rank (Run kernel ∷ []) self.new }
        ensures seen { IsSeen self.new }
    {
        self.state.run(rank, kernel);
        self.counts.runs += 1;
        self.steps += 1;
        self.refresh(rank);
    }

    /// A rank's kernel chooses this branch.
    pub fn choose(&mut self, rank: u32, kernel: u32, branches: u32, branch: u32)
        requires seen { IsSeen self.old }
        requires may { MayStep self.old.state rank (Acts (A.Choose kernel branches)) }
        requires branch { branch < branches }
        requires few { self.old.steps < 2 ^ 40 }
        ensures stepped { IsStepped self.old rank (Choose kernel branches branch ∷ []) self.new }
        ensures seen { IsSeen self.new }
    {
        self.state.choose(rank, kernel, branches, branch);
        self.counts.chooses += 1;
        self.steps += 1;
        self.refresh(rank);
    }

    /// A rank takes the first message with the label.
    pub fn receive(&mut self, rank: u32, from: u32, label: u32) -> Words
        requires seen { IsSeen self.old }
        requires may { MayStep self.old.state rank (Acts (A.Recv from label)) }
        requires found { is_there (position label 0 (messages self.old.state.channels from rank)) ≡ true }
        requires few { self.old.steps < 2 ^ 40 }
        ensures stepped { IsStepped self.old rank (Recv from label result ∷ []) self.new }
        ensures seen { IsSeen self.new }
    {
        let words = self.state.receive(rank, from, label);
        self.counts.receives += 1;
        self.steps += 1;
        self.refresh(rank);
        self.refresh(from);
        words
    }

    /// A rank sends a message. After `NoMemory` all is as before.
    pub fn send(
        &mut self,
        alloc: Global,
        rank: u32,
        to: u32,
        label: u32,
        words: Words,
        mode: Mode,
    ) -> Result<(), NoMemory>
        requires seen { IsSeen self.old }
        requires may { MayStep self.old.state rank (Acts (A.Send to label)) }
        requires long { length words ≡ words_of (program self.old.state) self.old.state.n label }
        requires room { words_in self.old.state.channels + length words ≤ 16777216 }
        requires few { self.old.steps < 2 ^ 40 }
        ensures stepped { OnOk result (IsStepped self.old rank (Send to label words ∷ []) self.new) }
        ensures mode { OnOk result (IsInMode mode rank (Send to label words ∷ []) (world_of self.new.state)) }
        ensures seen { OnOk result (IsSeen self.new) }
        ensures kept { OnErr result (IsSeen self.new) }
        ensures same { OnErr result (IsUnchanged self.old self.new) }
    {
        let count = words.list().len() as u64;
        let sent = self.state.send(alloc, rank, to, label, words, mode).is_ok();
        if !sent {
            return Err(NoMemory);
        }
        self.counts.sends += 1;
        self.counts.words += count;
        self.steps += 1;
        self.refresh(rank);
        self.refresh(to);
        Ok(())
    }

    /// A rank enters a collective. After `NoMemory` all is as before.
    pub fn enter(
        &mut self,
        alloc: Global,
        rank: u32,
        what: Joint,
        root: Option<u32>,
        op: Option<Op>,
        words: Words,
        mode: Mode,
    ) -> Result<(), NoMemory>
        requires seen { IsSeen self.old }
        requires may { MayStep self.old.state rank (Acts (A.Enter what root op)) }
        requires fit { agrees self.old.state.joins rank (collective_of (call_of what root op)) ≡ true }
        requires long { length words ≡ weight (program self.old.state) self.old.state.n (collective_of (call_of what root op)) rank }
        requires few { self.old.steps < 2 ^ 40 }
        ensures stepped { OnOk result (IsStepped self.old rank (Enter (collective_of (call_of what root op)) words ∷ []) self.new) }
        ensures mode { OnOk result ((world_of self.new.state).mode rank ≡ mode) }
        ensures seen { OnOk result (IsSeen self.new) }
        ensures same { OnErr result (self.new ≡ self.old) }
    {
        let count = words.list().len() as u64;
        let first = self.state.decides(rank, Call::of(what, root, op));
        let k = self.state.joins.number(rank);
        let entered = self
            .state
            .enter(alloc, rank, what, root, op, words, mode)
            .is_ok();
        if !entered {
            return Err(NoMemory);
        }
        self.counts.enters += 1;
        self.counts.words += count;
        self.steps += 1;
        let last = self.state.joins.all_entered(k);
        self.refresh_for(rank, first, last);
        Ok(())
    }

    /// A rank leaves the collective that it is in. After `NoMemory` all is as before.
    pub fn leave(&mut self, alloc: Global, rank: u32) -> Result<(Call, Words), NoMemory>
        requires seen { IsSeen self.old }
        requires may { MayStep self.old.state rank (Acts A.Leave) }
        requires out { can_leave self.old.state rank ≡ true }
        requires few { self.old.steps < 2 ^ 40 }
        ensures stepped { IfOk result (λ x. IsStepped self.old rank (Leave (collective_of x.0) x.1 ∷ []) self.new) }
        ensures seen { OnOk result (IsSeen self.new) }
        ensures same { OnErr result (self.new ≡ self.old) }
    {
        let (call, words) = self.state.leave(alloc, rank)?;
        self.counts.leaves += 1;
        self.steps += 1;
        self.refresh(rank);
        Ok((call, words))
    }
}
