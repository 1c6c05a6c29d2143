ghost use Rattle.std.specs.Prelude.{◌≡◌, ◌≤◌, ◌<◌, ◌+◌, ◌^◌, ◌↔◌, ℕ, length, true, false, IsTrue, OnOk, OnErr, IfOk, IfErr};
ghost use Rattle.pb_text.specs.declared.mode.Mode.{Mode};
ghost use Rattle.pb_local.specs.Collectives.{words_of};
ghost use Rattle.pb_local.specs.Family.{Sequence, family};
ghost use Rattle.pb_chan.specs.Lists.{words_in};
ghost use Rattle.pb_ctree.specs.Trees.{IsTree};
ghost use Rattle.pb_sim_collectives.specs.Calls.{collective_of, call_of};
ghost use Rattle.pb_machine.specs.declared.act.Act.TheVariants as T;
ghost use Rattle.pb_machine.specs.declared.act.Next.TheVariants.{Acts};
ghost use Rattle.pb_sim_world.specs.States.{program, total_of, state_at, stand};
ghost use Rattle.pb_sim_world.specs.Worlds.{world_of};
ghost use Rattle.pb_sim_world.specs.Can.{can_act, can_next, can_leave};
ghost use Rattle.pb_sim_world.specs.Events.{MayStep};
ghost use Rattle.pb_sim.specs.Seen.{IsUnchanged, is_too_much};
ghost use Rattle.pb_sim.specs.Done.{AreWords};
ghost use Rattle.pb_sim.specs.Made.{IsBegun, IsNoStart, HasStep, IsTooMuch, IsRefusal, IsMade};
ghost use Rattle.pb_sim.specs.Runs.{IsReadyList, BeginsRun, GoesOn, StaysRun};
ghost use Rattle.pb_sim.specs.Standing.{IsStanding, TellsIdle};

use crate::answers::Answers;
use crate::counts::Counts;
use crate::held::Held;
use crate::outcomes::{SimFault, StepDone, StepFault};
use crate::standing::{Cause, Standing};
use pb_machine::{Act, CTree, Next, NoMemory};
use pb_sim_collectives::{Call, Joint, Op};
use pb_text::{Action, Mode, Words};
use std::alloc::Global;

/// A simulation of all ranks of a tree for one N.
#[derive(Drop)]
pub struct Sim<A> {
    answers: Answers<A>,
    held: Held,
}

impl<A: Fn(u64, u32, u64) -> u32 + Drop> Sim<A> {
    /// All ranks at their starts. `OutOfRange` exactly where N isn't in the tree's range, else `TooManyRanks` exactly where
    /// there would be more than 1,024 ranks. A refusal gives up what was handed in.
    pub fn new(alloc: Global, tree: CTree, n: i64, answers: Answers<A>) -> Result<Sim<A>, SimFault>
        requires { IsTree tree }
        ensures begun { IfOk result (λ s. IsBegun tree n s.held) }
        ensures answers { IfOk result (λ s. s.answers ≡ answers) }
        ensures out { IfErr result (IsNoStart tree n) }
        ensures run { IfOk result (λ s. BeginsRun (A.post answers.answer answers.seed) s.held) }
    {
        let held = Held::new(alloc, tree, n)?;
        Ok(Sim { answers, held })
    }

    /// The tree that is simulated. Takes no memory.
    pub fn tree(&self) -> &CTree
        ensures { result.now ≡ self.now.held.state.tree }
    {
        self.held.tree()
    }

    /// Whether the rank exists and has a step. Takes no memory.
    pub fn ready(&self, rank: u32) -> bool
        ensures { (sequence : Sequence) → IsTrue result ↔ HasStep self.now.held sequence rank }
    {
        self.held.is_ready(rank)
    }

    /// The ranks that have a step, ascending. Takes no memory.
    pub fn ready_ranks(&self) -> &[u32]
        ensures { (sequence : Sequence) → IsReadyList (family (program self.now.held.state) self.now.held.state.n sequence) (world_of self.now.held.state) result.now }
    {
        self.held.ready_ranks()
    }

    /// How all ranks stand: some rank has a step, all have ended and no message is left, or nobody can go on, and why.
    /// Takes no memory.
    pub fn standing(&self) -> Standing
        ensures { (sequence : Sequence) → IsStanding (family (program self.now.held.state) self.now.held.state.n sequence) (world_of self.now.held.state) result }
    {
        self.held.standing()
    }

    /// Why a rank has no step, as it stands now; None where it isn't there, has ended, or has a step. `Left` never comes.
    /// Takes no memory.
    pub fn idle(&self, rank: u32) -> Option<Cause>
        ensures { (sequence : Sequence) → TellsIdle (family (program self.now.held.state) self.now.held.state.n sequence) (world_of self.now.held.state) rank result }
    {
        self.held.idle(rank)
    }

    /// How many actions were done. Takes no memory.
    pub fn counts(&self) -> Counts
        ensures { result ≡ self.now.held.counts }
    {
        self.held.counts()
    }

    /// A rank's kernel chooses.
    fn choose(&mut self, rank: u32, kernel: u32, branches: u32) -> StepDone
        requires callable { A.IsAlwaysCallable self.old.answers.answer }
        requires may { MayStep self.old.held.state rank (Acts (T.Choose kernel branches)) }
        requires some { 0 < branches }
        requires few { self.old.held.steps < 2 ^ 40 }
        ensures made { (mode : Mode) → IsMade (A.post self.old.answers.answer self.old.answers.seed) self.old.held (rank, mode) result self.new.held }
        ensures answers { self.new.answers ≡ self.old.answers }
    {
        let asked = self.held.asked(rank);
        let answer = self.answers.word(rank, asked) % branches;
        self.held.choose(rank, kernel, branches, answer);
        StepDone::Did(Action::Choose {
            rank,
            kernel,
            answer,
        })
    }

    /// So many words of a rank's kernels, twice.
    fn make(&self, alloc: Global, rank: u32, count: u32) -> Result<(Words, Words), NoMemory>
        requires callable { A.IsAlwaysCallable self.now.answers.answer }
        requires there { rank < total_of self.now.held.state }
        requires few { self.now.held.steps < 2 ^ 40 }
        ensures long { IfOk result (λ w. length w.0 ≡ count) }
        ensures same { IfOk result (λ w. w.1 ≡ w.0) }
        ensures words { IfOk result (λ w. AreWords (A.post self.now.answers.answer self.now.answers.seed) rank (stand self.now.held.state rank).asked w.0) }
    {
        let words = self
            .answers
            .words(alloc, rank, self.held.asked(rank), count)?;
        let copy = words.to_vec(alloc)?;
        Ok((Words::of(words), Words::of(copy)))
    }

    fn send(
        &mut self,
        alloc: Global,
        rank: u32,
        to: u32,
        label: u32,
        mode: Mode,
    ) -> Result<StepDone, NoMemory>
        requires callable { A.IsAlwaysCallable self.old.answers.answer }
        requires may { MayStep self.old.held.state rank (Acts (T.Send to label)) }
        requires room { words_in self.old.held.state.channels + words_of (program self.old.held.state) self.old.held.state.n label ≤ 16777216 }
        requires few { self.old.held.steps < 2 ^ 40 }
        ensures made { IfOk result (λ done. IsMade (A.post self.old.answers.answer self.old.answers.seed) self.old.held (rank, mode) done self.new.held) }
        ensures same { OnErr result (IsUnchanged self.old.held self.new.held) }
        ensures answers { self.new.answers ≡ self.old.answers }
    {
        let count = self.held.words_of(label);
        let (words, copy) = self.make(alloc, rank, count)?;
        self.held.send(alloc, rank, to, label, copy, mode)?;
        Ok(StepDone::Did(Action::Send {
            rank,
            to,
            label,
            words,
        }))
    }

    fn enter(
        &mut self,
        alloc: Global,
        rank: u32,
        what: Joint,
        root: Option<u32>,
        op: Option<Op>,
        mode: Mode,
    ) -> Result<StepDone, NoMemory>
        requires callable { A.IsAlwaysCallable self.old.answers.answer }
        requires may { MayStep self.old.held.state rank (Acts (T.Enter what root op)) }
        requires fit { can_act self.old.held.state rank (T.Enter what root op) ≡ true }
        requires few { self.old.held.steps < 2 ^ 40 }
        ensures made { IfOk result (λ done. IsMade (A.post self.old.answers.answer self.old.answers.seed) self.old.held (rank, mode) done self.new.held) }
        ensures same { OnErr result (IsUnchanged self.old.held self.new.held) }
        ensures answers { self.new.answers ≡ self.old.answers }
    {
        let call = Call::of(what, root, op);
        let count = self.held.weight(rank, call);
        let (words, copy) = self.make(alloc, rank, count)?;
        self.held.enter(alloc, rank, what, root, op, copy, mode)?;
        Ok(StepDone::Did(Action::Enter {
            rank,
            what: call.what(),
            words,
        }))
    }

    fn leave(&mut self, alloc: Global, rank: u32) -> Result<StepDone, NoMemory>
        requires may { MayStep self.old.held.state rank (Acts T.Leave) }
        requires out { can_leave self.old.held.state rank ≡ true }
        requires few { self.old.held.steps < 2 ^ 40 }
        ensures made { IfOk result (λ done. (mode : Mode) → IsMade (A.post self.old.answers.answer self.old.answers.seed) self.old.held (rank, mode) done self.new.held) }
        ensures same { OnErr result (IsUnchanged self.old.held self.new.held) }
        ensures answers { self.new.answers ≡ self.old.answers }
    {
        let (call, words) = self.held.leave(alloc, rank)?;
        Ok(StepDone::Did(Action::Leave {
            rank,
            what: call.what(),
            words,
        }))
    }

    /// An action of a rank, which may make it and has room for it.
    fn act(&mut self, alloc: Global, rank: u32, mode: Mode, act: Act) -> Result<StepDone, NoMemory>
        requires callable { A.IsAlwaysCallable self.old.answers.answer }
        requires may { MayStep self.old.held.state rank (Acts act) }
        requires can { can_act self.old.held.state rank act ≡ true }
        requires room { is_too_much self.old.held (Acts act) ≡ false }
        requires few { self.old.held.steps < 2 ^ 40 }
        ensures made { IfOk result (λ done. IsMade (A.post self.old.answers.answer self.old.answers.seed) self.old.held (rank, mode) done self.new.held) }
        ensures same { OnErr result (IsUnchanged self.old.held self.new.held) }
        ensures answers { self.new.answers ≡ self.old.answers }
    {
        match act {
            Act::Choose { kernel, branches } => Ok(self.choose(rank, kernel, branches)),
            Act::Run { kernel } => {
                self.held.run(rank, kernel);
                Ok(StepDone::Did(Action::Run { rank, kernel }))
            }
            Act::Send { to, label } => self.send(alloc, rank, to, label, mode),
            Act::Recv { from, label } => {
                let words = self.held.receive(rank, from, label);
                Ok(StepDone::Did(Action::Recv {
                    rank,
                    from,
                    label,
                    words,
                }))
            }
            Act::Enter { what, root, op } => self.enter(alloc, rank, what, root, op, mode),
            Act::Leave => self.leave(alloc, rank),
        }
    }

    /// What comes next of a rank, which may make it and has room for it.
    fn go(&mut self, alloc: Global, rank: u32, mode: Mode, next: Next) -> Result<StepDone, NoMemory>
        requires callable { A.IsAlwaysCallable self.old.answers.answer }
        requires may { MayStep self.old.held.state rank next }
        requires can { can_next self.old.held.state rank (state_at self.old.held.state rank) next ≡ true }
        requires room { is_too_much self.old.held next ≡ false }
        requires few { self.old.held.steps < 2 ^ 40 }
        ensures made { IfOk result (λ done. IsMade (A.post self.old.answers.answer self.old.answers.seed) self.old.held (rank, mode) done self.new.held) }
        ensures same { OnErr result (IsUnchanged self.old.held self.new.held) }
        ensures answers { self.new.answers ≡ self.old.answers }
    {
        match next {
            Next::Silent => {
                self.held.silent(rank);
                Ok(StepDone::Silent)
            }
            Next::Waits { from } => {
                self.held.read(rank, from);
                Ok(StepDone::Silent)
            }
            Next::Acts(act) => self.act(alloc, rank, mode, act),
            Next::Ended => unreachable!(),
            Next::Lost => unreachable!(),
            Next::Undefined => unreachable!(),
        }
    }

    /// One step of a rank, in this mode where it is a send or the entry into a collective. `NotReady` exactly where the rank
    /// isn't there or has no step, else `Full` exactly at a send after which more than 16,777,216 words would be in flight.
    /// After a refusal all is as before.
    pub fn step(&mut self, alloc: Global, rank: u32, mode: Mode) -> Result<StepDone, StepFault>
        requires callable { A.IsAlwaysCallable self.old.answers.answer }
        requires few { self.old.held.steps < 2 ^ 40 }
        ensures made { IfOk result (λ done. IsMade (A.post self.old.answers.answer self.old.answers.seed) self.old.held (rank, mode) done self.new.held) }
        ensures ready { OnOk result ((sequence : Sequence) → HasStep self.old.held sequence rank) }
        ensures room { OnOk result (IsTooMuch self.old.held rank → ⊥) }
        ensures refused { IfErr result (IsRefusal self.old.held rank) }
        ensures same { OnErr result (IsUnchanged self.old.held self.new.held) }
        ensures run { IfOk result (λ done. GoesOn (A.post self.old.answers.answer self.old.answers.seed) self.old.held (rank, mode) done self.new.held) }
        ensures stays { OnErr result (StaysRun (A.post self.old.answers.answer self.old.answers.seed) self.old.held self.new.held) }
        ensures answers { self.new.answers ≡ self.old.answers }
    {
        if !self.held.is_ready(rank) {
            return Err(StepFault::NotReady);
        }
        let next = self.held.next(rank);
        if self.held.is_too_much(next) {
            return Err(StepFault::Full);
        }
        Ok(self.go(alloc, rank, mode, next)?)
    }
}
