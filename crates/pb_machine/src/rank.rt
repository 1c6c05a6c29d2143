ghost use Rattle.std.specs.Prelude.{◌≡◌, ◌≤◌, ◌<◌, ◌+◌, ℕ, suc, IfOk, IsSome, Some, length, take, pos, ◌≤ℤ◌, true};
ghost use Rattle.pb_text.specs.declared.limits.TheConstants.{MOST_NUMBER};
ghost use Rattle.pb_affine.specs.Values.{count_of};
ghost use Rattle.pb_local.specs.Ranks.{total};
ghost use Rattle.pb_local.specs.Tree.{Codes, program_of};
ghost use Rattle.pb_local.specs.WellMade.{IsInRange};
ghost use Rattle.pb_local.specs.Family.{text_start};
ghost use Rattle.pb_ctree.specs.declared.tree.CTree.{CTree};
ghost use Rattle.pb_ctree.specs.Trees.{IsTree};
ghost use Rattle.pb_machine_next.specs.Heights.{height_all};
ghost use Rattle.pb_machine_next.specs.Numbers.{tested};
ghost use Rattle.pb_machine_next.specs.Place.{todo, tests_at};
ghost use Rattle.pb_machine_next.specs.View.{goes, move_by, rank_of, told_to};
ghost use Rattle.pb_machine_next.specs.Safe.{IsRoom, IsSafe, IsIn};
ghost use Rattle.pb_machine.specs.Sizes.{AreSizes};
ghost use Rattle.pb_machine.specs.Steps.{going, misled, body_of, path_of, joined, shown_in, shown, param_of, IsPlaced, Fits, next_shown, takes_shown, goes_with, IsStepOf, unless_lost, next_by, takes_by, after, counted_as, read_as, move_shown};
ghost use Rattle.pb_machine_next.specs.declared.ahead.Go.TheVariants.{Enter};

use crate::act::{Act, Input, Next, entry};
use crate::phase::Phase;
use crate::seats::me_at;
use crate::sizes::{MOST, Sizes};
use pb_ctree::{CTree, NoMemory, Test};
use pb_machine_next::{Ahead, Go, State, Step, tested, tests_at};
use std::alloc::Global;

/// One rank of a printed text: who it is, the variable, and its place in the tree.
#[derive(Drop)]
pub struct Rank {
    state: State,
    phase: Phase,
    /// The silent steps since the last action.
    silent: u64,
    /// The most that it may make.
    limit: u64,
    /// The steps into the blocks that it is in, as far as `depth`.
    path: Vec<Step>,
    depth: usize,
    /// The next statement of the innermost block.
    at: usize,
}

impl Rank {
    /// The rank with this number at its start, for this N. It takes all the memory that the rank will need, and gives
    /// `NoMemory` where there isn't enough. Its time is linear in the tree.
    pub fn new(alloc: Global, tree: &CTree, n: i64, rank: u32) -> Result<Rank, NoMemory>
        requires tree { IsTree tree.now }
        requires some { pos 0 ≤ℤ n }
        requires range { IsInRange tree.now.local.range (count_of n) }
        requires there { rank < total tree.now.local.roles.items n }
        requires few { total tree.now.local.roles.items n ≤ MOST_NUMBER }
        ensures fits { IfOk result (λ r. Fits tree.now r) }
        ensures n { IfOk result (λ r. param_of r ≡ n) }
        ensures start { IfOk result (λ r. shown tree.now r ≡ going (text_start (program_of tree.now.local) n rank)) }
    {
        Rank::sized(alloc, tree, Sizes::of(tree), n, rank)
    }

    /// The same where the sizes of the tree are known. Its time is linear in the height of the tree.
    pub fn sized(
        alloc: Global,
        tree: &CTree,
        sizes: Sizes,
        n: i64,
        rank: u32,
    ) -> Result<Rank, NoMemory>
        requires tree { IsTree tree.now }
        requires sizes { AreSizes tree.now sizes }
        requires some { pos 0 ≤ℤ n }
        requires range { IsInRange tree.now.local.range (count_of n) }
        requires there { rank < total tree.now.local.roles.items n }
        requires few { total tree.now.local.roles.items n ≤ MOST_NUMBER }
        ensures fits { IfOk result (λ r. Fits tree.now r) }
        ensures n { IfOk result (λ r. param_of r ≡ n) }
        ensures start { IfOk result (λ r. shown tree.now r ≡ going (text_start (program_of tree.now.local) n rank)) }
    {
        let Sizes { size, height } = sizes;
        // memory holds no tree of so many statements
        if size >= MOST || height >= MOST {
            return Err(NoMemory);
        }
        let path = vec![in alloc; Step { at: 0, part: 0 }; height as usize]?;
        let me = me_at(&tree.local.roles, n, rank);
        let mut rank = Rank {
            state: State {
                me,
                i: 0,
                ahead: Ahead::Undefined,
            },
            phase: Phase::Going,
            silent: 0,
            limit: 4 * size,
            path,
            depth: 0,
            at: 0,
        };
        rank.settle(tree);
        Ok(rank)
    }

    /// The step, unless the rank made as many as it may.
    fn unless_lost(&self, next: Next) -> Next
        ensures { result ≡ unless_lost self.now.limit self.now.silent next }
    {
        if self.silent < self.limit {
            next
        } else {
            Next::Lost
        }
    }

    /// What is seen of what it keeps.
    fn seen(&self) -> Next
        ensures { (b : Codes) → result ≡ next_by self.now.limit self.now.silent (move_by b (path_of self.now) self.now.state.me self.now.state.i self.now.state.ahead) }
    {
        match self.state.ahead {
            Ahead::Ended => Next::Ended,
            Ahead::Undefined => Next::Undefined,
            Ahead::Silent { .. } => self.unless_lost(Next::Silent),
            Ahead::Choose {
                kernel,
                branches,
                ..
            } => Next::Acts(Act::Choose { kernel, branches }),
            Ahead::Run { kernel, .. } => Next::Acts(Act::Run { kernel }),
            Ahead::Send { to, label, .. } => Next::Acts(Act::Send { to, label }),
            Ahead::Recv { from, label, .. } => Next::Acts(Act::Recv { from, label }),
            Ahead::Join { call, .. } => Next::Acts(entry(call)),
            Ahead::Leave { .. } => Next::Acts(Act::Leave),
            Ahead::Probe { from, .. } => self.unless_lost(Next::Waits { from }),
        }
    }

    /// Keeps what is next from here, found by a walk from the tree's root.
    #[tactic(auto, using(crate::proofs::Phases::joined_is, crate::proofs::Phases::misled_is, pb_machine_next::proofs::Breadths::tree_narrow))]
    fn look(&mut self, tree: &CTree)
        requires tree { IsTree tree.now }
        requires placed { IsPlaced tree.now self.old }
        ensures moves { move_by (body_of tree.now) (path_of self.old) self.old.state.me self.old.state.i self.new.state.ahead ≡ move_shown (program_of tree.now.local) (param_of self.old) (shown tree.now self.old) }
        ensures safe { IsSafe self.old.depth (height_all (body_of tree.now)) self.new.state.ahead }
        ensures me { self.new.state.me ≡ self.old.state.me }
        ensures i { self.new.state.i ≡ self.old.state.i }
        ensures others { self.new ≡ record self.old { state = self.new.state } }
    {
        match self.phase {
            Phase::Going => self.state.look(
                &tree.local.body,
                &tree.places,
                &self.path[..self.depth],
                self.at,
            ),
            Phase::Joined(call) => self.state.ahead = Ahead::Leave {
                call,
                go: Go::Stay {
                    depth: self.depth,
                    at: self.at,
                },
            },
            Phase::Misled => self.state.ahead = Ahead::Undefined,
        }
    }

    /// Keeps what is next from here, so that the rank fits the tree.
    fn settle(&mut self, tree: &CTree)
        requires tree { IsTree tree.now }
        requires placed { IsPlaced tree.now self.old }
        ensures fits { Fits tree.now self.new }
        ensures shown { shown tree.now self.new ≡ shown tree.now self.old }
        ensures n { param_of self.new ≡ param_of self.old }
    {
        self.look(tree);
    }

    /// What the rank does next, as far as it alone decides it. Takes no memory.
    pub fn next(&self, tree: &CTree) -> Next
        requires tree { IsTree tree.now }
        requires fits { Fits tree.now self.now }
        ensures { result ≡ next_shown (program_of tree.now.local) (param_of self.now) (shown tree.now self.now) }
    {
        self.seen()
    }

    /// The tests of the choice at this place.
    fn tests<'a>(&self, tree: &'a CTree, depth: usize, at: usize) -> &'a [Test]
        requires depth { depth ≤ self.now.depth }
        requires inside { self.now.depth ≤ length self.now.path.items }
        ensures { result.now ≡ tests_at (body_of tree.now) (take depth (path_of self.now)) at }
    {
        tests_at(&tree.local.body, &self.path[..depth], at)
    }

    fn reads(&self, tree: &CTree, tag: u32) -> bool
        requires tree { IsTree tree.now }
        requires placed { IsPlaced tree.now self.now }
        requires moves { move_by (body_of tree.now) (path_of self.now) self.now.state.me self.now.state.i self.now.state.ahead ≡ move_shown (program_of tree.now.local) (param_of self.now) (shown tree.now self.now) }
        requires safe { IsSafe self.now.depth (height_all (body_of tree.now)) self.now.state.ahead }
        ensures { result ≡ takes_by self.now.limit self.now.silent (move_shown (program_of tree.now.local) (param_of self.now) (shown tree.now self.now)) tag }
    {
        match self.state.ahead {
            Ahead::Probe { depth, at, .. } => {
                let tests = self.tests(tree, depth, at);
                self.silent < self.limit
                    && tested(tests, tag, &self.state.me, self.state.i).is_some()
            }
            Ahead::Ended => false,
            Ahead::Undefined => false,
            Ahead::Silent { .. } => false,
            Ahead::Choose { .. } => false,
            Ahead::Run { .. } => false,
            Ahead::Send { .. } => false,
            Ahead::Recv { .. } => false,
            Ahead::Join { .. } => false,
            Ahead::Leave { .. } => false,
        }
    }

    /// Whether the rank waits for a message, and there is a test for this label that holds for it. Takes no memory.
    #[tactic(auto, using(crate::proofs::Views::takes_seen))]
    pub fn takes(&self, tree: &CTree, tag: u32) -> bool
        requires tree { IsTree tree.now }
        requires fits { Fits tree.now self.now }
        ensures { result ≡ takes_shown (program_of tree.now.local) (param_of self.now) (shown tree.now self.now) tag }
    {
        self.reads(tree, tag)
    }

    /// To another place.
    fn go(&mut self, go: Go)
        requires inside { self.old.depth ≤ length self.old.path.items }
        requires room { IsRoom self.old.depth (length self.old.path.items) go }
        ensures goes { (b : Codes) → todo b (path_of self.new) self.new.at ≡ goes b (path_of self.old) go }
        ensures state { self.new.state ≡ self.old.state }
        ensures phase { self.new.phase ≡ self.old.phase }
        ensures silent { self.new.silent ≡ self.old.silent }
        ensures limit { self.new.limit ≡ self.old.limit }
        ensures long { length self.new.path.items ≡ length self.old.path.items }
        ensures inside { self.new.depth ≤ length self.new.path.items }
    {
        match go {
            Go::Stay { depth, at } => {
                self.depth = depth;
                self.at = at;
            }
            Go::Enter { depth, at, part } => {
                self.path[depth] = Step { at, part };
                self.depth = depth + 1;
                self.at = 0;
            }
        }
    }

    /// To another place, in this phase, with this variable and so many silent steps.
    fn arrive(&mut self, phase: Phase, i: i32, silent: u64, go: Go)
        requires inside { self.old.depth ≤ length self.old.path.items }
        requires room { IsRoom self.old.depth (length self.old.path.items) go }
        ensures shown { (tree : CTree) → shown tree self.new ≡ shown_in phase (record { state = rank_of self.old.state.me i (joined phase (goes (body_of tree) (path_of self.old) go)); count = silent }) }
        ensures me { self.new.state.me ≡ self.old.state.me }
        ensures limit { self.new.limit ≡ self.old.limit }
        ensures long { length self.new.path.items ≡ length self.old.path.items }
        ensures inside { self.new.depth ≤ length self.new.path.items }
    {
        self.phase = phase;
        self.state.i = i;
        self.silent = silent;
        self.go(go);
    }

    /// Into the branch that a label tells.
    fn read(&mut self, tests: &[Test], tag: u32, depth: usize, at: usize)
        requires inside { self.old.depth ≤ length self.old.path.items }
        requires room { IsIn self.old.depth (length self.old.path.items) depth }
        requires fewer { self.old.silent < self.old.limit }
        ensures shown { (tree : CTree) → shown tree self.new ≡ read_as (suc self.old.silent) (told_to self.old.state.me self.old.state.i (λ k. goes (body_of tree) (path_of self.old) (Enter depth at k)) (tested tests.now tag self.old.state.me self.old.state.i)) }
        ensures me { self.new.state.me ≡ self.old.state.me }
        ensures limit { self.new.limit ≡ self.old.limit }
        ensures long { length self.new.path.items ≡ length self.old.path.items }
        ensures inside { self.new.depth ≤ length self.new.path.items }
    {
        match tested(tests, tag, &self.state.me, self.state.i) {
            None => self.phase = Phase::Misled,
            Some(branch) => {
                let part = branch as usize;
                let go = Go::Enter { depth, at, part };
                self.arrive(Phase::Going, self.state.i, self.silent + 1, go);
            }
        }
    }

    /// The step that it keeps.
    fn step(&mut self, tree: &CTree, input: Input)
        requires tree { IsTree tree.now }
        requires placed { IsPlaced tree.now self.old }
        requires moves { move_by (body_of tree.now) (path_of self.old) self.old.state.me self.old.state.i self.old.state.ahead ≡ move_shown (program_of tree.now.local) (param_of self.old) (shown tree.now self.old) }
        requires safe { IsSafe self.old.depth (height_all (body_of tree.now)) self.old.state.ahead }
        requires input { IsSome (after self.old.limit self.old.silent input (move_shown (program_of tree.now.local) (param_of self.old) (shown tree.now self.old))) }
        ensures step { after self.old.limit self.old.silent input (move_shown (program_of tree.now.local) (param_of self.old) (shown tree.now self.old)) ≡ Some (shown tree.now self.new) }
        ensures me { self.new.state.me ≡ self.old.state.me }
        ensures limit { self.new.limit ≡ self.old.limit }
        ensures long { length self.new.path.items ≡ length self.old.path.items }
        ensures inside { self.new.depth ≤ length self.new.path.items }
    {
        let i = self.state.i;
        match self.state.ahead {
            Ahead::Ended => {}
            Ahead::Undefined => {}
            Ahead::Silent { i, go } => self.arrive(Phase::Going, i, self.silent + 1, go),
            Ahead::Run { go, .. } => self.arrive(Phase::Going, i, 0, go),
            Ahead::Send { go, .. } => self.arrive(Phase::Going, i, 0, go),
            Ahead::Recv { go, .. } => self.arrive(Phase::Going, i, 0, go),
            Ahead::Leave { go, .. } => self.arrive(Phase::Going, i, 0, go),
            Ahead::Join { call, go } => self.arrive(Phase::Joined(call), i, 0, go),
            Ahead::Choose { depth, at, .. } => {
                if let Input::Answer(branch) = input {
                    let part = branch as usize;
                    self.arrive(Phase::Going, i, 0, Go::Enter { depth, at, part });
                }
            }
            Ahead::Probe { depth, at, .. } => {
                if let Input::Tag(tag) = input {
                    let tests = self.tests(tree, depth, at);
                    self.read(tests, tag, depth, at);
                }
            }
        }
    }

    /// One step with this input: the branch that the kernel chose at a choice, the label of the first message where the
    /// rank waits, and nothing elsewhere. A label for which `takes` is false makes the rank undefined. Takes no memory.
    #[tactic(auto, using(crate::proofs::Views::goes_seen, crate::proofs::Views::step_seen))]
    pub fn advance(&mut self, tree: &CTree, input: Input)
        requires tree { IsTree tree.now }
        requires fits { Fits tree.now self.old }
        requires input { goes_with (next_shown (program_of tree.now.local) (param_of self.old) (shown tree.now self.old)) input ≡ true }
        ensures step { IsStepOf (program_of tree.now.local) (param_of self.old) (shown tree.now self.old) input (shown tree.now self.new) }
        ensures fits { Fits tree.now self.new }
        ensures n { param_of self.new ≡ param_of self.old }
    {
        self.step(tree, input);
        self.settle(tree);
    }
}
