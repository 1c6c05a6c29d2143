ghost use Rattle.std.specs.Prelude.{◌≡◌, ℕ, ◌<◌, ◌↔◌, IsTrue, length, slice_set};
ghost use Rattle.pb_world.specs.World.{CanStep};
ghost use Rattle.pb_local.specs.Family.{Sequence, family};
ghost use Rattle.pb_sim_collectives.specs.declared.call.Call.{Call};
ghost use Rattle.pb_machine.specs.declared.act.Act.TheVariants as A;
ghost use Rattle.pb_machine.specs.declared.act.Next.TheVariants.{Acts, Waits};
ghost use Rattle.pb_sim_world.specs.States.{program, total_of, stand, next_at, state_at};
ghost use Rattle.pb_sim_world.specs.Worlds.{world_of};
ghost use Rattle.pb_sim_world.specs.Can.{can, can_act, can_read, can_leave, has_needed, undefined_by, is_undefined};
ghost use Rattle.pb_sim_world.specs.Sound.{IsState};

use crate::stand::Stand;
use pb_chan::Channels;
use pb_machine::{Act, CTree, Next, Rank};
use pb_sim_collectives::{Call, Joins};
use pb_text::Mode;

/// All ranks with their channels and collectives.
#[derive(Drop)]
pub struct State {
    pub tree: CTree,
    /// The number N.
    pub n: i64,
    pub ranks: Vec<Rank>,
    /// What is kept of each rank besides.
    pub stands: Vec<Stand>,
    pub channels: Channels,
    pub joins: Joins,
}

impl State {
    /// What is kept of a rank besides its machine.
    pub fn kept_of(&self, rank: u32) -> Stand
        requires { rank < length self.now.stands.items }
        ensures { result ≡ stand self.now rank }
    {
        self.stands[rank as usize]
    }

    /// From now on this is kept of a rank.
    pub fn keep(&mut self, rank: u32, new: Stand)
        requires { rank < length self.old.stands.items }
        ensures stands { self.new.stands.items ≡ slice_set self.old.stands.items rank new }
        ensures tree { self.new.tree ≡ self.old.tree }
        ensures n { self.new.n ≡ self.old.n }
        ensures ranks { self.new.ranks ≡ self.old.ranks }
        ensures channels { self.new.channels ≡ self.old.channels }
        ensures joins { self.new.joins ≡ self.old.joins }
    {
        self.stands[rank as usize] = new;
    }

    /// What a rank does next, as far as it alone decides it.
    pub fn next(&self, rank: u32) -> Next
        requires sound { IsState self.now }
        requires there { rank < total_of self.now }
        ensures { result ≡ next_at self.now rank }
    {
        self.ranks[rank as usize].next(&self.tree)
    }

    /// Whether the rank has a test for the first message from `from`.
    fn can_read(&self, rank: u32, from: u32) -> bool
        requires sound { IsState self.now }
        requires there { rank < total_of self.now }
        requires waits { next_at self.now rank ≡ Waits from }
        ensures { result ≡ can_read self.now rank (state_at self.now rank) from }
    {
        match self.channels.head(from, rank) {
            None => false,
            Some(label) => self.ranks[rank as usize].takes(&self.tree, label),
        }
    }

    /// Whether all have entered that a rank needs to leave its collective with this number.
    fn has_needed(&self, rank: u32, call: Call, k: usize) -> bool
        ensures { result ≡ has_needed self.now.joins rank k call }
    {
        match call {
            Call::Barrier => self.joins.all_entered(k),
            Call::Broadcast { root, .. } => self.joins.has_entered(root, k),
            Call::Reduce { root, .. } => rank != root || self.joins.all_entered(k),
            Call::Allreduce { .. } => self.joins.all_entered(k),
        }
    }

    /// Whether a rank may leave the collective that it is in.
    fn can_leave(&self, rank: u32) -> bool
        requires sound { IsState self.now }
        requires there { rank < total_of self.now }
        ensures { result ≡ can_leave self.now rank }
    {
        let stand = &self.stands[rank as usize];
        match self.joins.call(stand.left) {
            None => false,
            Some(call) => match stand.mode {
                Mode::Waiting => self.joins.all_entered(stand.left),
                Mode::Eager => self.has_needed(rank, call, stand.left),
            },
        }
    }

    fn can_act(&self, rank: u32, act: Act) -> bool
        requires sound { IsState self.now }
        requires there { rank < total_of self.now }
        ensures { result ≡ can_act self.now rank act }
    {
        match act {
            Act::Choose { branches, .. } => 0 < branches,
            Act::Run { .. } => true,
            Act::Send { .. } => true,
            Act::Recv { from, label } => self.channels.first(from, rank, label).is_some(),
            Act::Enter { what, root, op } => self.joins.agrees(rank, Call::of(what, root, op)),
            Act::Leave => self.can_leave(rank),
        }
    }

    /// Whether the rank has a step. It looks at the rank's own state, at one list, and at one collective. Exactly where it has
    /// one, the world has an event of this rank. The same as `can_go`, with the clause `event`.
    pub fn can(&self, rank: u32) -> bool
        requires sound { IsState self.now }
        requires there { rank < total_of self.now }
        ensures is { result ≡ can self.now rank }
        ensures event { (sequence : Sequence) → IsTrue result ↔ CanStep (family (program self.now) self.now.n sequence) (world_of self.now) rank }
    {
        self.can_go(rank)
    }

    fn can_go(&self, rank: u32) -> bool
        requires sound { IsState self.now }
        requires there { rank < total_of self.now }
        ensures { result ≡ can self.now rank }
    {
        if self.stands[rank as usize].waits.is_some() {
            return false;
        }
        match self.next(rank) {
            Next::Silent => true,
            Next::Acts(act) => self.can_act(rank, act),
            Next::Waits { from } => self.can_read(rank, from),
            Next::Ended => false,
            Next::Lost => false,
            Next::Undefined => false,
        }
    }

    /// Whether a rank can't go on in any way: by itself, by the first label where it waits for one, or by the collective that
    /// another rank has entered. The same as `undefined_by`, with the clause that a choice has a branch.
    pub fn is_undefined(&self, rank: u32) -> bool
        requires sound { IsState self.now }
        requires there { rank < total_of self.now }
        ensures is { result ≡ is_undefined self.now rank }
        ensures some { (kernel branches : ℕ) → next_at self.now rank ≡ Acts (A.Choose kernel branches) → 0 < branches }
    {
        self.undefined_by(rank, self.next(rank))
    }

    /// Whether a rank can't go on with what is next.
    fn undefined_by(&self, rank: u32, next: Next) -> bool
        requires sound { IsState self.now }
        requires there { rank < total_of self.now }
        requires is { next ≡ next_at self.now rank }
        ensures { result ≡ undefined_by self.now rank next }
    {
        match next {
            Next::Undefined => true,
            Next::Waits { from } => {
                self.channels.head(from, rank).is_some() && !self.can_read(rank, from)
            }
            Next::Acts(Act::Enter { what, root, op }) => {
                !self.joins.agrees(rank, Call::of(what, root, op))
            }
            Next::Acts(Act::Choose { .. }) => false,
            Next::Acts(Act::Run { .. }) => false,
            Next::Acts(Act::Send { .. }) => false,
            Next::Acts(Act::Recv { .. }) => false,
            Next::Acts(Act::Leave) => false,
            Next::Silent => false,
            Next::Ended => false,
            Next::Lost => false,
        }
    }
}
