ghost use Rattle.std.specs.Prelude.{◌≡◌, ◌≤◌, ◌<◌, ℤ, pos, ◌≤ℤ◌, true, [], Some, length, All};
ghost use Rattle.pb_affine.specs.Values.{count_of};
ghost use Rattle.pb_local.specs.WellMade.{IsInRange};
ghost use Rattle.pb_local.specs.Family.{text_machine};
ghost use Rattle.pb_ctree.specs.Trees.{IsTree};
ghost use Rattle.pb_chan.specs.Lists.{messages, label_of};
ghost use Rattle.pb_machine.specs.Steps.{goes_with, is_there};
ghost use Rattle.pb_machine.specs.declared.act.Next.TheVariants.{Silent, Waits};
ghost use Rattle.pb_sim_world.specs.States.{program, total_of, next_at, state_at};
ghost use Rattle.pb_sim_world.specs.Sound.{IsRank, IsState};
ghost use Rattle.pb_sim_world.specs.Events.{IsAdvanced, IsEvent, IsOther, MayStep};

use crate::state::State;
use pb_machine::Input;

impl State {
    /// A rank's machine makes one step.
    pub fn advance(&mut self, rank: u32, input: Input)
        requires tree { IsTree self.old.tree }
        requires each { All (IsRank self.old.tree self.old.n) self.old.ranks.items }
        requires there { rank < length self.old.ranks.items }
        requires input { goes_with (next_at self.old rank) input ≡ true }
        ensures tree { self.new.tree ≡ self.old.tree }
        ensures n { self.new.n ≡ self.old.n }
        ensures stands { self.new.stands ≡ self.old.stands }
        ensures channels { self.new.channels ≡ self.old.channels }
        ensures joins { self.new.joins ≡ self.old.joins }
        ensures advanced { IsAdvanced self.old rank input self.new.ranks }
    {
        self.ranks[rank as usize].advance(&self.tree, input);
    }

    /// A silent step of a rank.
    pub fn silent(&mut self, rank: u32)
        requires { MayStep self.old rank Silent }
        ensures event { IsEvent self.old rank [] self.new × IsOther self.old rank self.new }
        ensures stands { self.new.stands ≡ self.old.stands }
    {
        self.advance(rank, Input::Plain);
    }

    /// A rank reads the label of the first message from `from`, for which it has a test.
    pub fn read(&mut self, rank: u32, from: u32, tag: u32)
        requires may { MayStep self.old rank (Waits from) }
        requires head { label_of (messages self.old.channels from rank) ≡ Some tag }
        requires test { is_there ((text_machine (program self.old) self.old.n).read (state_at self.old rank) tag) ≡ true }
        ensures event { IsEvent self.old rank [] self.new × IsOther self.old rank self.new }
        ensures stands { self.new.stands ≡ self.old.stands }
    {
        self.advance(rank, Input::Tag(tag));
    }
}
