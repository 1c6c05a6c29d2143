ghost use Rattle.std.specs.Prelude.{◌≡◌, ◌<◌, ◌+◌, ◌^◌, [], ◌∷◌};
ghost use Rattle.pb_world.specs.Actions.{Choose, Run};
ghost use Rattle.pb_machine.specs.declared.act.Act.TheVariants as A;
ghost use Rattle.pb_machine.specs.declared.act.Next.TheVariants.{Acts};
ghost use Rattle.pb_sim_world.specs.States.{stand};
ghost use Rattle.pb_sim_world.specs.Events.{IsEvent, IsOther, MayStep, IsAsked};

use crate::stand::Stand;
use crate::state::State;
use pb_machine::Input;

impl State {
    /// A rank's compute kernel runs.
    pub fn run(&mut self, rank: u32, kernel: u32)
        requires { MayStep self.old rank (Acts (A.Run kernel)) }
        ensures event { IsEvent self.old rank (Run kernel ∷ []) self.new × IsOther self.old rank self.new }
        ensures stands { self.new.stands ≡ self.old.stands }
    {
        self.advance(rank, Input::Plain);
        let _ = kernel;
    }

    /// A rank's kernel chooses this branch.
    pub fn choose(&mut self, rank: u32, kernel: u32, branches: u32, branch: u32)
        requires may { MayStep self.old rank (Acts (A.Choose kernel branches)) }
        requires branch { branch < branches }
        requires asked { (stand self.old rank).asked < 2 ^ 62 }
        ensures event { IsEvent self.old rank (Choose kernel branches branch ∷ []) self.new × IsOther self.old rank self.new }
        ensures asked { IsAsked self.old rank 1 self.new }
    {
        let kept = self.kept_of(rank);
        self.advance(rank, Input::Answer(branch));
        self.keep(
            rank,
            Stand {
                waits: kept.waits,
                left: kept.left,
                mode: kept.mode,
                asked: kept.asked + 1,
            },
        );
    }
}
