ghost use Rattle.pb_cread_frame.specs.Steps.{FollowsAll, IsSound};
ghost use Rattle.pb_cread_frame.specs.Laws.{ReadsFronts, AreFrontsThatAreRead, RefusesNoFront, StartsTexts, AreFronts, AreNoFronts};

/// A line of a program's text that keeps its rule is gone along, to where the lines behind it stand.
#[tactic(auto, using(crate::proofs::Follow::follows_all))]
pub fn follows_all()
    ensures { FollowsAll }
{}

/// Each step is a line of some program's text, which keeps its rule.
#[tactic(auto, using(crate::proofs::Sound::is_sound))]
pub fn is_sound()
    ensures { IsSound }
{}

/// The first lines of every program's text are read, as long as they keep their rules.
#[tactic(auto, using(crate::proofs::Folds::reads_fronts))]
pub fn reads_fronts()
    ensures { ReadsFronts }
{}

/// Lines that are read are the first lines of some program's text, and what is ahead may follow them.
#[tactic(auto, using(crate::proofs::Folds::fronts_read))]
pub fn are_fronts_that_are_read()
    ensures { AreFrontsThatAreRead }
{}

/// A line that may not stand behind the lines that were read makes them no first lines of any program's text.
#[tactic(auto, using(crate::proofs::Folds::refuses))]
pub fn refuses_no_front()
    ensures { RefusesNoFront }
{}

/// A program's text is what is ahead of the start, and then its statements and the end of main.
#[tactic(auto, using(crate::proofs::Folds::starts_texts))]
pub fn starts_texts()
    ensures { StartsTexts }
{}

/// Lines that are read begin a spelling.
#[tactic(auto, using(crate::proofs::Fronts::are_fronts))]
pub fn are_fronts()
    ensures { AreFronts }
{}

/// With a line that may not stand behind them they begin none.
#[tactic(auto, using(crate::proofs::Fronts::are_no_fronts))]
pub fn are_no_fronts()
    ensures { AreNoFronts }
{}
