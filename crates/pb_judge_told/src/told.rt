ghost use Rattle.pb_judge_told.specs.Told.{RunsAreTold};

/// Each action of a run of a well-made text is one that a line of a log may tell, where what its kernels answer fits 32 bits.
pub fn runs_are_told()
    ensures { RunsAreTold }
{}
