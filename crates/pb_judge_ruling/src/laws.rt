ghost use Rattle.pb_judge_ruling.specs.Laws.{OneRuling, RulingMeans};

/// A log has one ruling at most.
pub fn one_ruling()
    ensures { OneRuling }
{}

/// A log is ruled whole or covered only where some steps of the run cover it, and whole only where it is a whole run; a log
/// that is ruled otherwise is neither.
pub fn ruling_means()
    ensures { RulingMeans }
{}
