ghost use Rattle.pb_judge_follow.specs.Laws.{BreaksRule, CircleRules, EndRules};

/// Where an action of the run isn't the first that its rank has left, the log differs there.
pub fn breaks_rule()
    ensures { BreaksRule }
{}

/// At the end of the run the log goes beyond it, or is whole, or is covered.
pub fn end_rules()
    ensures { EndRules }
{}

/// Where a round of the run uses no entry and begins anew, the log goes beyond the run or is covered.
pub fn circle_rules()
    ensures { CircleRules }
{}
