ghost use Rattle.pb_judge.specs.Laws.{ReadLogsHaveRanks};

/// Each entry of a log that was read is of one of its ranks.
pub fn read_logs_have_ranks()
    ensures { ReadLogsHaveRanks }
{}
