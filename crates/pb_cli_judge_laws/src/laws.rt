ghost use Rattle.pb_cli_judge_laws.specs.Laws.{KeptLogsAreNotRefused, LogsAreRuled};

/// What `run` writes with this answer function, whatever its status, is a log that some steps of the sequential run cover, and each
/// ruling on it is whole or covered; where all was done, it is whole.
pub fn logs_are_ruled<A: Fn(u64, u32, u64) -> u32>(answers: &A)
    ensures { LogsAreRuled (A.post answers.now) }
{
    let _answers = answers;
}

/// To a log that is kept `judge` answers neither `NotCovered` nor `Log`.
pub fn kept_logs_are_not_refused()
    ensures { KeptLogsAreNotRefused }
{}
