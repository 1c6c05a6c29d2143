ghost use Rattle.std.specs.Prelude.{◌≡◌};

/// How a call of the program ended. Its code is the exit status.
#[derive(Clone, Copy, PartialEq, Eq)]
pub enum Status {
    /// 0: all was written.
    Done,
    /// 1: the protocol breaks the grammar or a rule.
    Refused,
    /// 2: the words are in no form.
    Usage,
    /// 3: a file can't be read.
    ReadFault,
    /// 4: the output can't be written. Some first bytes of what belongs there were.
    WriteFault,
    /// 5: a quantity has passed its limit.
    Limit,
    /// 6: memory ran out.
    NoMemory,
    /// 7: the kernel file is malformed or doesn't fit.
    Kernel,
    /// 8: the text isn't one that the program prints.
    Text,
    /// 9: the schedule is malformed or names a rank that has no step.
    Schedule,
    /// 10: some rank hasn't ended, and none has a step.
    Stuck,
    /// 11: all events were made, and some rank has a step.
    Turns,
    /// 12: N is outside the protocol's range.
    OutOfRange,
    /// 14: a call of a subprotocol, or a subprotocol, is wrong.
    CallFault = 14,
    /// 15: a strip, or an end of one, is wrong.
    StripFault,
    /// 16: the protocol has a loop, so what it sends isn't bounded.
    CostFault,
    /// 17: the log isn't one of the protocol's.
    NotCovered,
    /// 18: the log is malformed.
    Log,
}

impl Status {
    ghost use Rattle.pb_cli_status.specs.Codes.{code_of};

    /// The number with which the program ends: from 0 to 12, or from 14 to 18. Takes no memory.
    pub fn code(self) -> u8
        ensures { result ≡ code_of self }
    {
        self as u8
    }
}
