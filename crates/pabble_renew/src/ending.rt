use pb_cli_status::Status;

/// How a call of the program ended.
#[derive(Clone, Copy, PartialEq, Eq)]
pub enum Ending {
    Ended(Status),
    /// 75: it may be made again, since another one was at work.
    Again,
}

impl Ending {
    ghost use Rattle.std.specs.Prelude.{◌≡◌};
    ghost use Rattle.pabble_renew.specs.Endings.{code_of};

    /// The number with which the program ends. Takes no memory.
    pub fn code(self) -> u8
        ensures { result ≡ code_of self }
    {
        match self {
            Ending::Ended(status) => status.code(),
            Ending::Again => 75,
        }
    }
}
