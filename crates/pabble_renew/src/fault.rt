ghost use Rattle.std.specs.Prelude.{◌≡◌};
ghost use Rattle.pabble_renew.specs.Endings.{ending_in};
ghost use Rattle.pabble_renew.specs.declared.fault.Fault.TheVariants as fault;

use crate::ending::Ending;
use pb_cli_status::{Refusal, Status};
use pb_renew::Unrenewed;
use pb_text::NoMemory;
use thiserror::Error;

/// Why OUT isn't renewed.
#[derive(Clone, Copy, Debug, Error)]
pub enum Fault {
    /// The words are in no form.
    #[error("Usage")]
    Usage,
    /// FILE is OUT, or one of the files beside it that are written.
    #[error("Written")]
    Written,
    /// Memory ran out.
    #[error("NoMemory")]
    NoMemory,
    /// FILE is there and is no regular file.
    #[error("NoFile")]
    NoFile,
    /// FILE isn't accepted, or can't be read.
    #[error("File")]
    File(Refusal),
    /// OUT can't be renewed.
    #[error("Out")]
    Out(Unrenewed),
}

impl From<NoMemory> for Fault {
    ghost from_gives = { λ _ why. why ≡ fault.NoMemory };

    fn from(_error: NoMemory) -> Fault {
        Fault::NoMemory
    }
}

impl Fault {
    ghost use Rattle.std.specs.Prelude.{◌≡◌};
    ghost use Rattle.pabble_renew.specs.Endings.{ending_of};

    /// How a call with this fault ends. Takes no memory.
    pub fn ending(&self) -> Ending
        ensures { result ≡ ending_of self.now }
    {
        match self {
            Fault::Usage | Fault::Written => Ending::Ended(Status::Usage),
            Fault::NoMemory => Ending::Ended(Status::NoMemory),
            Fault::NoFile => Ending::Ended(Status::ReadFault),
            Fault::File(refusal) => Ending::Ended(refusal.status()),
            Fault::Out(why) => ending_in(*why),
        }
    }
}

/// How a call ends in which OUT can't be renewed.
fn ending_in(why: Unrenewed) -> Ending
    ensures { result ≡ ending_in why }
{
    match why {
        Unrenewed::ReadFault | Unrenewed::NoFile => Ending::Ended(Status::ReadFault),
        Unrenewed::TooLong => Ending::Ended(Status::Limit),
        Unrenewed::NoMemory => Ending::Ended(Status::NoMemory),
        Unrenewed::Indented(_)
        | Unrenewed::Out(_)
        | Unrenewed::Outside(_)
        | Unrenewed::LeftIndented(_)
        | Unrenewed::Left(_) => Ending::Ended(Status::Kernel),
        Unrenewed::Busy | Unrenewed::Changed => Ending::Again,
        Unrenewed::Shared | Unrenewed::Olds | Unrenewed::WriteFault | Unrenewed::Halfway => {
            Ending::Ended(Status::WriteFault)
        }
    }
}
