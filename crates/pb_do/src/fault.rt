ghost use Rattle.std.specs.Prelude.{◌≡◌};
ghost use Rattle.pb_do.specs.Inlined.{do_fault, stopped};

use pb_do_faults::CallFault;
use pb_do_inline::Halt;
use pb_text::{NoMemory, Place, Quantity};
use thiserror::Error;

/// Why a file can't be inlined. Of the variants up to `Cycle` the earliest counts, with its first place in the order of the
/// file. `TooMany` comes after these.
#[derive(Clone, Copy, Debug, Error)]
pub enum DoFault {
    /// A subprotocol has the name of an earlier one, or a parameter the name of an earlier one of its list. The place is
    /// that of the later name.
    #[error("Twice")]
    Twice(Place),
    /// A call names no subprotocol. The place is that of the name.
    #[error("Unknown")]
    Unknown(Place),
    /// A call has not as many arguments as its subprotocol has parameters. The place is that of the name in the call.
    #[error("Arity")]
    Arity(Place),
    /// In a subprotocol the role of an end or an argument is no parameter, or a `continue` has no `rec` of its name around
    /// it. In the protocol an argument is no role. The place is that of the name.
    #[error("Stranger")]
    Stranger(Place),
    /// The subprotocol that a call names reaches, over calls, the one that the call stands in. The place is that of the
    /// name in the call.
    #[error("Cycle")]
    Cycle(Place),
    /// `Statements`: statement or call 4,001 of the inlined file, a call counted before its statements. `Nesting`: its brace
    /// 65. The place is that of the statement of the protocol that the excess is or comes from.
    #[error("TooMany")]
    TooMany(Quantity, Place),
    /// Memory ran out.
    #[error("NoMemory")]
    NoMemory,
}

impl From<CallFault> for DoFault {
    ghost from_gives = { λ fault e. e ≡ do_fault fault };

    fn from(fault: CallFault) -> DoFault {
        match fault {
            CallFault::Twice(place) => DoFault::Twice(place),
            CallFault::Unknown(place) => DoFault::Unknown(place),
            CallFault::Arity(place) => DoFault::Arity(place),
            CallFault::Stranger(place) => DoFault::Stranger(place),
            CallFault::Cycle(place) => DoFault::Cycle(place),
            CallFault::NoMemory => DoFault::NoMemory,
        }
    }
}

impl From<NoMemory> for DoFault {
    ghost use Rattle.pb_do.specs.declared.fault.DoFault.TheVariants as fault;

    ghost from_gives = { λ _ e. e ≡ fault.NoMemory };

    fn from(_: NoMemory) -> DoFault {
        DoFault::NoMemory
    }
}

impl From<Halt> for DoFault {
    ghost from_gives = { λ halt e. e ≡ stopped halt };

    fn from(halt: Halt) -> DoFault {
        match halt {
            Halt::TooMany(limit, place) => DoFault::TooMany(limit, place),
            Halt::NoMemory => DoFault::NoMemory,
        }
    }
}
