use pb_text::{NoMemory, Place};
use std::alloc::AllocFailed;
use thiserror::Error;

/// What is wrong with the calls of a file. The earlier variant counts, with its first place in the order of the file.
#[derive(Clone, Copy, Debug, Error)]
pub enum CallFault {
    /// A subprotocol has the name of an earlier one, or a parameter the name of an earlier one of its list.
    #[error("Twice")]
    Twice(Place),
    /// A call names no subprotocol.
    #[error("Unknown")]
    Unknown(Place),
    /// A call has not as many arguments as its subprotocol has parameters. The place is that of the name in the call.
    #[error("Arity")]
    Arity(Place),
    /// In a subprotocol the role of an end or an argument is no parameter, or a `continue` has no `rec` of its name around
    /// it. In the protocol an argument is no role.
    #[error("Stranger")]
    Stranger(Place),
    /// The subprotocol that a call names reaches, over calls, the one that the call stands in. The place is that of the
    /// name in the call.
    #[error("Cycle")]
    Cycle(Place),
    /// Memory ran out.
    #[error("NoMemory")]
    NoMemory,
}

impl<T: Drop> From<AllocFailed<T>> for CallFault {
    ghost use Rattle.std.specs.Prelude.{◌≡◌};
    ghost use Rattle.pb_do_faults.specs.declared.fault.CallFault.TheVariants.{NoMemory};

    ghost from_gives = { λ _ e. e ≡ NoMemory };

    fn from(_: AllocFailed<T>) -> Self {
        CallFault::NoMemory
    }
}

impl From<NoMemory> for CallFault {
    ghost use Rattle.std.specs.Prelude.{◌≡◌};
    ghost use Rattle.pb_do_faults.specs.declared.fault.CallFault.TheVariants.{NoMemory};

    ghost from_gives = { λ _ e. e ≡ NoMemory };

    fn from(_: NoMemory) -> Self {
        CallFault::NoMemory
    }
}
