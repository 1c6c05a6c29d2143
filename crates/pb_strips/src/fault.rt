ghost use Rattle.std.specs.Prelude.{◌≡◌};
ghost use Rattle.pb_strips.specs.Stopped.{strip_fault, stopped};

use pb_strips_faults::ColumnFault;
use pb_strips_flatten::Halt;
use pb_text::{Place, Quantity};
use thiserror::Error;

/// Why a file with strips can't be flattened. Of the variants up to `Clash` the earliest counts, with its first place in the
/// order of the file. `TooMany` comes after these.
#[derive(Clone, Copy, Debug, Error)]
pub enum StripFault {
    /// The columns of a strip don't ascend, or go beyond 63. The place is that of the role's name.
    #[error("Width")]
    Width(Place),
    /// An end of a strip has no column, or another end has one. The place is that of the role's name in the end. The first
    /// declaration of a name says what its ends are.
    #[error("Plain")]
    Plain(Place),
    /// The name in a column isn't the variable of the `columns` around. The place is that of the name.
    #[error("Variable")]
    Variable(Place),
    /// In some copy the column of an end is none of its strip's. The place is that of the role's name in the end.
    #[error("Column")]
    Column(Place),
    /// A name of the file is that of a column's role. The place is that of the name.
    #[error("Clash")]
    Clash(Place),
    /// `NameLength`: a strip's name has more than 60 bytes, at that name. `Roles`: role 65 of the flat file, at the name of
    /// the role that it comes from. `Statements`: its statement 4,001, at the statement that it comes from. They count in
    /// this order.
    #[error("TooMany")]
    TooMany(Quantity, Place),
    /// Memory ran out.
    #[error("NoMemory")]
    NoMemory,
}

impl From<ColumnFault> for StripFault {
    ghost from_gives = { λ fault e. e ≡ strip_fault fault };

    fn from(fault: ColumnFault) -> StripFault {
        match fault {
            ColumnFault::Width(place) => StripFault::Width(place),
            ColumnFault::Plain(place) => StripFault::Plain(place),
            ColumnFault::Variable(place) => StripFault::Variable(place),
            ColumnFault::Column(place) => StripFault::Column(place),
            ColumnFault::Clash(place) => StripFault::Clash(place),
            ColumnFault::NoMemory => StripFault::NoMemory,
        }
    }
}

impl From<Halt> for StripFault {
    ghost from_gives = { λ halt e. e ≡ stopped halt };

    fn from(halt: Halt) -> StripFault {
        match halt {
            Halt::TooMany(limit, place) => StripFault::TooMany(limit, place),
            Halt::NoMemory => StripFault::NoMemory,
        }
    }
}
