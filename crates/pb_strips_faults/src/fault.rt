ghost use Rattle.std.specs.Prelude.{◌≡◌};

use pb_text::{NoMemory, Place};
use thiserror::Error;

/// What is wrong with the strips of a file. The earliest variant counts, with its first place in the order of the file.
#[derive(Clone, Copy, Debug, Error)]
pub enum ColumnFault {
    /// The columns of a strip don't ascend, or go beyond 63. The place is that of the role's name.
    #[error("Width")]
    Width(Place),
    /// An end of a strip has no column, or another end has one. The place is that of the role's name in the end. The first
    /// declaration of a name says what its ends are.
    #[error("Plain")]
    Plain(Place),
    /// The name in a column isn't the variable of the `columns` around. The place is that of the name.
    #[error("Variable")]
    Variable(Place),
    /// In some copy the column of an end is none of its strip's. The place is that of the role's name in the end.
    #[error("Column")]
    Column(Place),
    /// A name of the file is that of a column's role. The place is that of the name.
    #[error("Clash")]
    Clash(Place),
    /// Memory ran out.
    #[error("NoMemory")]
    NoMemory,
}

impl From<NoMemory> for ColumnFault {
    ghost use Rattle.pb_strips_faults.specs.declared.fault.ColumnFault.TheVariants as fault;

    ghost from_gives = { λ _ e. e ≡ fault.NoMemory };

    fn from(_: NoMemory) -> ColumnFault {
        ColumnFault::NoMemory
    }
}
