use pb_text::Place;
use thiserror::Error;

/// What is wrong with a types file beside a program. The first in the file's order is named, and at one place the first of
/// these.
#[derive(Clone, Copy, Debug, Error)]
pub enum FitFault {
    /// The name of constant 4,097.
    #[error("TooManyConstants")]
    TooManyConstants(Place),
    /// A constant whose name an earlier one has.
    #[error("ConstantTwice")]
    ConstantTwice(Place),
    /// A constant with a name that the program's text declares, or that belongs to C or MPI.
    #[error("NameTaken")]
    NameTaken(Place),
    /// No label of the protocol has this name.
    #[error("UnknownLabel")]
    UnknownLabel(Place),
    /// The label has no payload.
    #[error("NoPayload")]
    NoPayload(Place),
    /// An earlier line is for this label.
    #[error("LabelTwice")]
    LabelTwice(Place),
    /// A type of complex numbers, where the label is reduced by `min` or `max`.
    #[error("Unordered")]
    Unordered(Place),
    /// No constant has the name in brackets.
    #[error("UnknownConstant")]
    UnknownConstant(Place),
    /// A count of 0.
    #[error("ZeroCount")]
    ZeroCount(Place),
    /// More than 1 GiB in a message.
    #[error("TooLarge")]
    TooLarge(Place),
    /// Memory ran out.
    #[error("NoMemory")]
    NoMemory,
}
