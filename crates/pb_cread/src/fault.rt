use pb_ctree::{Bodies, CTree, NoMemory};
use pb_text::Place;
use thiserror::Error;

/// A C tree with the bodies of its kernels.
#[derive(Drop)]
pub struct CText {
    pub tree: CTree,
    pub bodies: Bodies,
}

/// Why bytes are no C text that is read. The earliest line counts, and at one line the earlier variant. Places have the
/// column 1.
#[derive(Clone, Copy, Debug, PartialEq, Eq, Error)]
pub enum TextFault {
    /// The first line such that no spelling begins with the lines up to it, or the line after the last where the text
    /// ends too early. A line without a line feed begins none.
    #[error("Unexpected")]
    Unexpected(Place),
    /// The line behind which more than 256 braces of `main` are open, its own with them.
    #[error("TooDeep")]
    TooDeep(Place),
    /// The first line of statement 50,001.
    #[error("TooMany")]
    TooMany(Place),
    /// Memory ran out.
    #[error("NoMemory")]
    NoMemory,
}

impl From<NoMemory> for TextFault {
    ghost use Rattle.std.specs.Prelude.{◌≡◌};
    ghost use Rattle.pb_cread.specs.declared.fault.TextFault.TheVariants.{NoMemory};

    ghost from_gives = { λ _ e. e ≡ NoMemory };

    fn from(_error: NoMemory) -> TextFault {
        TextFault::NoMemory
    }
}
