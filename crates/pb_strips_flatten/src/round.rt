ghost use Rattle.std.specs.Prelude.{◌≡◌, Some};

use std::alloc::Global;

/// Which copy is made: the value of the variable of the `columns` around, if there is one.
#[derive(Clone, Copy)]
pub struct Round {
    pub alloc: Global,
    pub value: Option<u32>,
}

impl Round {
    /// The copy at this value.
    pub(crate) fn at(self, value: u32) -> Round
        ensures { result.value ≡ Some value }
    {
        Round {
            alloc: self.alloc,
            value: Some(value),
        }
    }
}
