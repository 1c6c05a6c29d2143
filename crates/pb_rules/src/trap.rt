ghost use Rattle.std.specs.Prelude.{◌≡◌};

use crate::fault::At;
use crate::found::Found;
use crate::line::Line;
use crate::span::Span;
use pb_core_language::Place;

/// A role with an index that may move with N.
#[derive(Clone, Copy)]
pub struct Moving {
    pub role: u32,
    pub index: Line,
}

/// A breach at each N of a span.
#[derive(Clone, Copy)]
pub struct Trap {
    pub rule: u8,
    /// Of the place, by which places are in order.
    pub number: u64,
    pub place: Place,
    pub at: Option<Moving>,
    pub span: Span,
}

impl Trap {
    ghost use Rattle.pb_rules.specs.Traps.{first_found, IsFair};

    /// The breach at the least N.
    pub fn first(&self) -> Option<Found>
        requires { IsFair self.now }
        ensures { result ≡ first_found self.now }
    {
        match self.span.first() {
            None => None,
            Some(n) => Some(Found {
                rule: self.rule,
                number: self.number,
                place: self.place,
                n,
                at: at_n(self.at, n),
            }),
        }
    }
}

ghost use Rattle.pb_affine.specs.Values.{IsNear};
ghost use Rattle.pb_rules.specs.Traps.{at_n, IsShortIf};

fn at_n(at: Option<Moving>, n: i64) -> Option<At>
    requires near { IsNear n }
    requires short { IsShortIf at }
    ensures { result ≡ at_n at n }
{
    match at {
        None => None,
        Some(moving) => Some(At {
            role: moving.role,
            index: moving.index.value(n),
        }),
    }
}
