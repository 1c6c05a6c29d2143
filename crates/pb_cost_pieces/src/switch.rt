ghost use Rattle.std.specs.Prelude.{◌≤ℤ◌};
ghost use Rattle.pb_cost_pieces.specs.declared.join.Join.TheVariants.{Least, Most};
ghost use Rattle.pb_cost_pieces.specs.Switches.{IsSwitch};

use crate::crossing::stays_below;
use crate::ray::Ray;

/// A line for so many numbers, and then another; None where the first one goes on for ever.
#[derive(Clone, Copy)]
pub struct Switch {
    pub kept: Ray,
    pub other: Ray,
    pub steps: Option<u64>,
}

/// The least of two lines.
pub fn least_of(a: Ray, b: Ray) -> Switch
    ensures { IsSwitch Least a b result }
{
    if a.start <= b.start {
        return below(a, b);
    }
    below(b, a)
}

/// The most of two lines.
pub fn most_of(a: Ray, b: Ray) -> Switch
    ensures { IsSwitch Most a b result }
{
    if b.start <= a.start {
        return above(a, b);
    }
    above(b, a)
}

/// The lower line, as long as it isn't above the other.
#[tactic(auto, using(crate::proofs::Switching::below_is))]
fn below(kept: Ray, other: Ray) -> Switch
    requires { kept.start ≤ℤ other.start }
    ensures { IsSwitch Least kept other result }
{
    Switch {
        kept,
        other,
        steps: stays_below(kept, other),
    }
}

/// The upper line, as long as it isn't below the other.
#[tactic(auto, using(crate::proofs::Switching::above_is))]
fn above(kept: Ray, other: Ray) -> Switch
    requires { other.start ≤ℤ kept.start }
    ensures { IsSwitch Most kept other result }
{
    Switch {
        kept,
        other,
        steps: stays_below(other, kept),
    }
}
