ghost use Rattle.std.specs.Prelude.{◌≡◌};

use pb_syntax::{IndexText, LinText, RangeText, RoleText};
use pb_text::Spot;

pub(crate) fn copied_lin(lin: &LinText) -> LinText
    ensures { result ≡ lin.now }
{
    LinText {
        base: lin.base,
        off: lin.off,
        place: lin.place,
    }
}

pub(crate) fn copied_range(range: &RangeText) -> RangeText
    ensures { result ≡ range.now }
{
    RangeText {
        low: copied_lin(&range.low),
        high: copied_lin(&range.high),
    }
}

pub(crate) fn copied_index(index: &IndexText) -> IndexText
    ensures { result ≡ index.now }
{
    match index {
        IndexText::Zero => IndexText::Zero,
        IndexText::At(lin) => IndexText::At(copied_lin(lin)),
        IndexText::Bind(var, range) => IndexText::Bind(*var, copied_range(range)),
    }
}

/// A role with the same rows.
pub(crate) fn role_with(role: Spot, rows: &Option<RangeText>) -> RoleText
    ensures { result ≡ record { role = role; range = rows.now } }
{
    match rows {
        None => RoleText { role, range: None },
        Some(range) => RoleText {
            role,
            range: Some(copied_range(range)),
        },
    }
}
