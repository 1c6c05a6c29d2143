ghost use Rattle.std.specs.Prelude.{◌≡◌, not, ◌&&◌, ◌||◌, nat_le, pos, ◌+ℤ◌};
ghost use Rattle.pb_strips_syntax.specs.Columns.{numbers};
ghost use Rattle.pb_strips_faults.specs.Faults.{is_within, leads_out, values_of, has_copy, base_is_out, is_out};

use crate::site::{Around, EndSite};
use pb_strips_syntax::Col;

fn is_within(ends: &(u32, u32), column: i64) -> bool
    ensures { result ≡ is_within ends.now column }
{
    i64::from(ends.0) <= column && column <= i64::from(ends.1)
}

fn leads_out_at(ends: &(u32, u32), value: &u32, off: &i32) -> bool
    ensures { result ≡ not (is_within ends.now (pos value.now +ℤ off.now)) }
{
    !is_within(ends, i64::from(*value) + i64::from(*off))
}

/// Whether some value of the variable leads out. Takes no memory and looks at two values.
///
/// Of ascending values, all lead to a column exactly where the least and the greatest do.
#[tactic(auto, using(crate::proofs::Ascending::by_ends))]
fn leads_out_among(ends: &(u32, u32), off: &i32, around: &Around) -> bool
    ensures { result ≡ leads_out ends.now off.now (numbers around.now.low around.now.high) }
{
    around.low <= around.high
        && (leads_out_at(ends, &around.low, off) || leads_out_at(ends, &around.high, off))
}

fn leads_out(ends: &(u32, u32), off: &i32, around: &Option<Around>) -> bool
    ensures { result ≡ leads_out ends.now off.now (values_of around.now) }
{
    match around {
        Some(around) => leads_out_among(ends, off, around),
        None => false,
    }
}

fn has_copy(around: &Option<Around>) -> bool
    ensures { result ≡ has_copy around.now }
{
    match around {
        Some(around) => around.low <= around.high,
        None => true,
    }
}

fn number_is_out(ends: &(u32, u32), off: &i32) -> bool
    ensures { result ≡ not (is_within ends.now off.now) }
{
    !is_within(ends, i64::from(*off))
}

fn base_is_out(ends: &(u32, u32), col: &Col, around: &Option<Around>) -> bool
    ensures { result ≡ base_is_out ends.now col.now.off around.now col.now.var }
{
    match &col.var {
        Some(_) => leads_out(ends, &col.off, around),
        None => has_copy(around) && number_is_out(ends, &col.off),
    }
}

/// Whether the column of the end is, in some copy, none of its strip's. Takes no memory.
pub fn is_out(ends: &Option<(u32, u32)>, end: &EndSite) -> bool
    ensures { result ≡ is_out ends.now end.now.col end.now.around }
{
    match (ends, &end.col) {
        (Some(ends), Some(col)) => base_is_out(ends, col, &end.around),
        _ => false,
    }
}
