//! Entries in an order in which those whose areas are near stand together.

ghost use Rattle.std.specs.Prelude.{◌≡◌, Bool, true};
ghost use Rattle.std.specs.List.{list_any};
ghost use Rattle.pb_part_firsts.specs.declared.firsts.Entry.{Entry};
ghost use Rattle.pb_part_firsts.specs.Firsts.{are_small};

use pb_affine::{Base, Lin};
use pb_part_areas::Area;
use pb_part_firsts::Entry;

fn is_moving(lin: Lin) -> bool {
    matches!(&lin.base, Base::Param)
}

/// How many binary digits the number of the area's numbers N has, or 32 where there is no greatest N.
fn digits(a: Area) -> u32 {
    match a.until {
        None => 32,
        Some(until) => {
            let many = until.saturating_sub(a.from) | 1;
            31u32.saturating_sub(many.leading_zeros())
        }
    }
}

/// What entries are sorted by: areas of about as many numbers N stand together, of these such with about the same N, and of these
/// such with indices that are near.
fn place_of(entry: &Entry) -> (u32, u32, u32, bool, bool, i64) {
    let a = entry.area;
    let digits = digits(a);
    let low = i64::from(a.low.off);
    if digits == 32 {
        return (a.role, digits, 0, is_moving(a.low), is_moving(a.end), low);
    }
    let at = if is_moving(a.low) {
        low + i64::from(a.from)
    } else {
        low
    };
    (
        a.role,
        digits,
        a.from.wrapping_shr(digits),
        false,
        false,
        at,
    )
}

/// The same entries, those whose areas are near together.
pub(crate) fn in_order(entries: Vec<Entry>) -> Vec<Entry>
    ensures any { (t : Entry → Bool) → list_any t result.items ≡ list_any t entries.items }
    ensures small { are_small entries.items ≡ true → are_small result.items ≡ true }
{
    let mut list = entries;
    list.sort_unstable_by_key(|entry| place_of(entry));
    list
}
