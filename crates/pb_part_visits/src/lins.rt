ghost use Rattle.std.specs.Prelude.{◌≡◌, ℤ, pos, neg_ℤ, ◌+ℤ◌, true};
ghost use Rattle.pb_affine.specs.declared.lin.Base.TheVariants.{Var};
ghost use Rattle.pb_affine.specs.Values.{shifted, put};
ghost use Rattle.pb_part_visits.specs.Visits.{is_small_off};

use pb_affine::{Base, Lin};
use pb_text::{LEAST_OFFSET, MOST_OFFSET};

/// A lin whose offset may be out of bounds.
#[derive(Clone, Copy)]
struct Wide {
    base: Base,
    off: i64,
}

/// The same lin, where its offset is within 1,000,000 of zero.
#[tactic(auto, using(crate::proofs::Narrowed::zero_is_small, crate::proofs::Meets::off_within))]
fn narrow(wide: Wide) -> Lin
    ensures base { result.base ≡ wide.base }
    ensures off { is_small_off wide.off ≡ true → result.off ≡ wide.off }
    ensures small { is_small_off result.off ≡ true }
{
    if i64::from(LEAST_OFFSET) <= wide.off && wide.off <= i64::from(MOST_OFFSET) {
        Lin {
            base: wide.base,
            off: wide.off as i32,
        }
    } else {
        Lin {
            base: wide.base,
            off: 0,
        }
    }
}

fn wide_next(lin: Lin) -> Wide
    ensures base { result.base ≡ lin.base }
    ensures off { result.off ≡ lin.off +ℤ pos 1 }
{
    Wide {
        base: lin.base,
        off: i64::from(lin.off) + 1,
    }
}

fn wide_moved(lin: Lin, by: Lin) -> Wide
    ensures base { result.base ≡ lin.base }
    ensures off { result.off ≡ lin.off +ℤ by.off }
{
    Wide {
        base: lin.base,
        off: i64::from(lin.off) + i64::from(by.off),
    }
}

fn wide_back(lin: Lin) -> Wide
    ensures base { result.base ≡ Var }
    ensures off { result.off ≡ neg_ℤ lin.off }
{
    Wide {
        base: Base::Var,
        off: -i64::from(lin.off),
    }
}

/// The lin behind this one. Takes no memory.
pub fn next(lin: Lin) -> Lin
    ensures { is_small_off (lin.off +ℤ pos 1) ≡ true → result ≡ shifted lin (pos 1) }
{
    narrow(wide_next(lin))
}

/// The lin with the offset of another added. Takes no memory.
pub fn moved(lin: Lin, by: Lin) -> Lin
    ensures is { is_small_off (lin.off +ℤ by.off) ≡ true → result ≡ shifted lin by.off }
    ensures small { is_small_off result.off ≡ true }
{
    narrow(wide_moved(lin, by))
}

/// The variable, less the offset of the lin. Takes no memory.
pub fn back(lin: Lin) -> Lin
    ensures { is_small_off (neg_ℤ lin.off) ≡ true → result ≡ record { base = Var; off = neg_ℤ lin.off } }
{
    narrow(wide_back(lin))
}

/// The lin with another in the variable's place. Takes no memory.
pub fn put(lin: Lin, by: Lin) -> Lin
    ensures is { is_small_off (by.off +ℤ lin.off) ≡ true → result ≡ put lin by }
    ensures small { is_small_off lin.off ≡ true → is_small_off result.off ≡ true }
{
    match lin.base {
        Base::Fixed => lin,
        Base::Param => lin,
        Base::Var => moved(by, lin),
    }
}
