ghost use Rattle.std.specs.Prelude.{◌≡◌, true, IfOk};
ghost use Rattle.std.specs.List.{All};
ghost use Rattle.pb_affine.specs.Values.{range, value, IsNear};
ghost use Rattle.pb_core_language.specs.Sound.{is_over_n};
ghost use Rattle.pb_plain.specs.Small.{IsTurn};

use crate::NoMemory;
use pb_affine::{Base, Lin};
use std::alloc::Global;

/// The lin's value at N = n, within 2^40 of zero, and with i for the variable, within 2^41 of zero.
pub fn value(lin: Lin, n: i64, i: i64) -> i64
    requires n { IsNear n }
    requires i { IsTurn i }
    ensures { result ≡ value lin n i }
{
    let off = i64::from(lin.off);
    match lin.base {
        Base::Fixed => off,
        Base::Param => off + n,
        Base::Var => off + i,
    }
}

/// The value of an end of a foreach, which has no variable. It lies within 2^41 of zero.
fn bound(lin: Lin, n: i64, i: i64) -> i64
    requires over { is_over_n lin.base ≡ true }
    requires n { IsNear n }
    ensures value { result ≡ value lin n i }
    ensures turn { IsTurn result }
{
    let off = i64::from(lin.off);
    match lin.base {
        Base::Fixed => off,
        Base::Param => off + n,
        Base::Var => i,
    }
}

/// The whole numbers from low to high, ascending.
pub fn range(alloc: Global, low: i64, high: i64) -> Result<Vec<i64>, NoMemory>
    ensures { IfOk result (λ v. v.items ≡ range low high) }
{
    let mut list = Vec::new(alloc);
    let mut x = low;
    while x < high {
        list.push(x)?;
        x += 1;
    }
    if x > high {
        return Ok(list);
    }
    list.push(x)?;
    Ok(list)
}

/// The values of the variable of a foreach with these ends, ascending. Each lies within 2^41 of zero.
pub fn turns(alloc: Global, low: Lin, high: Lin, n: i64, i: i64) -> Result<Vec<i64>, NoMemory>
    requires low { is_over_n low.base ≡ true }
    requires high { is_over_n high.base ≡ true }
    requires n { IsNear n }
    ensures items { IfOk result (λ v. v.items ≡ range (value low n i) (value high n i)) }
    ensures turns { IfOk result (λ v. All IsTurn v.items) }
{
    let first = bound(low, n, i);
    let last = bound(high, n, i);
    range(alloc, first, last)
}
