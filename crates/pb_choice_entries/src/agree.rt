ghost use Rattle.std.specs.Prelude.{◌≡◌, ℕ, ℤ, pos, ◌≤ℤ◌, ◌-ℤ◌, ◌+ℤ◌, ◌&&◌, true, false, MatchOption};
ghost use Rattle.std.specs.Ordering.{int_eq};
ghost use Rattle.pb_affine.specs.Values.{value};
ghost use Rattle.pb_part_areas.specs.Areas.{has, at};
ghost use Rattle.pb_part_visits.specs.Visits.{is_small_off};
ghost use Rattle.pb_choice_entries.specs.Clashes.{IsMeeting, IsAgreement, IsLittle, IsNumber, IsNoNumber};

use pb_affine::{Base, Lin};
use pb_part_areas::Area;
use pb_part_firsts::Source;

/// The part of the area at which two sources are one rank.
pub fn agreement(area: Area, a: Source, b: Source) -> Area
    ensures { IsAgreement area a b result }
{
    if a.role == b.role {
        meeting(area, a.at, b.at)
    } else {
        nothing(area)
    }
}

// The part of the area at which two lins over the own index agree.
fn meeting(area: Area, a: Lin, b: Lin) -> Area
    ensures { IsMeeting area a b result }
{
    match a.base {
        Base::Fixed => fixed_meeting(area, a, b),
        Base::Param => param_meeting(area, a, b),
        Base::Var => own_meeting(area, a, b),
    }
}

fn fixed_meeting(area: Area, a: Lin, b: Lin) -> Area
    requires { a.base ≡ Base.Fixed }
    ensures { IsMeeting area a b result }
{
    match b.base {
        Base::Fixed => if_equal(area, a, b),
        Base::Param => during(area, a, b),
        Base::Var => single(area, a, b),
    }
}

fn param_meeting(area: Area, a: Lin, b: Lin) -> Area
    requires { a.base ≡ Base.Param }
    ensures { IsMeeting area a b result }
{
    match b.base {
        Base::Fixed => during(area, b, a),
        Base::Param => if_equal(area, a, b),
        Base::Var => single(area, a, b),
    }
}

fn own_meeting(area: Area, a: Lin, b: Lin) -> Area
    requires { a.base ≡ Base.Var }
    ensures { IsMeeting area a b result }
{
    match b.base {
        Base::Fixed => single(area, b, a),
        Base::Param => single(area, b, a),
        Base::Var => if_equal(area, a, b),
    }
}

// No part of the area.
fn nothing(area: Area) -> Area
    ensures { (n : ℤ) (role : ℕ) (x : ℤ) → pos 0 ≤ℤ n → has result n role x ≡ false }
{
    Area {
        until: Some(0),
        ..area
    }
}

fn if_equal(area: Area, a: Lin, b: Lin) -> Area
    ensures { (n : ℤ) (role : ℕ) (x : ℤ) → pos 0 ≤ℤ n → has result n role x ≡ has area n role x && int_eq a.off b.off }
{
    if are_equal(a, b) { area } else { nothing(area) }
}

fn are_equal(a: Lin, b: Lin) -> bool
    ensures { result ≡ int_eq a.off b.off }
{
    a.off == b.off
}

fn gap(a: Lin, b: Lin) -> i64
    ensures { result ≡ a.off -ℤ b.off }
{
    i64::from(a.off) - i64::from(b.off)
}

// The part of the area at the N at which the lins meet.
fn during(area: Area, fixed: Lin, param: Lin) -> Area
    ensures { (n : ℤ) (role : ℕ) (x : ℤ) → IsLittle (fixed.off -ℤ param.off) → pos 0 ≤ℤ n → has area n role x ≡ true → has result n role x ≡ int_eq n (fixed.off -ℤ param.off) }
{
    match number_of(fixed, param) {
        None => nothing(area),
        Some(t) => at_number(area, t),
    }
}

#[tactic(auto, using(crate::proofs::Meetings::none_below, crate::proofs::Meetings::none_above))]
fn number_of(fixed: Lin, param: Lin) -> Option<u32>
    ensures { MatchOption result (IsNoNumber (fixed.off -ℤ param.off)) (λ t. IsNumber (fixed.off -ℤ param.off) t) }
{
    let t = gap(fixed, param);
    if t < 0 {
        None
    } else if t > 4_000_000 {
        None
    } else {
        Some(t as u32)
    }
}

fn at_number(area: Area, t: u32) -> Area
    requires { pos t ≤ℤ pos 4000000 }
    ensures { (n : ℤ) (role : ℕ) (x : ℤ) → has area n role x ≡ true → has result n role x ≡ int_eq n (pos t) }
{
    Area {
        from: t,
        until: Some(t + 1),
        ..area
    }
}

// The index whose sum with the offset is the lin.
fn single(area: Area, at: Lin, by: Lin) -> Area
    ensures { (n : ℤ) (role : ℕ) (x : ℤ) → is_small_off at.off ≡ true → is_small_off by.off ≡ true → pos 0 ≤ℤ n → has area n role x ≡ true →
        has result n role x ≡ int_eq (value at n (pos 0)) (x +ℤ by.off) }
{
    Area {
        role: area.role,
        low: low_of(at, by),
        end: end_of(at, by),
        from: 0,
        until: None,
    }
}

fn low_of(at: Lin, by: Lin) -> Lin
    ensures base { result.base ≡ at.base }
    ensures off { IsLittle (at.off -ℤ by.off) → result.off ≡ at.off -ℤ by.off }
{
    let off = narrow(gap(at, by));
    Lin { base: at.base, off }
}

fn end_of(at: Lin, by: Lin) -> Lin
    ensures base { result.base ≡ at.base }
    ensures off { IsLittle (at.off -ℤ by.off +ℤ pos 1) → result.off ≡ at.off -ℤ by.off +ℤ pos 1 }
{
    let off = narrow(next_gap(at, by));
    Lin { base: at.base, off }
}

fn next_gap(a: Lin, b: Lin) -> i64
    ensures { result ≡ a.off -ℤ b.off +ℤ pos 1 }
{
    i64::from(a.off) - i64::from(b.off) + 1
}

fn narrow(off: i64) -> i32
    ensures { IsLittle off → result ≡ off }
{
    if off < -4_000_000 || off > 4_000_000 {
        0
    } else {
        off as i32
    }
}
