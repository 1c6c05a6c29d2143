ghost use Rattle.std.specs.Prelude.{◌≡◌, ◌≤◌, ◌<◌, ℕ, ℤ, pos, negsuc, ◌+ℤ◌, length, true, Some, MatchOption, IsSome, ◌↔◌};
ghost use Rattle.pb_affine.specs.Values.{IsSmall, IsSmallGuard};
ghost use Rattle.pb_cases.specs.Regions.{IsFirst, IsNowhere};
ghost use Rattle.pb_diff.specs.Systems.{IsBoundedBelow, Satisfies};
ghost use Rattle.pb_diff_apart.specs.Apart.{is_apart, is_apart_other, is_below, under, over, IsPlace, lesser};

use crate::facts::{below, from_least, in_range, under_guard};
use pb_affine::{Guard, Lin, NRange};
use pb_cases::Bad;
use pb_diff::System;

/// The system of all that is asked of N and the index.
fn system_of(range: NRange, g: &Guard, low: Lin, h: &Guard, p: Lin, q: Lin) -> System
    requires g { IsSmallGuard g.now }
    requires h { IsSmallGuard h.now }
    requires low { g.now.low ≡ Some low }
    requires p { IsSmall p.off }
    requires q { IsSmall q.off }
    ensures vars { result.vars ≡ 3 }
    ensures bounded { IsBoundedBelow result }
    ensures solutions { (s : ℕ → ℤ) → Satisfies result s ↔ ((s 0 ≡ pos 0) × IsPlace range g.now h.now p q (s 1) (s 2)) }
{
    let mut system = System::new(3);
    in_range(&mut system, range);
    from_least(&mut system, low, range);
    under_guard(&mut system, g);
    under_guard(&mut system, h);
    below(&mut system, p, q);
    system
}

/// The least N, then index, at which both guards, which are of one role, hold of a rank and `p` is less than `q`.
fn first_below(range: NRange, g: &Guard, low: Lin, h: &Guard, p: Lin, q: Lin) -> Option<Bad>
    requires g { IsSmallGuard g.now }
    requires h { IsSmallGuard h.now }
    requires low { g.now.low ≡ Some low }
    requires role { h.now.role ≡ g.now.role }
    requires p { IsSmall p.off }
    requires q { IsSmall q.off }
    ensures { MatchOption result (IsNowhere range (is_below g.now h.now p q)) (λ bad. IsFirst range (is_below g.now h.now p q) bad.n bad.role bad.index) }
{
    let system = system_of(range, g, low, h, p, q);
    match system.least() {
        None => None,
        Some(numbers) => Some(Bad {
            n: numbers[1],
            role: g.role,
            index: numbers[2],
        }),
    }
}

/// The earlier of two answers for one role, by N, then index.
fn lesser(a: Option<Bad>, b: Option<Bad>) -> Option<Bad>
    ensures { result ≡ lesser a b }
{
    match (a, b) {
        (None, other) | (other, None) => other,
        (Some(x), Some(y)) => {
            if x.n < y.n || x.n == y.n && x.index < y.index {
                Some(x)
            } else {
                Some(y)
            }
        }
    }
}

/// The least N of the range, then index, at which both guards hold of a rank and the lins differ, with the rank's index
/// for their variable; None exactly where there is none. Takes no memory.
pub fn first_apart(range: NRange, g: &Guard, h: &Guard, p: Lin, q: Lin) -> Option<Bad>
    requires g { IsSmallGuard g.now }
    requires h { IsSmallGuard h.now }
    requires low { IsSome g.now.low }
    requires p { IsSmall p.off }
    requires q { IsSmall q.off }
    ensures { MatchOption result (IsNowhere range (is_apart g.now h.now p q)) (λ bad. IsFirst range (is_apart g.now h.now p q) bad.n bad.role bad.index) }
{
    match g.low {
        Some(low) if g.role == h.role => {
            let less = first_below(range, g, low, h, p, q);
            let more = first_below(range, g, low, h, q, p);
            lesser(less, more)
        }
        _ => None,
    }
}

/// As `first_apart`, with the guard `g` alone, of the ranks whose index isn't the value of `but` at N; None exactly where
/// there is none. Takes no memory.
pub fn first_apart_other(range: NRange, g: &Guard, but: Lin, p: Lin, q: Lin) -> Option<Bad>
    requires g { IsSmallGuard g.now }
    requires low { IsSome g.now.low }
    requires below { IsSmall (but.off +ℤ negsuc 0) }
    requires above { IsSmall (but.off +ℤ pos 1) }
    requires p { IsSmall p.off }
    requires q { IsSmall q.off }
    ensures { MatchOption result (IsNowhere range (is_apart_other g.now but p q)) (λ bad. IsFirst range (is_apart_other g.now but p q) bad.n bad.role bad.index) }
{
    let under = guard_under(g, but);
    let over = guard_over(g, but);
    let less = first_apart(range, g, &under, p, q);
    let more = first_apart(range, g, &over, p, q);
    lesser(less, more)
}

/// The ranks of the guard's role whose index is below the lin's value.
fn guard_under(g: &Guard, but: Lin) -> Guard
    requires { IsSmall (but.off +ℤ negsuc 0) }
    ensures is { result ≡ under g.now but }
    ensures small { IsSmallGuard result }
{
    let high = but.shift(-1);
    Guard {
        role: g.role,
        low: None,
        high: Some(high),
        from: None,
        to: None,
    }
}

/// The ranks of the guard's role whose index is above the lin's value.
fn guard_over(g: &Guard, but: Lin) -> Guard
    requires { IsSmall (but.off +ℤ pos 1) }
    ensures is { result ≡ over g.now but }
    ensures small { IsSmallGuard result }
{
    let low = but.shift(1);
    Guard {
        role: g.role,
        low: Some(low),
        high: None,
        from: None,
        to: None,
    }
}
