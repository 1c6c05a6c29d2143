ghost use Rattle.std.specs.Prelude.{◌≡◌, ◌≤◌, ◌<◌, ◌+◌, ◌^◌, ℕ, ℤ, pos, ◌+ℤ◌, ◌≤ℤ◌, length, true, Some};
ghost use Rattle.pb_diff.specs.Systems.{has_pair, IsWithin};
ghost use Rattle.pb_affine.specs.Values.{value, holds, is_at_least, is_at_most, is_from_on, is_up_to, IsSmall, IsSmallIf, IsSmallGuard};
ghost use Rattle.pb_cases.specs.Breakpoints.{IsInRange};
ghost use Rattle.pb_diff_apart.specs.Terms.{IsTerm, term_value};
ghost use Rattle.pb_diff_apart.specs.Adding.{Adds};

use crate::term::{INDEX, PARAM, Term, number_of, term_of};
use pb_affine::{Guard, Lin, NRange};
use pb_diff::System;

/// Asks that `x` is at most `y`.
pub(crate) fn at_most(system: &mut System, x: Term, y: Term)
    requires vars { system.old.vars ≡ 3 }
    requires room { length system.old.list < 16 }
    requires x { IsTerm x }
    requires y { IsTerm y }
    ensures adds { Adds system.old system.new 1 (λ s. term_value x s ≤ℤ term_value y s) }
    ensures pair { x.variable ≡ 0 → has_pair 0 y.variable system.new.list ≡ true }
{
    system.bound(x.variable, y.variable, y.offset - x.offset);
}

/// Asks that the index is at least the low end, where there is one.
fn from_low_end(system: &mut System, low: Option<Lin>)
    requires vars { system.old.vars ≡ 3 }
    requires room { length system.old.list < 16 }
    requires low { IsSmallIf low }
    ensures { Adds system.old system.new 1 (λ s. is_at_least (s 2) low (s 1) (pos 0) ≡ true) }
{
    if let Some(low) = low {
        at_most(system, term_of(low, 0), INDEX);
    }
}

/// Asks that the index is at most the high end, where there is one.
fn up_to_high_end(system: &mut System, high: Option<Lin>)
    requires vars { system.old.vars ≡ 3 }
    requires room { length system.old.list < 16 }
    requires high { IsSmallIf high }
    ensures { Adds system.old system.new 1 (λ s. is_at_most (s 2) high (s 1) (pos 0) ≡ true) }
{
    if let Some(high) = high {
        at_most(system, INDEX, term_of(high, 0));
    }
}

/// Asks that N is at least the number, where there is one.
fn from_on(system: &mut System, from: Option<u32>)
    requires vars { system.old.vars ≡ 3 }
    requires room { length system.old.list < 16 }
    ensures { Adds system.old system.new 1 (λ s. is_from_on (s 1) from ≡ true) }
{
    if let Some(from) = from {
        at_most(system, number_of(from), PARAM);
    }
}

/// Asks that N is at most the number, where there is one.
fn up_to(system: &mut System, to: Option<u32>)
    requires vars { system.old.vars ≡ 3 }
    requires room { length system.old.list < 16 }
    ensures { Adds system.old system.new 1 (λ s. is_up_to (s 1) to ≡ true) }
{
    if let Some(to) = to {
        at_most(system, PARAM, number_of(to));
    }
}

/// Asks that N is in the range.
pub(crate) fn in_range(system: &mut System, range: NRange)
    requires vars { system.old.vars ≡ 3 }
    requires room { length system.old.list ≤ 14 }
    ensures adds { Adds system.old system.new 2 (λ s. IsInRange range (s 1)) }
    ensures pair { has_pair 0 1 system.new.list ≡ true }
{
    at_most(system, number_of(range.low), PARAM);
    up_to(system, range.high);
}

/// Asks that the guard holds of the rank of its role with the index.
pub(crate) fn under_guard(system: &mut System, guard: &Guard)
    requires vars { system.old.vars ≡ 3 }
    requires room { length system.old.list ≤ 12 }
    requires small { IsSmallGuard guard.now }
    ensures { Adds system.old system.new 4 (λ s. holds guard.now (s 1) (pos 0) guard.now.role (s 2) ≡ true) }
{
    from_low_end(system, guard.low);
    up_to_high_end(system, guard.high);
    from_on(system, guard.from);
    up_to(system, guard.to);
}

/// Asks that the index is at least the low end's value at the least N. This follows from the guard, and is asked for
/// because each variable wants a low bound of its own.
pub(crate) fn from_least(system: &mut System, low: Lin, range: NRange)
    requires vars { system.old.vars ≡ 3 }
    requires room { length system.old.list < 16 }
    requires low { IsSmall low.off }
    ensures adds { Adds system.old system.new 1 (λ s. value low (pos range.low) (pos 0) ≤ℤ s 2) }
    ensures pair { has_pair 0 2 system.new.list ≡ true }
{
    let least = Term {
        variable: 0,
        offset: low.value(i64::from(range.low), 0),
    };
    at_most(system, least, INDEX);
}

/// Asks that `p` is less than `q` at N and the index.
pub(crate) fn below(system: &mut System, p: Lin, q: Lin)
    requires vars { system.old.vars ≡ 3 }
    requires room { length system.old.list < 16 }
    requires p { IsSmall p.off }
    requires q { IsSmall q.off }
    ensures { Adds system.old system.new 1 (λ s. (value p (s 1) (s 2) +ℤ pos 1) ≤ℤ value q (s 1) (s 2)) }
{
    let term = term_of(p, 2);
    let next = Term {
        variable: term.variable,
        offset: term.offset + 1,
    };
    at_most(system, next, term_of(q, 2));
}
