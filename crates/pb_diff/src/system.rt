ghost use Rattle.std.specs.Prelude.{◌≡◌, ◌^◌, ◌<◌, ◌≤◌, ◌⊎◌, MatchOption, length, take, [], true};
ghost use Rattle.pb_diff.specs.Systems.{IsWithin, Differences, IsLeastSolution, IsUnsolvable, IsBoundedBelow, IsSystem, with_constraint, has_pair};

use crate::Constraint;
use crate::constraint::put;
use crate::table::{smaller, solved};
use std::marker::Model;

/// A number of variables, of which variable 0 is always 0, and at most 16 constraints on their differences.
#[derive(Drop)]
pub struct System {
    vars: u8,
    count: usize,
    kept: [Constraint; 16],
}

impl Model for System {
    ghost Value = { Differences };

    ghost view = { λ s. record { vars = s.vars; list = take s.count s.kept } };

    ghost invariant = { λ s. (s.count ≤ 16) × IsSystem (record { vars = s.vars; list = take s.count s.kept }) };
}

impl System {
    /// No constraints on `vars` variables, variable 0 counted. Takes no memory.
    pub fn new(vars: u8) -> System
        requires some { 1 ≤ vars }
        requires few { vars ≤ 6 }
        ensures { result ≡ record { vars = vars; list = [] } }
    {
        System {
            vars,
            count: 0,
            kept: [Constraint { a: 0, b: 0, c: 0 }; 16],
        }
    }

    /// Adds `a - b <= c`. A weaker constraint on the same pair is replaced, and a stronger one stays. Takes no memory.
    pub fn bound(&mut self, a: u8, b: u8, c: i64)
        requires a_in { a < self.old.vars }
        requires b_in { b < self.old.vars }
        requires near { IsWithin (2 ^ 40) c }
        requires room { (has_pair a b self.old.list ≡ true) ⊎ (length self.old.list < 16) }
        ensures { self.new ≡ record { vars = self.old.vars; list = with_constraint (record { a = a; b = b; c = c }) self.old.list } }
    {
        self.count = put(&mut self.kept, self.count, Constraint { a, b, c });
    }

    /// The least number of each variable in any solution, with 0 at places that are no variables; None exactly where
    /// no whole numbers satisfy all constraints. Takes no memory.
    pub fn least(&self) -> Option<[i64; 6]>
        requires { IsBoundedBelow self.now }
        ensures { MatchOption result (IsUnsolvable self.now) (λ x. IsLeastSolution self.now x) }
    {
        least_of(&self.kept[..self.count], usize::from(self.vars))
    }
}

/// The least numbers that keep the constraints on the first `vars` variables.
fn least_of(constraints: &[Constraint], vars: usize) -> Option<[i64; 6]>
    requires system { IsSystem (record { vars = vars; list = constraints.now }) }
    requires bounded { IsBoundedBelow (record { vars = vars; list = constraints.now }) }
    ensures { MatchOption result (IsUnsolvable (record { vars = vars; list = constraints.now })) (λ x. IsLeastSolution (record { vars = vars; list = constraints.now }) x) }
{
    let mut table = [None; 36];
    for k in constraints {
        let j = 6 * usize::from(k.a) + usize::from(k.b);
        table[j] = Some(smaller(table[j], k.c));
    }
    solved(&table, vars)
}
