ghost use Rattle.std.specs.Prelude.{◌≡◌, ◌+◌, ◌<◌, ◌≤◌, ◌^◌, pos, length, true, IfOk, MatchOption, MatchResult};
ghost use Rattle.std.specs.List.{All};
ghost use Rattle.pb_affine.specs.Values.{is_up_to, IsSmallGuard};
ghost use Rattle.pb_cases.specs.Numbers.{IsNearList};
ghost use Rattle.pb_cases.specs.Breakpoints.{Division, IsDivision, IsCut, Explains};
ghost use Rattle.pb_cases.specs.Bounds.{IsAligned};
ghost use Rattle.pb_cases.specs.Regions.{is_wanted, is_bad, is_meet, IsFirst, IsNowhere};
ghost use Rattle.pb_cases.specs.Search.{IsOfRole};
ghost use Rattle.pb_cases.specs.Roles.{IsSoFar};

use crate::bad::{Bad, earlier};
use crate::breakpoints::breakpoints_of;
use crate::fault::CaseFault;
use crate::region::{Wanted, first_of_role};
use crate::roles::{guards_of, has_role_before};
use pb_affine::{Guard, Lin, NRange};
use pb_text::NoMemory;
use std::alloc::Global;
use std::marker::Model;

/// A range of N, cut at its breakpoints.
#[derive(Drop)]
pub struct Cases {
    range: NRange,
    cuts: Vec<Lin>,
    breakpoints: Vec<i64>,
}

impl Model for Cases {
    ghost Value = { Division };

    ghost view = { λ s. record { range = s.range; cuts = s.cuts.items; breakpoints = s.breakpoints.items } };

    ghost invariant = { λ s. IsDivision (record { range = s.range; cuts = s.cuts.items; breakpoints = s.breakpoints.items }) × IsNearList s.breakpoints.items };
}

impl Cases {
    /// The cases of the range that the cuts make. `TooManyCases` exactly where there are more than 4,096 breakpoints.
    pub fn of(alloc: Global, range: NRange, cuts: &[Lin]) -> Result<Cases, CaseFault>
        requires cuts { All IsCut cuts.now }
        requires some { is_up_to (pos range.low) range.high ≡ true }
        ensures { MatchResult result (λ s. (s.range ≡ range) × (s.cuts ≡ cuts.now) × IsDivision s × (length s.breakpoints ≤ 4096)) (λ e. Explains range cuts.now e) }
    {
        let breakpoints = breakpoints_of(alloc, range, cuts)?;
        let _low = low_of(range);
        let cuts = copy_of(alloc, cuts)?;
        Ok(Cases {
            range,
            cuts,
            breakpoints,
        })
    }

    /// The least N of the range, then role, then index, at which a guard of `inside` holds and none of `outside`; None
    /// exactly where there is none.
    pub fn first_bad(
        &self,
        alloc: Global,
        inside: &[Guard],
        outside: &[Guard],
    ) -> Result<Option<Bad>, NoMemory>
        requires inside { All (IsAligned self.now) inside.now }
        requires outside { All (IsAligned self.now) outside.now }
        requires inside_small { All IsSmallGuard inside.now }
        requires outside_small { All IsSmallGuard outside.now }
        ensures { IfOk result (λ r. MatchOption r (IsNowhere self.now.range (is_bad inside.now outside.now)) (λ bad. IsFirst self.now.range (is_bad inside.now outside.now) bad.n bad.role bad.index)) }
    {
        self.first(alloc, Wanted::FirstAlone, inside, outside)
    }

    /// The least N of the range, then role, then index, at which a guard of each list holds; None exactly where there is
    /// none.
    pub fn first_meet(
        &self,
        alloc: Global,
        a: &[Guard],
        b: &[Guard],
    ) -> Result<Option<Bad>, NoMemory>
        requires a { All (IsAligned self.now) a.now }
        requires b { All (IsAligned self.now) b.now }
        requires a_small { All IsSmallGuard a.now }
        requires b_small { All IsSmallGuard b.now }
        ensures { IfOk result (λ r. MatchOption r (IsNowhere self.now.range (is_meet a.now b.now)) (λ bad. IsFirst self.now.range (is_meet a.now b.now) bad.n bad.role bad.index)) }
    {
        self.first(alloc, Wanted::Both, a, b)
    }

    /// The breakpoints, ascending, each once. Takes no memory.
    pub fn breakpoints(&self) -> &[i64]
        ensures list { result.now ≡ self.now.breakpoints }
        ensures divides { IsDivision self.now }
    {
        &self.breakpoints
    }

    /// The earliest answer of all roles.
    fn first(
        &self,
        alloc: Global,
        wanted: Wanted,
        a: &[Guard],
        b: &[Guard],
    ) -> Result<Option<Bad>, NoMemory>
        requires a { All (IsAligned self.now) a.now }
        requires b { All (IsAligned self.now) b.now }
        requires a_small { All IsSmallGuard a.now }
        requires b_small { All IsSmallGuard b.now }
        ensures { IfOk result (λ r. MatchOption r (IsNowhere self.now.range (is_wanted wanted a.now b.now)) (λ bad. IsFirst self.now.range (is_wanted wanted a.now b.now) bad.n bad.role bad.index)) }
    {
        let mut best = None;
        for i in 0..a.len() {
            best = self.with_role(alloc, wanted, a, b, i, best)?;
        }
        Ok(best)
    }

    /// The earlier of the best so far and the answer for the role of the guard at place `i`.
    fn with_role(
        &self,
        alloc: Global,
        wanted: Wanted,
        a: &[Guard],
        b: &[Guard],
        i: usize,
        best: Option<Bad>,
    ) -> Result<Option<Bad>, NoMemory>
        requires a { All (IsAligned self.now) a.now }
        requires b { All (IsAligned self.now) b.now }
        requires a_small { All IsSmallGuard a.now }
        requires b_small { All IsSmallGuard b.now }
        requires within { i < length a.now }
        requires so_far { IsSoFar self.now.range wanted a.now b.now i best }
        ensures { IfOk result (λ r. IsSoFar self.now.range wanted a.now b.now (i + 1) r) }
    {
        let role = a[i].role;
        if has_role_before(a, i, role) {
            return Ok(best);
        }
        let own_a = guards_of(alloc, a, role)?;
        let own_b = guards_of(alloc, b, role)?;
        let found = self.first_of_one(alloc, wanted, &own_a, &own_b, role)?;
        Ok(earlier(best, found))
    }

    /// The answer for guards of one role.
    fn first_of_one(
        &self,
        alloc: Global,
        wanted: Wanted,
        a: &[Guard],
        b: &[Guard],
        role: u32,
    ) -> Result<Option<Bad>, NoMemory>
        requires a { All (IsAligned self.now) a.now }
        requires b { All (IsAligned self.now) b.now }
        requires a_small { All IsSmallGuard a.now }
        requires b_small { All IsSmallGuard b.now }
        requires a_own { All (IsOfRole role) a.now }
        requires b_own { All (IsOfRole role) b.now }
        ensures { IfOk result (λ r. MatchOption r (IsNowhere self.now.range (is_wanted wanted a.now b.now)) (λ bad. IsFirst self.now.range (is_wanted wanted a.now b.now) bad.n bad.role bad.index)) }
    {
        first_of_role(alloc, &self.breakpoints, wanted, a, b, role)
    }
}

fn copy_of(alloc: Global, cuts: &[Lin]) -> Result<Vec<Lin>, NoMemory>
    ensures { IfOk result (λ v. v.items ≡ cuts.now) }
{
    let mut copy = Vec::new(alloc);
    for cut in cuts {
        copy.push(*cut)?;
    }
    Ok(copy)
}

fn low_of(range: NRange) -> u32
    ensures is { result ≡ range.low }
    ensures fits { result < 2 ^ 32 }
{
    range.low
}
