ghost use Rattle.std.specs.Prelude.{◌≡◌, ℤ, ◌≤ℤ◌, ◌<ℤ◌, ◌+ℤ◌, pos, negsuc, IfOk};
ghost use Rattle.pb_cost_pieces.specs.Lines.{along, value_at, IsStep, IsTame, AreSoFar, AreStretches};
ghost use Rattle.pb_cost_pieces.specs.Building.{Adds, IsTurned};

use crate::longer::{line_behind, number_behind, with_number, with_slope};
use crate::stretch::Stretch;
use pb_text::NoMemory;
use std::alloc::Global;

/// The stretches of a function as far as it is known. Each but the latest goes as far as it can.
#[derive(Drop)]
pub struct Builder {
    pub done: Vec<Stretch>,
    pub latest: Stretch,
}

impl Builder {
    /// The function at its first number alone.
    pub fn begin(alloc: Global, from: i64, value: i64) -> Builder
        requires from_low { pos 0 ≤ℤ from }
        requires from_high { from ≤ℤ pos 900000000000 }
        requires low { pos 0 ≤ℤ value }
        requires high { value ≤ℤ pos 4000000000000000000 }
        ensures to { result.latest.to ≡ from }
        ensures value { value_at result.latest result.latest.to ≡ value }
        ensures is { (f : ℤ → ℤ) → f from ≡ value → AreSoFar f from result.done.items result.latest }
    {
        let latest = Stretch::new(from, from, value, 0);
        Builder {
            done: Vec::new(alloc),
            latest,
        }
    }

    /// The next numbers, up to `to`, on the line that starts with `start` and has this slope.
    pub fn add(&mut self, to: i64, start: i64, slope: i64) -> Result<(), NoMemory>
        requires more { self.old.latest.to <ℤ to }
        requires room { to ≤ℤ pos 900000000000 }
        requires step { IsStep (pos 4100000) (value_at self.old.latest self.old.latest.to) start }
        requires tame { IsTame (pos 4100000) (pos 4000000000000000000) (along start slope (self.old.latest.to +ℤ pos 1)) (self.old.latest.to +ℤ pos 1) to }
        ensures to { IfOk result (λ _. self.new.latest.to ≡ to) }
        ensures last { IfOk result (λ _. value_at self.new.latest self.new.latest.to ≡ along start slope (self.old.latest.to +ℤ pos 1) to) }
        ensures adds { IfOk result (λ _. Adds (along start slope (self.old.latest.to +ℤ pos 1)) self.old.done.items self.old.latest self.new.done.items self.new.latest) }
    {
        self.add_number(start)?;
        if self.latest.to < to {
            self.add_line(to, slope)?;
        }
        Ok(())
    }

    /// The next number.
    fn add_number(&mut self, value: i64) -> Result<(), NoMemory>
        requires room { self.old.latest.to <ℤ pos 900000000000 }
        requires step { IsStep (pos 4100000) (value_at self.old.latest self.old.latest.to) value }
        requires low { pos 0 ≤ℤ value }
        requires high { value ≤ℤ pos 4000000000000000000 }
        ensures to { IfOk result (λ _. self.new.latest.to ≡ self.old.latest.to +ℤ pos 1) }
        ensures last { IfOk result (λ _. value_at self.new.latest self.new.latest.to ≡ value) }
        ensures adds { IfOk result (λ _. Adds (λ n. value) self.old.done.items self.old.latest self.new.done.items self.new.latest) }
    {
        let latest = self.latest;
        match with_number(&latest, value) {
            Some(longer) => {
                self.latest = longer;
                Ok(())
            }
            None => {
                let next = number_behind(&latest, value);
                self.turn(next)
            }
        }
    }

    /// The next numbers, up to `to`, on the line with this slope through the latest number.
    fn add_line(&mut self, to: i64, slope: i64) -> Result<(), NoMemory>
        requires more { self.old.latest.to <ℤ to }
        requires room { to ≤ℤ pos 900000000000 }
        requires slope_low { negsuc 4099999 ≤ℤ slope }
        requires slope_high { slope ≤ℤ pos 4100000 }
        requires low { pos 0 ≤ℤ (value_at self.old.latest self.old.latest.to +ℤ slope) }
        requires high { (value_at self.old.latest self.old.latest.to +ℤ slope) ≤ℤ pos 4000000000000000000 }
        ensures to { IfOk result (λ _. self.new.latest.to ≡ to) }
        ensures last { IfOk result (λ _. value_at self.new.latest self.new.latest.to ≡ along (value_at self.old.latest self.old.latest.to) slope self.old.latest.to to) }
        ensures adds { IfOk result (λ _. Adds (along (value_at self.old.latest self.old.latest.to) slope self.old.latest.to) self.old.done.items self.old.latest self.new.done.items self.new.latest) }
    {
        let latest = self.latest;
        match with_slope(&latest, to, slope) {
            Some(longer) => {
                self.latest = longer;
                Ok(())
            }
            None => {
                let next = line_behind(&latest, to, slope);
                self.turn(next)
            }
        }
    }

    /// The latest stretch ends, and this one begins.
    fn turn(&mut self, next: Stretch) -> Result<(), NoMemory>
        ensures { IfOk result (λ _. IsTurned self.old.done.items self.old.latest next self.new.done.items self.new.latest) }
    {
        self.done.push(self.latest)?;
        self.latest = next;
        Ok(())
    }

    /// All stretches, where the latest one reaches the last number.
    #[tactic(auto, using(crate::proofs::Begin::all_stretches))]
    pub fn finish(self) -> Result<Vec<Stretch>, NoMemory>
        ensures { (f : ℤ → ℤ) (from : ℤ) → AreSoFar f from self.done.items self.latest → IfOk result (λ list. AreStretches f self.latest.to from list.items) }
    {
        let mut list = self.done;
        list.push(self.latest)?;
        Ok(list)
    }
}
