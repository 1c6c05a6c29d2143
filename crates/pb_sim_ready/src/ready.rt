ghost use Rattle.std.specs.Prelude.{◌≡◌, ◌<◌, ℕ, Bool, false, IfOk};
ghost use Rattle.pb_sim_ready.specs.Kept.{put};
ghost use Rattle.pb_sim_ready.specs.Listed.{Lists};

use crate::place::mark;
use pb_text::NoMemory;
use std::alloc::Global;
use std::marker::Model;

/// Of the numbers below a total, those that are ready.
#[derive(Drop)]
pub struct Ready {
    list: Vec<u32>,
    /// Whether each number is listed.
    marks: Vec<bool>,
    total: u32,
}

impl Model for Ready {
    ghost use Rattle.std.specs.Prelude.{◌≤◌, vec_capacity};
    ghost use Rattle.pb_sim_ready.specs.Listed.{Listed, IsListed};

    ghost Value = { Listed };

    ghost view = { λ a. record { total = a.total; list = a.list.items } };

    ghost invariant = { λ a. IsListed a.marks.items (record { total = a.total; list = a.list.items }) × (a.total ≤ vec_capacity a.list) };
}

impl Ready {
    /// None of so many numbers is ready. It takes all the memory that the list will need.
    pub fn new(alloc: Global, total: u32) -> Result<Ready, NoMemory>
        ensures total { IfOk result (λ x. x.total ≡ total) }
        ensures none { IfOk result (λ x. Lists x (λ k. false)) }
    {
        let list = Vec::with_capacity(alloc, total as usize)?;
        let marks = vec![in alloc; false; total as usize]?;
        Ok(Ready { list, marks, total })
    }

    /// The numbers that are ready, ascending. Takes no memory.
    pub fn list(&self) -> &[u32]
        ensures { result.now ≡ self.now.list }
    {
        &self.list
    }

    /// Whether the number is ready. Takes no memory.
    pub fn has(&self, number: u32) -> bool
        requires { number < self.now.total }
        ensures { (f : ℕ → Bool) → Lists self.now f → result ≡ f number }
    {
        self.marks[number as usize]
    }

    /// Whether this number is ready from now on; the others stay as they were. Takes no memory.
    pub fn set(&mut self, number: u32, ready: bool)
        requires { number < self.old.total }
        ensures total { self.new.total ≡ self.old.total }
        ensures set { (f : ℕ → Bool) → Lists self.old f → Lists self.new (put f number ready) }
    {
        if self.marks[number as usize] != ready {
            self.marks[number as usize] = ready;
            mark(&mut self.list, self.total, number, ready);
        }
    }
}
