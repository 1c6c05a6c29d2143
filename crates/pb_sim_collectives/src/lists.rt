ghost use Rattle.std.specs.Prelude.{◌≡◌, ℕ, ◌<◌, ◌≤◌, IfOk, OnOk, OnErr, List, [], ◌∷◌, ◌++◌, map, length, get_or, slice_set, All};
ghost use Rattle.pb_local.specs.Collectives.{operation_of, combine, combined_of};
ghost use Rattle.pb_sim_collectives.specs.Lists.{items_of, starts_of, IsKept, replicated, words_in};

use crate::combine::combine_words;
use crate::window::Window;
use pb_syntax::{Op, Payload};
use pb_text::{NoMemory, Words};
use std::alloc::Global;

/// For each rank the words with which it entered its collectives.
#[derive(Drop)]
pub struct Lists {
    pub list: Vec<Window>,
}

impl Lists {
    /// So many ranks, which have entered none.
    #[tactic(auto, using(crate::proofs::Pushing::one_more_list))]
    pub fn new(alloc: Global, total: u32) -> Result<Lists, NoMemory>
        ensures items { IfOk result (λ x. items_of x ≡ replicated total) }
        ensures kept { IfOk result (λ x. IsKept x 0) }
    {
        let mut list = Vec::new(alloc);
        while list.len() < total as usize {
            list.push(Window::new(alloc))?;
        }
        Ok(Lists { list })
    }

    /// How many collectives a rank has entered.
    pub fn number(&self, rank: u32) -> usize
        ensures { result ≡ length (get_or (items_of self.now) rank []) }
    {
        match self.list.get(rank as usize) {
            None => 0,
            Some(window) => window.number(),
        }
    }

    /// The words with which a rank entered its collective with this number, where none of that are forgotten; none where it
    /// entered no such one.
    pub fn words(&self, rank: usize, k: usize) -> &[u32]
        requires { IsKept self.now k }
        ensures { result.now ≡ words_in (items_of self.now) k rank }
    {
        match self.list.get(rank) {
            None => &[],
            Some(window) => window.words(k),
        }
    }

    /// A copy of them.
    pub fn copied(&self, alloc: Global, rank: u32, k: usize) -> Result<Vec<u32>, NoMemory>
        requires { IsKept self.now k }
        ensures { IfOk result (λ v. v.items ≡ words_in (items_of self.now) k rank) }
    {
        Ok(self.words(rank as usize, k).to_vec(alloc)?)
    }

    /// The words of all ranks, combined from rank 0 on.
    #[tactic(auto, using(crate::proofs::Combining::one_more_rank, crate::proofs::Combining::all_ranks))]
    pub fn combined(
        &self,
        alloc: Global,
        payload: Payload,
        op: Op,
        k: usize,
    ) -> Result<Vec<u32>, NoMemory>
        requires { IsKept self.now k }
        ensures { IfOk result (λ v. v.items ≡ combined_of (combine payload (operation_of op)) (length (items_of self.now)) (words_in (items_of self.now) k)) }
    {
        if self.list.is_empty() {
            return Ok(Vec::new(alloc));
        }
        let mut words = self.words(0, k).to_vec(alloc)?;
        for rank in 1..self.list.len() {
            words = combine_words(alloc, payload, op, &words, self.words(rank, k))?;
        }
        Ok(words)
    }

    /// A rank's words at its next collective. After `NoMemory` all is as before, and the words are given up.
    pub fn push(&mut self, rank: u32, words: Words) -> Result<(), NoMemory>
        requires { rank < length (items_of self.old) }
        ensures ok { OnOk result (items_of self.new ≡ slice_set (items_of self.old) rank (get_or (items_of self.old) rank [] ++ words ∷ [])) }
        ensures err { OnErr result (items_of self.new ≡ items_of self.old) }
        ensures starts { starts_of self.new ≡ starts_of self.old }
    {
        let window = &mut self.list[rank as usize];
        match window.push(words) {
            Ok(()) => Ok(()),
            Err(error) => Err(error),
        }
    }

    /// All words at collectives below this number, which each rank has entered, are forgotten from now on.
    pub fn forget(&mut self, k: usize)
        requires order { IsKept self.old k }
        requires there { (r : ℕ) → r < length (items_of self.old) → k ≤ length (get_or (items_of self.old) r []) }
        ensures items { items_of self.new ≡ items_of self.old }
        ensures starts { All (λ n. n ≡ k) (starts_of self.new) }
    {
        for rank in 0..self.list.len() {
            let window = &mut self.list[rank];
            window.forget(k);
        }
    }
}
