ghost use Rattle.std.specs.Prelude.{◌≡◌, ℕ, ◌+◌, ◌<◌, ◌≤◌, ◌^◌, IfOk, length, slice_index};

use pb_text::{NoMemory, Words};
use std::alloc::Global;

/// A function that makes the words of all kernels, and its seed.
#[derive(Drop)]
pub struct Answers<A> {
    answer: A,
    seed: u64,
}

impl<A: Fn(u64, u32, u64) -> u32 + Drop> Answers<A> {
    /// The words are what the function answers on this seed, a rank and a count. Takes no memory.
    pub fn new(answer: A, seed: u64) -> Answers<A>
        requires { A.IsAlwaysCallable answer }
        ensures answer { result.answer ≡ answer }
        ensures seed { result.seed ≡ seed }
    {
        Answers { answer, seed }
    }

    /// The word that the function answers on the seed, the rank and the number of words that the rank had asked before.
    /// Takes no memory.
    pub fn word(&self, rank: u32, count: u64) -> u32
        requires { A.IsAlwaysCallable self.now.answer }
        ensures { A.post self.now.answer self.now.seed rank count result }
    {
        (self.answer)(self.seed, rank, count)
    }

    /// So many words in order, from the one with number `first` on.
    pub fn words(
        &self,
        alloc: Global,
        rank: u32,
        first: u64,
        count: u32,
    ) -> Result<Vec<u32>, NoMemory>
        requires callable { A.IsAlwaysCallable self.now.answer }
        requires few { first < 2 ^ 62 }
        ensures long { IfOk result (λ w. length w.items ≡ count) }
        ensures words { IfOk result (λ w. (k : ℕ) → k < count → A.post self.now.answer self.now.seed rank (first + k) (slice_index w.items k)) }
    {
        let mut words = Vec::with_capacity(alloc, count as usize)?;
        for k in 0..count {
            words.push(self.word(rank, first + u64::from(k)))?;
        }
        Ok(words)
    }
}
