use pb_plain_run::{Answers, FullAction, RankAction};
use pb_text::{NoMemory, Words};
use rand_core::Rng;
use rand_pcg::Pcg32;
use std::alloc::Global;

/// Word number `count`, from 0, of the generator PCG-XSH-RR 64/32 with the seed 0 and the rank as its stream.
pub fn word(rank: u64, count: u64) -> u32 {
    let mut generator = Pcg32::new(0, rank);
    generator.advance(count);
    generator.next_u32()
}

/// The kernels of one rank: how many words they have made.
#[derive(Clone, Copy)]
struct Kernels {
    rank: u64,
    count: u64,
}

impl Kernels {
    /// The next word.
    fn next(&mut self) -> u32 {
        let made = word(self.rank, self.count);
        self.count = self.count.saturating_add(1);
        made
    }

    /// The branch that is chosen of so many: the next word modulo their number.
    fn branch(&mut self, branches: u64) -> u32 {
        let made = self.next();
        match u32::try_from(branches) {
            Ok(0) => 0,
            Ok(count) => made % count,
            Err(_) => made,
        }
    }

    /// The next words, so many.
    fn words(&mut self, alloc: Global, size: usize) -> Result<Vec<u32>, NoMemory> {
        let mut list = Vec::new(alloc);
        for _ in 0..size {
            list.push(self.next())?;
        }
        Ok(list)
    }
}

/// The answers of the ranks' kernels so far, and how many words each rank's have made.
#[derive(Drop)]
pub struct Table {
    kernels: Vec<Kernels>,
    answers: Vec<Answers>,
}

impl Table {
    /// No answers yet, of so many ranks.
    pub fn new(alloc: Global, total: usize) -> Result<Table, NoMemory> {
        let mut table = Table {
            kernels: Vec::new(alloc),
            answers: Vec::new(alloc),
        };
        for rank in 0..total {
            table.kernels.push(Kernels {
                rank: rank as u64,
                count: 0,
            })?;
            table.answers.push(Answers {
                branches: Vec::new(alloc),
                words: Vec::new(alloc),
            })?;
        }
        Ok(table)
    }

    /// The answers, for the ranks from rank 0 on.
    pub fn answers(&self) -> &[Answers] {
        &self.answers
    }

    /// Adds the answer that the action asks for, and says how it compares with the action's own.
    pub fn answer(&mut self, alloc: Global, done: &RankAction) -> Result<Likeness, NoMemory> {
        match &done.action {
            FullAction::Choose {
                branches,
                branch,
                ..
            } => self.choose(done.rank, *branches, *branch),
            FullAction::Send { words, .. } => self.make(alloc, done.rank, words.list()),
            FullAction::Enter { words, .. } => {
                if words.list().is_empty() {
                    Ok(Likeness::Same)
                } else {
                    self.make(alloc, done.rank, words.list())
                }
            }
            FullAction::Run { .. } | FullAction::Recv { .. } | FullAction::Leave { .. } => {
                Ok(Likeness::Same)
            }
        }
    }

    fn choose(&mut self, rank: u64, branches: u64, branch: u64) -> Result<Likeness, NoMemory> {
        let at = rank as usize;
        if self.kernels.len() <= at || self.answers.len() <= at {
            return Ok(Likeness::Same);
        }
        let answer = self.kernels[at].branch(branches);
        self.answers[at].branches.push(answer)?;
        if u64::from(answer) == branch {
            Ok(Likeness::Same)
        } else {
            Ok(Likeness::OtherBranch)
        }
    }

    fn make(&mut self, alloc: Global, rank: u64, words: &[u32]) -> Result<Likeness, NoMemory> {
        let at = rank as usize;
        if self.kernels.len() <= at || self.answers.len() <= at {
            return Ok(Likeness::Same);
        }
        let made = self.kernels[at].words(alloc, words.len())?;
        let is_same = made.as_slice() == words;
        self.answers[at].words.push(Words::of(made))?;
        if is_same {
            Ok(Likeness::Same)
        } else {
            Ok(Likeness::OtherWords)
        }
    }
}

/// How an answer compares with that under which a run was made.
#[derive(Clone, Copy)]
pub enum Likeness {
    Same,
    /// The run goes on as it would, with other words.
    OtherWords,
    /// The run goes on otherwise.
    OtherBranch,
}
