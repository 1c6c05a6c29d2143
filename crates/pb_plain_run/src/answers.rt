ghost use Rattle.std.specs.Prelude.{◌≡◌, ◌==◌, [], ◌∷◌, length, map, replicate, IfOk};
ghost use Rattle.pb_world.specs.Sequencer.{behind_first, first_or};
ghost use Rattle.pb_plain_run.specs.Used.{branch_used, words_used};
ghost use Rattle.pb_plain_run.specs.View.{table_of, left_of, left_table};

use pb_text::{NoMemory, Words};
use std::alloc::Global;

/// The answers of one rank's kernels, in order: the branches of its choices, and the words of its sends and of those
/// entries into collectives in which it makes words.
#[derive(Drop)]
pub struct Answers {
    pub branches: Vec<u32>,
    pub words: Vec<Words>,
}

/// The answers of a rank that aren't used up yet.
#[derive(Clone, Copy)]
pub struct Left<'a> {
    pub branches: &'a [u32],
    pub words: &'a [Words],
}

/// The answers that are left, of the ranks from rank 0 on. A rank behind them has none.
#[derive(Drop)]
pub struct Remaining<'a> {
    pub ranks: Vec<Left<'a>>,
}

impl<'a> Remaining<'a> {
    ghost use Rattle.pb_plain_run.specs.View.{remaining};

    /// The rank's first branch is used up, whether it counted or not.
    pub fn use_branch(&mut self, rank: u64)
        ensures { remaining self.new ≡ branch_used rank (remaining self.old) }
    {
        use_branch(&mut self.ranks, rank);
    }

    /// The rank's first words are used up, whether they counted or not.
    pub fn use_words(&mut self, rank: u64)
        ensures { remaining self.new ≡ words_used rank (remaining self.old) }
    {
        use_words(&mut self.ranks, rank);
    }

    /// The branches that a rank has left.
    pub fn branches(&self, rank: u64) -> &[u32]
        ensures { result.now ≡ (remaining self.now rank).branches }
    {
        left_at(&self.ranks, rank).branches
    }

    /// The first words of a rank where there are as many as wanted, else zeros.
    pub fn made(&self, alloc: Global, rank: u64, size: u32) -> Result<Words, NoMemory>
        ensures { IfOk result (λ v. v ≡ first_or (remaining self.now rank).words (λ ws. length ws == size) (replicate size 0)) }
    {
        made(alloc, &self.ranks, rank, size)
    }
}

/// All answers, for the ranks from rank 0 on.
pub fn all_left<'a>(alloc: Global, answers: &'a [Answers]) -> Result<Remaining<'a>, NoMemory>
    ensures { IfOk result (λ v. left_table v.ranks.items ≡ table_of answers.now) }
{
    let mut ranks = Vec::new(alloc);
    for rank in answers {
        ranks.push(Left {
            branches: &rank.branches,
            words: &rank.words,
        })?;
    }
    Ok(Remaining { ranks })
}

/// What a rank has left. A rank behind the list has nothing.
fn left_at<'a>(left: &[Left<'a>], rank: u64) -> Left<'a>
    ensures { left_of result ≡ left_table left.now rank }
{
    let at = rank as usize;
    if at < left.len() {
        left[at]
    } else {
        Left {
            branches: &[],
            words: &[],
        }
    }
}

/// The rank's first branch is used up, whether it counted or not.
fn use_branch<'a>(left: &mut [Left<'a>], rank: u64)
    ensures { left_table left.new ≡ branch_used rank (left_table left.old) }
{
    let at = rank as usize;
    if at < left.len() {
        let before = left[at];
        left[at] = without_branch(before.branches, before.words);
    }
}

/// The rank's first words are used up, whether they counted or not.
fn use_words<'a>(left: &mut [Left<'a>], rank: u64)
    ensures { left_table left.new ≡ words_used rank (left_table left.old) }
{
    let at = rank as usize;
    if at < left.len() {
        let before = left[at];
        left[at] = without_words(before.branches, before.words);
    }
}

fn without_branch<'a>(branches: &'a [u32], words: &'a [Words]) -> Left<'a>
    ensures { left_of result ≡ record { branches = behind_first branches.now; words = words.now } }
{
    Left {
        branches: branches_behind(branches),
        words,
    }
}

fn without_words<'a>(branches: &'a [u32], words: &'a [Words]) -> Left<'a>
    ensures { left_of result ≡ record { branches = branches.now; words = behind_first words.now } }
{
    Left {
        branches,
        words: words_behind(words),
    }
}

fn branches_behind(list: &[u32]) -> &[u32]
    ensures { result.now ≡ behind_first list.now }
{
    match list.split_first() {
        Some((_, rest)) => rest,
        None => list,
    }
}

fn words_behind(list: &[Words]) -> &[Words]
    ensures { result.now ≡ behind_first list.now }
{
    match list.split_first() {
        Some((_, rest)) => rest,
        None => list,
    }
}

/// The first words of a rank where there are as many as wanted, else zeros.
fn made(alloc: Global, left: &[Left], rank: u64, size: u32) -> Result<Words, NoMemory>
    ensures { IfOk result (λ v. v ≡ first_or (left_table left.now rank).words (λ ws. length ws == size) (replicate size 0)) }
{
    match left_at(left, rank).words.first() {
        Some(words) => made_of(alloc, words.list(), size),
        None => zeros(alloc, size),
    }
}

fn made_of(alloc: Global, words: &[u32], size: u32) -> Result<Words, NoMemory>
    ensures { IfOk result (λ v. v ≡ first_or (words.now ∷ []) (λ ws. length ws == size) (replicate size 0)) }
{
    if words.len() == size as usize {
        copied(alloc, words)
    } else {
        zeros(alloc, size)
    }
}

/// The same words once more.
pub fn copied(alloc: Global, words: &[u32]) -> Result<Words, NoMemory>
    ensures { IfOk result (λ v. v ≡ words.now) }
{
    let list = words.iter().copied().collect(alloc)?;
    Ok(Words::of(list))
}

fn zeros(alloc: Global, size: u32) -> Result<Words, NoMemory>
    ensures { IfOk result (λ v. v ≡ replicate size 0) }
{
    let list = vec![in alloc; 0; size as usize]?;
    Ok(Words::of(list))
}
