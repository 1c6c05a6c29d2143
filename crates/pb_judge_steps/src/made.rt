//! Words that a rank makes, and what its first entry says of them.

ghost use Rattle.std.specs.List.{list_all};
ghost use Rattle.std.specs.Prelude.{◌≡◌, nat_eq, replicate, Some, None, MatchOption};
ghost use Rattle.std.specs.Cmp.Lexicographic.{pointwise};
ghost use Rattle.pb_world.specs.Log.{branch_recorded, words_recorded};
ghost use Rattle.pb_judge_steps.specs.Made.{list_of, is_zero, is_all_zero, sized, made_by, chosen_or};

use pb_text::Action;

/// Words that are given, or so many zeros.
#[derive(Clone, Copy)]
pub enum Made<'a> {
    Given(&'a [u32]),
    Zeros(u32),
}

fn is_zero(word: u32) -> bool
    ensures { result ≡ is_zero word }
{
    word == 0
}

fn all_zero(words: &[u32]) -> bool
    ensures { result ≡ list_all is_zero words.now }
{
    words.iter().all(|word| is_zero(*word))
}

/// Whether there are so many zeros and nothing else.
fn are_zeros(words: &[u32], count: u32) -> bool
    ensures { result ≡ is_all_zero words.now count }
{
    words.len() == count as usize && all_zero(words)
}

impl Made<'_> {
    /// Whether these are the words.
    #[tactic(auto, using(crate::proofs::Saying::zeros_are))]
    pub fn is(&self, words: &[u32]) -> bool
        ensures { result ≡ pointwise nat_eq words.now (list_of self.now) }
    {
        match self {
            Made::Given(list) => words == *list,
            Made::Zeros(count) => are_zeros(words, *count),
        }
    }
}

/// The words that an entry shows, where its rank made some.
fn words_of(action: &Action) -> Option<&[u32]>
    ensures { MatchOption result (words_recorded action.now ≡ None) (λ words. words_recorded action.now ≡ Some words.now) }
{
    match action {
        Action::Send { words, .. } => Some(words.list()),
        Action::Enter { words, .. } => {
            if words.list().is_empty() {
                None
            } else {
                Some(words.list())
            }
        }
        Action::Choose { .. } | Action::Run { .. } | Action::Recv { .. } | Action::Leave { .. } => {
            None
        }
    }
}

/// The branch that an entry shows, where it is of a choice.
fn branch_of(action: &Action) -> Option<u32>
    ensures { result ≡ branch_recorded action.now }
{
    match action {
        Action::Choose { answer, .. } => Some(*answer),
        Action::Run { .. }
        | Action::Send { .. }
        | Action::Recv { .. }
        | Action::Enter { .. }
        | Action::Leave { .. } => None,
    }
}

/// The words of a first entry where there are as many as wanted, else zeros.
pub fn first_words<'a>(first: Option<&'a (u32, Action)>, size: u32) -> Made<'a>
    ensures { MatchOption first.entry (list_of result ≡ replicate size 0) (λ entry. list_of result ≡ made_by entry.now.1 size) }
{
    match first {
        None => Made::Zeros(size),
        Some(entry) => made_by(&entry.1, size),
    }
}

/// The words of an entry where there are as many as wanted, else zeros.
fn made_by<'a>(action: &'a Action, size: u32) -> Made<'a>
    ensures { list_of result ≡ made_by action.now size }
{
    match words_of(action) {
        None => Made::Zeros(size),
        Some(words) => sized(words, size),
    }
}

/// These words where there are as many as wanted, else zeros.
fn sized<'a>(words: &'a [u32], size: u32) -> Made<'a>
    ensures { list_of result ≡ sized words.now size }
{
    if words.len() == size as usize {
        Made::Given(words)
    } else {
        Made::Zeros(size)
    }
}

/// The branch of a first entry where it is below the number of branches, else the other one.
pub fn first_branch(first: Option<&(u32, Action)>, count: usize, otherwise: usize) -> usize
    ensures { MatchOption first.entry (result ≡ otherwise) (λ entry. result ≡ chosen_or (branch_recorded entry.now.1) count otherwise) }
{
    match first {
        None => otherwise,
        Some(entry) => chosen_by(&entry.1, count, otherwise),
    }
}

fn chosen_by(action: &Action, count: usize, otherwise: usize) -> usize
    ensures { result ≡ chosen_or (branch_recorded action.now) count otherwise }
{
    match branch_of(action) {
        None => otherwise,
        Some(branch) => {
            let branch = branch as usize;
            if branch < count { branch } else { otherwise }
        }
    }
}
