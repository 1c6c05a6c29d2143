//! What the sequential runs of a protocol send at one N, under all answers.

use pb_compile::{Core, accept};
use pb_core_sound::is_sound;
use pb_plain::{Flat, flat_of, seats};
use pb_plain_run::{Answers, FullAction, RankAction, RunFault, Sequence, Setting, sequential_run};
use pb_text::{MOST_TEXT_BYTES, NoMemory};
use std::alloc::Global;

/// How many steps a run may have.
const MOST_STEPS: u64 = 4_096;

/// How many runs there may be.
const MOST_RUNS: u32 = 4_096;

/// A choice that was made in a run.
#[derive(Clone, Copy)]
struct Chosen {
    rank: u64,
    branches: u64,
    branch: u64,
}

/// The least and the most of messages and of words.
#[derive(Clone, Copy, PartialEq, Eq)]
pub struct Sent {
    pub least_messages: i64,
    pub most_messages: i64,
    pub least_words: i64,
    pub most_words: i64,
}

impl Sent {
    /// And of one run more.
    fn with(self, messages: i64, words: i64) -> Sent {
        Sent {
            least_messages: self.least_messages.min(messages),
            most_messages: self.most_messages.max(messages),
            least_words: self.least_words.min(words),
            most_words: self.most_words.max(words),
        }
    }
}

/// The branches that a rank took.
fn branches_of(alloc: Global, chosen: &[Chosen], rank: u64) -> Result<Vec<u32>, NoMemory> {
    let mut branches = Vec::new(alloc);
    for choice in chosen {
        if choice.rank == rank {
            branches.push(u32::try_from(choice.branch).unwrap_or(u32::MAX))?;
        }
    }
    Ok(branches)
}

/// The answers by which a run takes these branches.
fn answers(alloc: Global, chosen: &[Chosen], total: u64) -> Result<Vec<Answers>, NoMemory> {
    let mut answers = Vec::new(alloc);
    for rank in 0..total {
        answers.push(Answers {
            branches: branches_of(alloc, chosen, rank)?,
            words: Vec::new(alloc),
        })?;
    }
    Ok(answers)
}

/// The choices of a run.
fn chosen_in(alloc: Global, actions: &[RankAction]) -> Result<Vec<Chosen>, NoMemory> {
    let mut chosen = Vec::new(alloc);
    for done in actions {
        if let FullAction::Choose {
            branches,
            branch,
            ..
        } = &done.action
        {
            chosen.push(Chosen {
                rank: done.rank,
                branches: *branches,
                branch: *branch,
            })?;
        }
    }
    Ok(chosen)
}

/// The choices up to the last that has a branch left, which is taken; false where none has.
fn turn(chosen: &mut Vec<Chosen>) -> Result<bool, NoMemory> {
    for _ in 0..chosen.len() {
        if let Some(last) = chosen.pop() {
            let branch = last.branch.saturating_add(1);
            if branch < last.branches {
                chosen.push(Chosen { branch, ..last })?;
                return Ok(true);
            }
        }
    }
    Ok(false)
}

/// How many messages a run has, and how many words in them.
fn counted(run: &Sequence) -> (i64, i64) {
    let mut messages: i64 = 0;
    let mut words: i64 = 0;
    for done in &run.actions {
        if let FullAction::Send { words: carried, .. } = &done.action {
            messages = messages.saturating_add(1);
            let own = i64::try_from(carried.list().len()).unwrap_or(i64::MAX);
            words = words.saturating_add(own);
        }
    }
    (messages, words)
}

/// The run that takes these branches.
fn run_of(
    alloc: Global,
    setting: &Setting,
    protocol: &Flat,
    chosen: &[Chosen],
) -> Result<Sequence, RunFault> {
    let answers = answers(alloc, chosen, setting.total)?;
    sequential_run(alloc, setting, protocol, &answers, MOST_STEPS)
}

/// What a run sends, with what others send.
fn joined(sent: Option<Sent>, run: &Sequence) -> Sent {
    let (messages, words) = counted(run);
    match sent {
        Some(sent) => sent.with(messages, words),
        None => Sent {
            least_messages: messages,
            most_messages: messages,
            least_words: words,
            most_words: words,
        },
    }
}

/// The least and the most over all runs of a flat protocol; None where one is too long, or there are too many.
fn over_all(alloc: Global, setting: &Setting, protocol: &Flat) -> Result<Option<Sent>, RunFault> {
    let mut chosen = Vec::new(alloc);
    let mut sent = None;
    for _ in 0..MOST_RUNS {
        let run = run_of(alloc, setting, protocol, &chosen)?;
        if !run.is_over {
            return Ok(None);
        }
        sent = Some(joined(sent, &run));
        chosen = chosen_in(alloc, &run.actions)?;
        if !turn(&mut chosen)? {
            return Ok(sent);
        }
    }
    Ok(None)
}

/// The least and the most that the runs of a core send at N = n, where it is sound.
fn sent_of(alloc: Global, core: &Core, n: u32) -> Result<Option<Sent>, RunFault> {
    if !is_sound(core) {
        return Ok(None);
    }
    let n = i64::from(n);
    let ranks = seats(alloc, &core.roles, n)?;
    let protocol = flat_of(alloc, core, &ranks, n)?;
    let setting = Setting {
        total: ranks.len() as u64,
        labels: &core.labels,
    };
    over_all(alloc, &setting, &protocol)
}

/// The least and the most that the protocol in a file sends at N = n, where it is accepted.
pub fn sent_at(alloc: Global, file: &str, n: u32) -> Result<Option<Sent>, RunFault> {
    let bytes = file.as_bytes();
    if bytes.len() > MOST_TEXT_BYTES as usize {
        return Ok(None);
    }
    match accept(alloc, bytes) {
        Ok(core) => sent_of(alloc, &core, n),
        Err(_) => Ok(None),
    }
}
