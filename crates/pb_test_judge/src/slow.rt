//! The ruling on a log, by the definition: the sequential run under the answers that the log shows is made step by step, and each
//! rank's lines are laid beside its actions.

use crate::printed::line_of;
use pb_compile::Core;
use pb_core_sound::is_sound;
use pb_plain::{Flat, flat_of, seats};
use pb_plain_run::{Answers, RankAction, Sequence, Setting, sequential_run};
use pb_text::{NoMemory, Words};
use std::alloc::{AllocError, Global};

/// How many steps of a run are made. A run that isn't over then has more actions of each rank than a log of these tests, or goes on
/// for ever without it.
const MOST_STEPS: u64 = 512;

/// A line of a log, without its line feed, and its number.
#[derive(Clone, Copy)]
struct Line<'a> {
    text: &'a str,
    number: usize,
}

/// The rank that a line begins with.
fn rank_of(text: &str) -> u64 {
    match text.split(' ').next() {
        Some(word) => word.parse().unwrap_or(u64::MAX),
        None => u64::MAX,
    }
}

/// The line of a rank with so many of its lines before it.
fn line_at(log: &str, rank: u64, before: usize) -> Option<Line<'_>> {
    let mut count = 0_usize;
    for (at, text) in log.lines().enumerate() {
        if rank_of(text) == rank {
            if count == before {
                let number = at.saturating_add(1);
                return Some(Line { text, number });
            }
            count = count.saturating_add(1);
        }
    }
    None
}

fn line_count(log: &str, rank: u64) -> usize {
    log.lines().filter(|text| rank_of(text) == rank).count()
}

/// The word of a number, with a sign or without.
fn word_of(text: &str) -> u32 {
    let signed: i32 = text.parse().unwrap_or(0);
    text.parse().unwrap_or(signed.cast_unsigned())
}

/// The words of a line from one of them on.
fn words_in(alloc: Global, text: &str, from: usize) -> Result<Vec<u32>, AllocError> {
    let mut words = Vec::new(alloc);
    for word in text.split(' ').skip(from) {
        words.push(word_of(word))?;
    }
    Ok(words)
}

/// Adds the branch that a line shows.
fn add_branch(answers: &mut Answers, text: &str) -> Result<(), AllocError> {
    let branch = text.split(' ').nth(3).map(word_of);
    answers.branches.push(branch.unwrap_or(0))?;
    Ok(())
}

/// Adds the words of a line of a message, which may be none.
fn add_message(answers: &mut Answers, alloc: Global, text: &str) -> Result<(), AllocError> {
    let words = words_in(alloc, text, 4)?;
    answers.words.push(Words::of(words))?;
    Ok(())
}

/// Adds the words of a line of a collective, if there are any.
fn add_joint(answers: &mut Answers, alloc: Global, text: &str) -> Result<(), AllocError> {
    let words = words_in(alloc, text, 3)?;
    if words.is_empty() {
        return Ok(());
    }
    answers.words.push(Words::of(words))?;
    Ok(())
}

/// Adds the answers that a line shows.
fn add(answers: &mut Answers, alloc: Global, text: &str) -> Result<(), AllocError> {
    match text.split(' ').nth(1) {
        Some("choose") => add_branch(answers, text),
        Some("send") => add_message(answers, alloc, text),
        Some("enter") => add_joint(answers, alloc, text),
        _ => Ok(()),
    }
}

/// The answers that a rank's lines show.
fn answers_in(alloc: Global, log: &str, rank: u64) -> Result<Answers, AllocError> {
    let mut answers = Answers {
        branches: Vec::new(alloc),
        words: Vec::new(alloc),
    };
    for text in log.lines() {
        if rank_of(text) == rank {
            add(&mut answers, alloc, text)?;
        }
    }
    Ok(answers)
}

/// The answers of each rank that the log shows.
fn answers_of(alloc: Global, log: &str, total: u64) -> Result<Vec<Answers>, AllocError> {
    let mut answers = Vec::new(alloc);
    for rank in 0..total {
        answers.push(answers_in(alloc, log, rank)?)?;
    }
    Ok(answers)
}

/// The first actions of a protocol under the answers of a log.
fn run_of(alloc: Global, core: &Core, protocol: &Flat, log: &str, total: u64) -> Option<Sequence> {
    let setting = Setting {
        total,
        labels: &core.labels,
    };
    let answers = answers_of(alloc, log, total).ok()?;
    sequential_run(alloc, &setting, protocol, &answers, MOST_STEPS).ok()
}

/// The first actions of the run under the answers of a log, and how many ranks there are. None where memory ran out or the
/// core isn't sound.
fn run_beside(alloc: Global, core: &Core, log: &str, n: i64) -> Option<(Sequence, u64)> {
    if !is_sound(core) || n < 0 || 1_024 < n {
        return None;
    }
    let ranks = seats(alloc, &core.roles, n).ok()?;
    let total = ranks.len() as u64;
    match flat_of(alloc, core, &ranks, n) {
        Ok(protocol) => Some((run_of(alloc, core, &protocol, log, total)?, total)),
        Err(_) => None,
    }
}

/// How many actions a rank has among these.
fn count_of(actions: &[RankAction], rank: u64) -> usize {
    actions.iter().filter(|done| done.rank == rank).count()
}

fn is_line(alloc: Global, core: &Core, done: &RankAction, text: &str) -> Result<bool, NoMemory> {
    match line_of(alloc, core, done) {
        Ok(line) => Ok(line.as_slice() == text.as_bytes()),
        Err(error) => Err(error),
    }
}

/// The first action of the run that isn't the one in its place of the log: the line of that and the rank.
fn difference(
    alloc: Global,
    core: &Core,
    log: &str,
    actions: &[RankAction],
) -> Result<Option<String>, NoMemory> {
    for (at, done) in actions.iter().enumerate() {
        let rank = done.rank;
        let before = count_of(&actions[..at], rank);
        if let Some(Line { text, number }) = line_at(log, rank, before) {
            if !is_line(alloc, core, done, text)? {
                let line = format!(in alloc; "pabble: log line {number}, rank {rank} differs\n")?;
                return Ok(Some(line));
            }
        }
    }
    Ok(None)
}

/// The least rank that has more lines than actions: the first line more.
fn excess(
    alloc: Global,
    log: &str,
    actions: &[RankAction],
    total: u64,
) -> Result<Option<String>, NoMemory> {
    for rank in 0..total {
        if let Some(Line { number, .. }) = line_at(log, rank, count_of(actions, rank)) {
            let line = format!(in alloc; "pabble: log line {number}, rank {rank} goes beyond\n")?;
            return Ok(Some(line));
        }
    }
    Ok(None)
}

/// Whether each rank has as many lines as actions.
fn is_whole(log: &str, run: &Sequence, total: u64) -> bool {
    run.is_over && (0..total).all(|rank| line_count(log, rank) == count_of(&run.actions, rank))
}

fn told(
    alloc: Global,
    core: &Core,
    log: &str,
    run: &Sequence,
    total: u64,
) -> Result<String, NoMemory> {
    if let Some(line) = difference(alloc, core, log, &run.actions)? {
        return Ok(line);
    }
    if let Some(line) = excess(alloc, log, &run.actions, total)? {
        return Ok(line);
    }
    let kept = if is_whole(log, run, total) {
        "whole\n"
    } else {
        "covered\n"
    };
    Ok(String::from_str(alloc, kept)?)
}

/// The line of the ruling on a log at N = n, which is well formed. None where memory ran out or the core isn't sound.
pub fn ruling(alloc: Global, core: &Core, log: &str, n: u32) -> Option<String> {
    let (run, total) = run_beside(alloc, core, log, i64::from(n))?;
    told(alloc, core, log, &run, total).ok()
}
