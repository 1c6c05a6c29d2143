use crate::logs::{add_message, done};
use crate::rows::is_told;
use crate::slow::{at, slow_chains, slow_mate};
use pb_draw_log::read_log;
use pb_draw_times::{Deed, Entry, NoMemory, Times, link_at, longest_chain, message_chain, timed};
use std::alloc::Global;

/// The times, the mates, the longest chain from its last action on, and how many sends of the first label one chain has.
fn told(alloc: Global, entries: &[Entry], found: &Times) -> Result<String, NoMemory> {
    let chain = longest_chain(alloc, found)?;
    let sends = message_chain(alloc, entries, found, Some(0))?;
    Ok(format!(in alloc; "{:?} {:?} {chain:?} {sends}.", found.times, found.mates)?)
}

fn is_told_of(alloc: Global, entries: &[Entry], found: &Times, want: &str) -> bool {
    match told(alloc, entries, found) {
        Ok(told) => told.as_str().starts_with(want),
        Err(_) => false,
    }
}

/// Whether what is told of actions begins so, or there are no times because of this fault.
fn are_timed(alloc: Global, entries: &[Entry], want: &str) -> bool {
    match timed(alloc, entries) {
        Ok(found) => is_told_of(alloc, entries, &found, want),
        Err(fault) => is_told(alloc, &fault, want),
    }
}

/// The same of a log.
fn is_timed(alloc: Global, text: &[u8], want: &str) -> bool {
    if text.len() > 1000 {
        return false;
    }
    match read_log(alloc, text) {
        Ok(log) => are_timed(alloc, &log.entries, want),
        Err(_) => false,
    }
}

#[test]
fn a_chain_of_two_messages(rt: HostRuntime) {
    let text = b"0 send 1 A 5\n2 run K\n1 recv 0 A 5\n1 send 2 A 5\n2 recv 1 A 5\n";
    let want = "[0, 0, 1, 2, 3] [Some(2), None, Some(0), Some(4), Some(3)] [4, 3, 2, 0] 2.";
    assert!(rt; is_timed(rt.alloc(), text, want));
}

#[test]
fn receives_may_stand_before_their_sends(rt: HostRuntime) {
    let text = b"1 recv 0 A\n1 recv 0 A\n0 send 1 A\n0 send 1 A\n0 send 1 A\n";
    let want = "[1, 2, 0, 1, 2] [Some(2), Some(3), Some(0), Some(1), None]";
    assert!(rt; is_timed(rt.alloc(), text, want));
}

#[test]
fn a_circle_has_no_times(rt: HostRuntime) {
    let text = b"0 recv 1 A\n0 send 1 B\n1 recv 0 B\n1 send 0 A\n";
    assert!(rt; is_timed(rt.alloc(), text, "Circle"));
}

/// A log of four ranks that do what the seed says: some messages are never taken.
fn made(alloc: Global, seed: u32) -> Result<Vec<Entry>, NoMemory> {
    let mut entries = Vec::new(alloc);
    let mut word = seed;
    for _ in 0..4 {
        word = word.wrapping_mul(1_664_525).wrapping_add(1_013_904_223);
        add_message(&mut entries, word)?;
        if word / 33_554_432 % 4 == 0 {
            together(&mut entries, 3)?;
        }
    }
    Ok(entries)
}

fn together(entries: &mut Vec<Entry>, name: u32) -> Result<(), NoMemory> {
    for rank in 0..4 {
        entries.push(done(rank, Deed::Enter, name))?;
    }
    for rank in 0..4 {
        entries.push(done(rank, Deed::Leave, name))?;
    }
    Ok(())
}

/// Whether each action has the mate that the slow program finds.
fn mates_agree(entries: &[Entry], found: &Times) -> bool {
    for place in 0..entries.len() {
        if link_at(&found.mates, place) != slow_mate(entries, place) {
            return false;
        }
    }
    true
}

/// A weight for each action: 1 where it counts.
fn weights(alloc: Global, entries: &[Entry], only_sends: bool) -> Result<Vec<u32>, NoMemory> {
    let mut weights = Vec::new(alloc);
    for entry in entries {
        let is_send = matches!(entry.step.deed, Deed::Send(_)) && entry.step.name == 1;
        weights.push(u32::from(is_send || !only_sends))?;
    }
    Ok(weights)
}

fn greatest(numbers: &[u32]) -> u32 {
    let mut most = 0;
    for number in numbers {
        most = most.max(*number);
    }
    most
}

/// Whether each time is the length of a longest chain, without the action.
fn times_agree(lengths: &[u32], times: &[u32]) -> bool {
    for (place, length) in lengths.iter().enumerate() {
        if at(times, place).saturating_add(1) != *length {
            return false;
        }
    }
    true
}

/// How long the chains up to each action are that the slow program finds, where all of them count or only those sends.
fn lengths(alloc: Global, entries: &[Entry], only_sends: bool) -> Result<Vec<u32>, NoMemory> {
    let weights = weights(alloc, entries, only_sends)?;
    slow_chains(alloc, entries, &weights)
}

/// Whether times and the longest chain are those of the slow program.
fn chains_agree(alloc: Global, entries: &[Entry], found: &Times) -> Result<bool, NoMemory> {
    let longest = longest_chain(alloc, found)?.len();
    let lengths = lengths(alloc, entries, false)?;
    Ok(times_agree(&lengths, &found.times) && longest == greatest(&lengths) as usize)
}

/// Whether the sends on one chain are as many as the slow program finds.
fn sends_agree(alloc: Global, entries: &[Entry], found: &Times) -> Result<bool, NoMemory> {
    let most = greatest(&lengths(alloc, entries, true)?);
    Ok(message_chain(alloc, entries, found, Some(1))? == most)
}

fn agree(alloc: Global, seed: u32) -> Result<bool, NoMemory> {
    let entries = made(alloc, seed)?;
    match timed(alloc, &entries) {
        Ok(found) => Ok(
            mates_agree(&entries, &found)
                && chains_agree(alloc, &entries, &found)?
                && sends_agree(alloc, &entries, &found)?,
        ),
        Err(_) => Ok(false),
    }
}

#[test]
fn the_slow_program_finds_the_same(rt: HostRuntime) {
    for seed in 0..3 {
        assert!(rt; agree(rt.alloc(), seed) == Ok(true), "{seed}");
    }
}
