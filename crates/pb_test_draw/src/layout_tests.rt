use crate::logs::add_message;
use crate::slow::{slow_count, slow_mate};
use pb_draw_layout::{
    Band, Cut, Entry, Layout, Link, NoMemory, Sums, Times, choose, ending, laid_out, stuck_rank,
    summed,
};
use pb_draw_log::read_log;
use pb_draw_times::{link_at, timed};
use std::alloc::Global;

/// All lines and all ranks, but at most so many events.
fn all(most: usize) -> Cut {
    Cut {
        from: 1,
        to: u32::MAX,
        low: 0,
        high: u32::MAX,
        most,
    }
}

/// The layout of a log of less than 1,000 bytes.
fn layout_of(alloc: Global, text: &[u8], cut: &Cut, stuck: Option<u32>) -> Option<Layout> {
    if text.len() > 1000 {
        return None;
    }
    match read_log(alloc, text) {
        Ok(log) => layout_of_entries(alloc, &log.entries, cut, stuck),
        Err(_) => None,
    }
}

fn layout_of_entries(
    alloc: Global,
    entries: &[Entry],
    cut: &Cut,
    stuck: Option<u32>,
) -> Option<Layout> {
    match timed(alloc, entries) {
        Ok(times) => layout_at(alloc, entries, &times, cut, stuck),
        Err(_) => None,
    }
}

fn layout_at(
    alloc: Global,
    entries: &[Entry],
    times: &Times,
    cut: &Cut,
    stuck: Option<u32>,
) -> Option<Layout> {
    let chosen = choose(alloc, entries, cut).ok()?;
    laid_out(alloc, entries, times, chosen, cut, stuck).ok()
}

/// Whether these are the ranks of the rows, the times of the columns, and the mates of the events.
fn has(layout: &Layout, ranks: &[u32], times: &[u32], mates: &[Option<usize>]) -> bool {
    layout.ranks.as_slice() == ranks
        && layout.times.as_slice() == times
        && layout.mates.as_slice() == mates
}

/// Whether these are the columns and the rows of the events.
fn stands_at(layout: &Layout, columns: &[u32], rows: &[u32]) -> bool {
    layout.columns.as_slice() == columns && layout.rows.as_slice() == rows
}

/// Rank 1 takes what rank 0 sends and hands it on; rank 4 runs meanwhile.
const HANDED_ON: &[u8] = b"0 send 1 A 5\n4 run K\n1 recv 0 A 5\n1 send 2 A 5\n2 recv 1 A 5\n";

#[test]
fn rows_and_columns_of_a_chain(rt: HostRuntime) {
    let layout = layout_of(rt.alloc(), HANDED_ON, &all(9), None);
    assert!(rt; layout.is_some());
    if let Some(layout) = layout {
        let mates = [Some(2), None, Some(0), Some(4), Some(3)];
        assert!(rt; has(&layout, &[0, 1, 2, 4], &[0, 1, 2, 3], &mates));
        assert!(rt; stands_at(&layout, &[0, 0, 1, 2, 3], &[0, 3, 1, 1, 2]));
        assert!(rt; layout.chain_length == 4);
    }
}

/// The lines 3 to 5 of the ranks 1 and 2, but no more than two events.
const MIDDLE: Cut = Cut {
    from: 3,
    to: 5,
    low: 1,
    high: 2,
    most: 2,
};

fn is_link(link: &Link, index: usize, is_joined: bool) -> bool {
    link.index == index && link.is_joined == is_joined
}

fn is_middle_chain(chain: &[Link]) -> bool {
    match chain {
        [second, first] => is_link(second, 1, false) && is_link(first, 0, true),
        _ => false,
    }
}

#[test]
fn lines_and_ranks_are_left_out(rt: HostRuntime) {
    let layout = layout_of(rt.alloc(), HANDED_ON, &MIDDLE, Some(9));
    assert!(rt; layout.is_some());
    if let Some(layout) = layout {
        assert!(rt; layout.asked == 3);
        assert!(rt; layout.places.as_slice() == [2, 3].as_slice());
        assert!(rt; has(&layout, &[1, 2], &[1, 2], &[None, None]));
        assert!(rt; is_middle_chain(&layout.chain));
    }
}

const BANDS: &[u8] = b"0 enter S 1\n3 run K\n3 enter S 2\n0 leave S 3\n0 enter S 3\n";

const FIRST_BAND: Band = Band {
    name: 0,
    first: 0,
    last: 2,
    top: 0,
    bottom: 1,
    entries: 2,
    leaves: 1,
};

const SECOND_BAND: Band = Band {
    name: 0,
    first: 3,
    last: 3,
    top: 0,
    bottom: 0,
    entries: 1,
    leaves: 0,
};

fn are_bands(bands: &[Band]) -> bool {
    match bands {
        [first, second] => *first == FIRST_BAND && *second == SECOND_BAND,
        _ => false,
    }
}

#[test]
fn a_collective_is_a_band(rt: HostRuntime) {
    let layout = layout_of(rt.alloc(), BANDS, &all(9), None);
    assert!(rt; layout.is_some());
    if let Some(layout) = layout {
        assert!(rt; are_bands(&layout.bands));
    }
}

#[test]
fn the_last_line_tells_who_is_stuck(rt: HostRuntime) {
    let log = b"0 run K\npabble: stuck, rank 3 waits for A from 2\n";
    assert!(rt; ending(log, 8) == Some(b"pabble: stuck, rank 3 waits for A from 2".as_slice()));
    assert!(rt; ending(log, 49) == None);
    assert!(rt; stuck_rank(b"pabble: stuck, rank 3 waits for A from 2") == Some(3));
    assert!(rt; stuck_rank(b"pabble: turns 3") == None);
}

/// A log of four ranks that do what the seed says: some messages are never taken.
fn made(alloc: Global, seed: u32) -> Result<Vec<Entry>, NoMemory> {
    let mut entries = Vec::new(alloc);
    let mut word = seed;
    for _ in 0..12 {
        word = word.wrapping_mul(1_664_525).wrapping_add(1_013_904_223);
        add_message(&mut entries, word)?;
    }
    Ok(entries)
}

/// Whether exactly the pairs that the slow program finds among what is drawn are joined.
fn mates_agree(entries: &[Entry], layout: &Layout) -> bool {
    for (one, place) in layout.places.iter().enumerate() {
        for (other, mate) in layout.places.iter().enumerate() {
            let is_joined = link_at(&layout.mates, one) == Some(other)
                && layout.mates.get(other) == Some(&Some(one));
            if is_joined != (slow_mate(entries, *place) == Some(*mate)) {
                return false;
            }
        }
    }
    true
}

fn sums_agree(entries: &[Entry], sums: &Sums) -> bool {
    let mut all: (u64, u64) = (0, 0);
    for sum in &sums.labels {
        let (messages, words) = slow_count(entries, sum.name);
        if sum.messages != messages || sum.words != words {
            return false;
        }
        all = (all.0.saturating_add(messages), all.1.saturating_add(words));
    }
    all == (sums.messages, sums.words)
}

fn agree_on_mates(alloc: Global, seed: u32) -> Result<bool, NoMemory> {
    let entries = made(alloc, seed)?;
    let cut = Cut {
        from: seed.saturating_add(1),
        to: 20,
        low: seed % 2,
        high: 3,
        most: 16,
    };
    match layout_of_entries(alloc, &entries, &cut, None) {
        Some(layout) => Ok(mates_agree(&entries, &layout)),
        None => Ok(false),
    }
}

#[test]
fn the_slow_program_finds_the_same(rt: HostRuntime) {
    for seed in 0..6 {
        assert!(rt; agree_on_mates(rt.alloc(), seed) == Ok(true), "{seed}");
    }
}

/// Whether all labels are counted, as the slow program counts them.
fn are_sums(alloc: Global, entries: &[Entry], times: &Times) -> Result<bool, NoMemory> {
    let sums = summed(alloc, entries, times, 2)?;
    Ok(sums.more == 0 && sums_agree(entries, &sums))
}

fn agree_on_sums(alloc: Global, seed: u32) -> Result<bool, NoMemory> {
    let entries = made(alloc, seed)?;
    match timed(alloc, &entries) {
        Ok(times) => are_sums(alloc, &entries, &times),
        Err(_) => Ok(false),
    }
}

#[test]
fn the_slow_program_counts_the_same(rt: HostRuntime) {
    for seed in 0..6 {
        assert!(rt; agree_on_sums(rt.alloc(), seed) == Ok(true), "{seed}");
    }
}
