use crate::worlds::{options, play_by_list, plays_greatest_by_rank, protocol, sink};
use pb_cli_simulate::{Options, Status};
use pb_io::{MemSink, NoMemory};
use std::alloc::Global;

/// Rank 0 goes on or stops, and rank 2 sends to rank 3 behind that.
const ROUNDS: &str =
    "  rec X { choice K at W[0] { Go() from W[0] to W[1]; continue X; } or { Stop() from W[0] to W[1]; } } A() from W[2] to W[3];";

/// Whether rank 0 has gone on more than twice and never stopped, up to this last line.
fn goes_on(out: &MemSink, last: &str) -> bool {
    let log = std::str::from_utf8(out.taken()).unwrap_or("");
    let all = log.lines().filter(|line| line.contains("choose")).count();
    let on = log.lines().filter(|line| *line == "0 choose K 0").count();
    2 < all && on == all && log.lines().last() == Some(last)
}

// Branches are counted modulo 2.
#[test]
fn even_words_go_on(rt: HostRuntime) -> Result<(), NoMemory> {
    let file = protocol(rt.alloc(), "4..max", ROUNDS)?;
    assert!(rt; is_going_on(rt.alloc(), file.as_str(), 200, "pabble: turns 200")?);
    Ok(())
}

/// Whether rank 0 goes on, where its words are even, as long as so many events are made.
fn is_going_on(alloc: Global, file: &str, turns: u32, last: &str) -> Result<bool, NoMemory> {
    let asked = Options {
        turns,
        ..options(4)
    };
    let mut out = sink(alloc)?;
    let status = play_by_list(alloc, file, asked, &[2, 4_294_967_294], &mut out)?;
    Ok(status == Status::Turns && goes_on(&out, last))
}

#[test]
fn the_greatest_word_stops(rt: HostRuntime) -> Result<(), NoMemory> {
    let file = protocol(rt.alloc(), "4..max", ROUNDS)?;
    let answer = "0\n0 choose K 1\n0 send 1 Stop\n1 recv 0 Stop\n2 send 3 A\n3 recv 2 A\nended\n";
    assert!(rt; plays_greatest_by_rank(rt.alloc(), file.as_str(), options(4), answer)?);
    Ok(())
}
