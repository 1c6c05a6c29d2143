use crate::changes::{
    Same, doubled, dropped, exchanged, joined, lines_of, next_of, replaced, with_word,
};
use crate::slow::ruling;
use crate::worlds::{core_of, is_ruled, log_of};
use pb_cli_simulate::{Mode, Modes, Options, Shown};
use pb_compile::Core;
use std::alloc::{AllocError, Global};

// Protocols like those of the gallery, with few words.

const JACOBI: &str = "\
const N = 2..max;
global protocol Jacobi(role W[0..N-1]) {
  rec Loop {
    Right(int32[2]) from W[i:0..N-2] to W[i+1];
    Left(int32) from W[i:1..N-1] to W[i-1];
    foreach (i:0..N-1) { compute Relax at W[i]; }
    allreduce Err(int32) with max;
    choice Test at W[0] {
      Go() from W[0] to W[i:1..N-1];
      continue Loop;
    } or {
      Stop() from W[0] to W[i:1..N-1];
    }
  }
}
";

const FARM: &str = "\
const N = 2..max;
global protocol Farm(role Manager, role Worker[0..N-1]) {
  rec Serve {
    choice More at Manager {
      Done() from Manager to Worker[0];
      Finish() from Worker[0] to Worker[i:1..N-1];
    } or {
      Batch(int32[2]) from Manager to Worker[0];
      Share(uint32) from Worker[0] to Worker[i:1..N-1];
      foreach (i:0..N-1) {
        compute Work at Worker[i];
        Result(int32) from Worker[i] to Manager;
      }
      continue Serve;
    }
  }
}
";

const REDUCTION: &str = "\
const N = 1..max;
global protocol Reduction(role W[0..N-1]) {
  broadcast Size(uint32[2]) from W[0];
  foreach (i:0..N-1) { compute Part at W[i]; }
  reduce Total(uint32) with sum to W[0];
  compute Report at W[0];
  barrier;
}
";

const HALVES: &str = "\
const N = 2..max;
global protocol Halves(role Producer[0..N-1], role Consumer[0..N-1]) {
  foreach (i:0..N-1) {
    compute Make at Producer[i];
    Item(int32[2]) from Producer[i] to Consumer[i];
    Answer() from Consumer[i] to Producer[i];
  }
  Next(uint32) from Producer[i:0..N-2] to Consumer[i+1];
}
";

const ROUNDS: &str = "\
const N = 3..max;
global protocol Rounds(role W[0..N-1]) {
  rec X {
    choice K at W[0] {
      Go() from W[0] to W[1];
      continue X;
    } or {
      Stop() from W[0] to W[1];
    } or {
      Halt(int32) from W[0] to W[1];
      continue X;
    }
  }
  A() from W[2] to W[1];
}
";

const RING: &str = "\
const N = 2..max;
global protocol Ring(role W[0..N-1]) {
  Pass(int32[2]) from W[i:0..N-2] to W[i+1];
  Close(int32[2]) from W[N-1] to W[0];
}
";

/// A simulation of at most so many events.
fn options(modes: Modes, turns: u32) -> Options {
    Options {
        n: 3,
        seed: 5,
        turns,
        modes,
        shown: Shown::Log,
    }
}

/// A protocol, its file, and the lines of a log.
#[derive(Clone, Copy)]
struct Subject<'a> {
    file: &'a str,
    core: &'a Core,
    lines: &'a [&'a str],
}

/// Whether the ruling on this log is that of the slow program.
fn is_same(alloc: Global, file: &str, core: &Core, log: &str) -> bool {
    match ruling(alloc, core, log, 3) {
        Some(line) => is_ruled(alloc, file, log, 3, line.as_str()) == Ok(true),
        None => false,
    }
}

fn is_same_on(alloc: Global, on: &Subject, log: Result<String, AllocError>) -> bool {
    match log {
        Ok(log) => is_same(alloc, on.file, on.core, log.as_str()),
        Err(_) => false,
    }
}

/// With another word at a place of a line.
fn same_with_word(alloc: Global, on: &Subject, place: usize, at: usize, word: &str) -> bool {
    let Some(line) = on.lines.get(place) else {
        return false;
    };
    match with_word(alloc, line, at, word) {
        Ok(other) => is_same_on(alloc, on, replaced(alloc, on.lines, place, other.as_str())),
        Err(_) => false,
    }
}

/// With other numbers at a place of a line, and with no other rank than there are.
fn same_with_numbers(alloc: Global, on: &Subject, place: usize, at: usize, is_rank: bool) -> bool {
    let words = if is_rank { "0 1 2" } else { "0 1 2 7" };
    for word in words.split(' ') {
        if !same_with_word(alloc, on, place, at, word) {
            return false;
        }
    }
    true
}

/// With each label of the protocol at a place of a line.
fn same_with_labels(alloc: Global, on: &Subject, place: usize, at: usize) -> bool {
    for label in &on.core.labels {
        let name = std::str::from_utf8(label.name.bytes()).unwrap_or("");
        if !same_with_word(alloc, on, place, at, name) {
            return false;
        }
    }
    true
}

/// With another word in a line: a number, or the name of a label.
fn same_with_words(alloc: Global, on: &Subject, place: usize, line: &str) -> bool {
    let is_message = line.contains(" send ") || line.contains(" recv ");
    let is_joint = line.contains(" enter ") || line.contains(" leave ");
    for (at, own) in line.split(' ').enumerate() {
        let is_number = 2 <= at && own.parse::<u32>().is_ok();
        if is_number && !same_with_numbers(alloc, on, place, at, is_message && at == 2) {
            return false;
        }
        let is_label = is_message && at == 3 || is_joint && at == 2 && own != "barrier";
        if is_label && !same_with_labels(alloc, on, place, at) {
            return false;
        }
    }
    true
}

/// With a line and a later one exchanged.
fn same_exchanged(alloc: Global, on: &Subject, place: usize, whose: Same) -> bool {
    match next_of(on.lines, place, whose) {
        Some(other) => is_same_on(alloc, on, exchanged(alloc, on.lines, place, other)),
        None => true,
    }
}

/// Without a line, with it twice, and with it and a later one exchanged.
fn same_with_lines(alloc: Global, on: &Subject, place: usize) -> bool {
    is_same_on(alloc, on, dropped(alloc, on.lines, place))
        && is_same_on(alloc, on, doubled(alloc, on.lines, place))
        && same_exchanged(alloc, on, place, Same::Rank)
        && same_exchanged(alloc, on, place, Same::No)
}

/// The first line of the log with a change of which the rulings differ.
fn first_wrong(alloc: Global, on: &Subject) -> Option<usize> {
    for (place, line) in on.lines.iter().enumerate() {
        if !same_with_lines(alloc, on, place) || !same_with_words(alloc, on, place, line) {
            return Some(place);
        }
    }
    None
}

/// Whether the rulings are the same on a log of a simulation, of more than four lines, with each line or word changed.
fn same_changed(alloc: Global, file: &str, turns: u32) -> Option<bool> {
    let core = core_of(alloc, file)?;
    let log = log_of(alloc, file, options(Modes::Mixed, turns))?;
    let lines = lines_of(alloc, log.as_str()).ok()?;
    let on = Subject {
        file,
        core: &core,
        lines: &lines,
    };
    Some(lines.len() > 4 && first_wrong(alloc, &on) == None)
}

#[test]
fn rulings_on_changed_logs_are_those_of_the_slow_program(rt: HostRuntime) {
    for (file, turns) in [
        (JACOBI, 90),
        (FARM, 90),
        (REDUCTION, 90),
        (HALVES, 90),
        (ROUNDS, 60),
        (RING, 60),
    ] {
        assert!(rt;
            same_changed(rt.alloc(), file, turns) == Some(true),
            "{file}"
        );
    }
}

/// Whether a log is ruled whole where it has ended, and whole or covered else.
fn is_kept(alloc: Global, file: &str, log: &str) -> bool {
    let is_whole = is_ruled(alloc, file, log, 3, "whole\n") == Ok(true);
    let is_covered = is_ruled(alloc, file, log, 3, "covered\n") == Ok(true);
    is_whole || is_covered && !log.ends_with("ended\n")
}

/// Whether the slow program says the same of a log without the line that tells how it ended.
fn is_same_without_end(alloc: Global, file: &str, log: &str) -> Option<bool> {
    let lines = lines_of(alloc, log).ok()?;
    let cut = joined(alloc, &lines).ok()?;
    let core = core_of(alloc, file)?;
    let line = ruling(alloc, &core, cut.as_str(), 3)?;
    is_ruled(alloc, file, log, 3, line.as_str()).ok()
}

/// Whether the log that a simulation writes is ruled so.
fn keeps(alloc: Global, file: &str, modes: Modes, turns: u32) -> bool {
    match log_of(alloc, file, options(modes, turns)) {
        Some(log) => {
            is_kept(alloc, file, log.as_str())
                && is_same_without_end(alloc, file, log.as_str()) == Some(true)
        }
        None => false,
    }
}

/// And so the logs of runs of each of these lengths.
fn keeps_each(alloc: Global, file: &str, modes: Modes) -> bool {
    keeps(alloc, file, modes, 20) && keeps(alloc, file, modes, 80) && keeps(alloc, file, modes, 400)
}

#[test]
fn logs_of_simulations_are_kept(rt: HostRuntime) {
    for file in [JACOBI, FARM, REDUCTION, HALVES, ROUNDS, RING] {
        assert!(rt;
            keeps_each(rt.alloc(), file, Modes::Each(Mode::Eager)),
            "{file}"
        );
        assert!(rt;
            keeps_each(rt.alloc(), file, Modes::Each(Mode::Waiting)),
            "{file}"
        );
        assert!(rt; keeps_each(rt.alloc(), file, Modes::Mixed), "{file}");
    }
}
