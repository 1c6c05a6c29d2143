use pb_sched::{Mode, Picks, Schedule, pick, pick_mode, print_schedule, read_schedule};
use pb_text::MOST_EVENTS;
use std::alloc::Global;

fn is_printed(alloc: Global, schedule: &Schedule, text: &[u8]) -> bool {
    if schedule.turns.len() > MOST_EVENTS as usize {
        return false;
    }
    match print_schedule(alloc, schedule) {
        Ok(printed) => printed.as_slice() == text,
        Err(_) => false,
    }
}

/// Whether a text is read as a schedule of so many turns, and printed as it was.
fn is_read(alloc: Global, text: &[u8], turns: usize) -> bool {
    match read_schedule(alloc, text) {
        Ok(schedule) => schedule.turns.len() == turns && is_printed(alloc, &schedule, text),
        Err(_) => false,
    }
}

#[test]
fn reads_what_is_printed(rt: HostRuntime) {
    let text =
        b"pabble schedule 2\nseed 18446744073709551615\n0 e\n9 w\n10 e\n99 w\n100 e\n4294967295 w\n";
    assert!(rt; is_read(rt.alloc(), text, 6));
}

#[test]
fn picks_are_those_of_the_draws(rt: HostRuntime) {
    let ready = [2, 3, 5, 7];
    let mut picks = Picks::new(42);
    let draw = picks.next();
    assert!(rt; draw.among(&ready) == 5 && draw.mode == Mode::Waiting);
    let draw = picks.next();
    assert!(rt; draw.among(&ready) == 2 && draw.mode == Mode::Eager);
    assert!(rt; pick(42, 0, &ready) == 5 && pick_mode(42, 0) == Mode::Waiting);
    assert!(rt; pick(7, 1, &ready) == 5 && pick_mode(7, 0) == Mode::Eager);
}
