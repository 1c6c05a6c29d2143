use pb_cli_words::{Command, Mode, Modes, Options, Shown, command_in};
use pb_text::{MOST_EVENTS, MOST_NUMBER};
use std::alloc::{AllocError, Global};

/// Words, and what they ask for: the letters of the command, of a simulation also those of its modes and of what is shown, and
/// the first letters of the files. The last ones have an empty word, and ask for nothing.
const COMMANDS: &str = "\
check p => cp
check -- -p => c-p
check - => c-
gen p => gp
gen -- p => gp
gen p k => kpk
gen p -- -k => kp-k
gen -- p k => kpk
project p => pp
sim t --n 8 => sel.t
--n 8 sim t => sel.t
--n=8 sim -- t => sel.t
sim --n=00000000000000000008 t => sel.t
sim --mode waiting t --n 8 --schedule => sws.t
sim --mode=mixed t --seed 7 --turns=0100 --n 8 => sml!t
replay t s --n 2 => r2ts
replay t --n 2 -- s => r2ts
--n 2 replay -- t s => r2ts
run p --n 2000000000 --seed 18446744073709551615 => uNp
run p --n=2 => up
run --n 2 p => up
demo 4 => d4
demo 04 => d4
demo -- 4 => d4
demo 4000 => dM
cost p => op
cost -- p => op
expand p => ep
expand -- p => ep
strips p => stp
strips -- p => stp
judge p l --n 2 => j2pl
judge p --n=02 -- l => j2pl
--n 2 judge p l => j2pl
 => -
sim t --n  => -
sim t --n=  => -
";

fn words(alloc: Global, line: &str) -> Result<Vec<String>, AllocError> {
    let mut words = Vec::new(alloc);
    for word in line.split(' ') {
        words.push(String::from_str(alloc, word)?)?;
    }
    Ok(words)
}

/// Whether the letters of a command are followed by those of its files, which may be one.
fn is_spelled(wanted: &str, letters: &str, first: &str, second: &str) -> bool {
    match wanted.strip_prefix(letters) {
        Some(files) => files.strip_prefix(first) == Some(second),
        None => false,
    }
}

/// The letter of the numbers that are asked for.
fn numbers(options: &Options) -> &'static str {
    match (options.n, options.seed, options.turns) {
        (8, 7, 100) => "!",
        (8, 0, MOST_EVENTS) => ".",
        _ => "",
    }
}

fn is_simulation(wanted: &str, file: &str, options: &Options) -> bool {
    let mode = match options.modes {
        Modes::Each(Mode::Eager) => "se",
        Modes::Each(Mode::Waiting) => "sw",
        Modes::Mixed => "sm",
    };
    let shown = match options.shown {
        Shown::Log => "l",
        Shown::Schedule => "s",
    };
    match wanted.strip_prefix(mode) {
        Some(rest) => is_spelled(rest, shown, numbers(options), file),
        None => false,
    }
}

fn is_demo(wanted: &str, count: u32) -> bool {
    match count {
        4 => wanted == "d4",
        4_000 => wanted == "dM",
        _ => wanted == "d",
    }
}

fn is_command(wanted: &str, command: &Command) -> bool {
    match *command {
        Command::Check(file) => is_spelled(wanted, "c", file, ""),
        Command::Gen(file) => is_spelled(wanted, "g", file, ""),
        Command::GenWith(file, kernels) => is_spelled(wanted, "k", file, kernels),
        Command::Project(file) => is_spelled(wanted, "p", file, ""),
        Command::Sim(file, options) => is_simulation(wanted, file, &options),
        Command::Replay(text, schedule, 2) => is_spelled(wanted, "r2", text, schedule),
        Command::Replay(text, schedule, _) => is_spelled(wanted, "r", text, schedule),
        Command::Run(file, options) if options.n == MOST_NUMBER => is_spelled(
            wanted, "uN", file, "",
        ),
        Command::Run(file, _) => is_spelled(wanted, "u", file, ""),
        Command::Demo(count) => is_demo(wanted, count),
        Command::Expand(file) => is_spelled(wanted, "e", file, ""),
        Command::Strips(file) => is_spelled(wanted, "st", file, ""),
        Command::Cost(file) => is_spelled(wanted, "o", file, ""),
        Command::Judge(file, log, 2) => is_spelled(wanted, "j2", file, log),
        Command::Judge(file, log, _) => is_spelled(wanted, "j", file, log),
    }
}

fn is_asked(alloc: Global, words: &[String], wanted: &str) -> bool {
    match command_in(alloc, words) {
        Ok(Some(command)) => is_command(wanted, &command),
        Ok(None) => wanted == "-",
        Err(_) => false,
    }
}

/// Whether the words before an arrow ask for what stands behind it.
fn is_so(alloc: Global, row: &str) -> bool {
    let Some((line, wanted)) = row.split_once(" => ") else {
        return false;
    };
    match words(alloc, line) {
        Ok(words) => is_asked(alloc, words.as_slice(), wanted),
        Err(_) => false,
    }
}

#[test]
fn reads_commands(rt: HostRuntime) {
    for row in COMMANDS.lines() {
        assert!(rt; is_so(rt.alloc(), row), "{row}");
    }
}
