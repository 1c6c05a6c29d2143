//! The commands of the program.

ghost use Rattle.std.specs.Prelude.{◌≡◌, Bool, Some, map, IfOk, IfSome, option_copied, option_map};
ghost use Rattle.std.specs.String.{string_bytes};
ghost use Rattle.pb_cli_words.specs.Request.{AsksForFew, asked, demo_in, gen_in, gen_of, judge_in, of_file, one_file, plain_file, replay_in, request, request_if, run_in, sim_in, two_files};
ghost use Rattle.clap.specs.Words.{found_of, rows_of};
ghost use Rattle.pb_cli_words.specs.Reader.{IsFlag, asked_by, asked_for};
ghost use Rattle.pb_cli_words.specs.Shown.{options_of};

use crate::given::Given;
use crate::number::number_in;
use crate::options::{Options, only_n, options_in};
use crate::reader::{matches_in, words_behind};
use clap::ArgMatches;
use pb_text::NoMemory;
use std::alloc::Global;

/// What the words after the program's name ask for.
#[derive(Clone, Copy)]
pub enum Command<'a> {
    /// `check FILE`: whether the protocol in FILE is accepted.
    Check(&'a str),
    /// `gen FILE`: the C text of the protocol in FILE.
    Gen(&'a str),
    /// `gen FILE KERNELS`: the same with the bodies of the kernel file KERNELS.
    GenWith(&'a str, &'a str),
    /// `project FILE`: the endpoint program of the protocol in FILE.
    Project(&'a str),
    /// `sim TEXT` with options: a simulation of the C text in TEXT.
    Sim(&'a str, Options),
    /// `replay TEXT SCHEDULE --n A`: a simulation of the C text in TEXT by the schedule in SCHEDULE, with N from 0 to
    /// 2,000,000,000.
    Replay(&'a str, &'a str, u32),
    /// `run FILE` with options: a simulation of the protocol in FILE.
    Run(&'a str, Options),
    /// `demo K`: a simulation of a protocol of K statements, from 1 to 4,000, that the program makes itself.
    Demo(u32),
    /// `expand FILE`: the protocol file that a file with subprotocols stands for.
    Expand(&'a str),
    /// `strips FILE`: the protocol file that a file with strips stands for.
    Strips(&'a str),
    /// `cost FILE`: how much the protocol in FILE sends at least and at most.
    Cost(&'a str),
    /// `judge FILE LOG --n A`: the ruling on the log in LOG of the protocol in FILE, with N from 0 to 2,000,000,000.
    Judge(&'a str, &'a str, u32),
}

/// The most statements of a demo.
const MOST_STATEMENTS: u64 = 4_000;

fn one_file<'a>(files: &[&'a str]) -> Option<&'a str>
    ensures { option_copied result ≡ one_file (map (λ f. f.now) files.now) }
{
    match files {
        [file] => Some(*file),
        _ => None,
    }
}

fn two_files<'a>(files: &[&'a str]) -> Option<(&'a str, &'a str)>
    ensures { option_map (λ p. (p.0.now, p.1.now)) result ≡ two_files (map (λ f. f.now) files.now) }
{
    match files {
        [first, second] => Some((*first, *second)),
        _ => None,
    }
}

/// The file of a command without options.
#[tactic(auto, using(crate::proofs::Listed::plain_is))]
fn plain_file<'a>(files: &[&'a str], given: &Given) -> Option<&'a str>
    ensures { option_copied result ≡ plain_file (map (λ f. f.now) files.now) (options_of given.now) }
{
    if given.is_empty() {
        one_file(files)
    } else {
        None
    }
}

/// `gen` with a file, or with a file and a kernel file.
fn gen_of<'a>(files: &[&'a str]) -> Option<Command<'a>>
    ensures asked { request_if result ≡ gen_of (map (λ f. f.now) files.now) }
    ensures few { IfSome result AsksForFew }
{
    match files {
        [file] => Some(Command::Gen(*file)),
        [file, kernels] => Some(Command::GenWith(*file, *kernels)),
        _ => None,
    }
}

#[tactic(auto, using(crate::proofs::Listed::gen_is))]
fn gen_in<'a>(files: &[&'a str], given: &Given) -> Option<Command<'a>>
    ensures asked { request_if result ≡ gen_in (map (λ f. f.now) files.now) (options_of given.now) }
    ensures few { IfSome result AsksForFew }
{
    if !given.is_empty() {
        return None;
    }
    gen_of(files)
}

fn sim_in<'a>(files: &[&'a str], given: &Given) -> Option<Command<'a>>
    ensures asked { request_if result ≡ sim_in (map (λ f. f.now) files.now) (options_of given.now) }
    ensures few { IfSome result AsksForFew }
{
    let text = one_file(files)?;
    let options = options_in(given)?;
    Some(Command::Sim(text, options))
}

fn run_in<'a>(files: &[&'a str], given: &Given) -> Option<Command<'a>>
    ensures asked { request_if result ≡ run_in (map (λ f. f.now) files.now) (options_of given.now) }
    ensures few { IfSome result AsksForFew }
{
    let file = one_file(files)?;
    let options = options_in(given)?;
    Some(Command::Run(file, options))
}

fn replay_in<'a>(files: &[&'a str], given: &Given) -> Option<Command<'a>>
    ensures { request_if result ≡ replay_in (map (λ f. f.now) files.now) (options_of given.now) }
{
    let (text, schedule) = two_files(files)?;
    let n = only_n(given)?;
    Some(Command::Replay(text, schedule, n))
}

/// `demo` with a number of statements in the place of a file.
fn demo_in<'a>(files: &[&'a str], given: &Given) -> Option<Command<'a>>
    ensures asked { request_if result ≡ demo_in (map (λ f. f.now) files.now) (options_of given.now) }
    ensures few { IfSome result AsksForFew }
{
    let word = plain_file(files, given)?;
    let count = number_in(word.as_bytes(), 1, MOST_STATEMENTS)?;
    Some(Command::Demo(count as u32))
}

fn judge_in<'a>(files: &[&'a str], given: &Given) -> Option<Command<'a>>
    ensures { request_if result ≡ judge_in (map (λ f. f.now) files.now) (options_of given.now) }
{
    let (file, log) = two_files(files)?;
    let n = only_n(given)?;
    Some(Command::Judge(file, log, n))
}

/// The command of this name that has a file and no options.
fn of_file<'a>(command: &str, file: &'a str) -> Option<Command<'a>>
    ensures asked { request_if result ≡ of_file command.now file.now }
    ensures few { IfSome result AsksForFew }
{
    match command {
        "check" => Some(Command::Check(file)),
        "project" => Some(Command::Project(file)),
        "expand" => Some(Command::Expand(file)),
        "strips" => Some(Command::Strips(file)),
        "cost" => Some(Command::Cost(file)),
        _ => None,
    }
}

/// The command of this name.
fn asked<'a>(command: &str, files: &[&'a str], given: &Given) -> Option<Command<'a>>
    ensures asked { request_if result ≡ asked command.now (map (λ f. f.now) files.now) (options_of given.now) }
    ensures few { IfSome result AsksForFew }
{
    match command {
        "gen" => gen_in(files, given),
        "sim" => sim_in(files, given),
        "replay" => replay_in(files, given),
        "run" => run_in(files, given),
        "demo" => demo_in(files, given),
        "judge" => judge_in(files, given),
        _ => of_file(command, plain_file(files, given)?),
    }
}

/// The command of this name, where at least so many files are there as words stand behind the separator: then the name stands
/// in front of it.
fn asked_for<'a>(
    command: &str,
    files: &[&'a str],
    given: &Given,
    behind: usize,
) -> Option<Command<'a>>
    ensures asked { request_if result ≡ asked_for (Some command.now) (map (λ f. f.now) files.now) (options_of given.now) behind }
    ensures few { IfSome result AsksForFew }
{
    if files.len() < behind {
        None
    } else {
        asked(command, files, given)
    }
}

/// What the matches ask for, with so many words behind the separator.
#[tactic(auto, using(crate::proofs::Rows::asked_rows, crate::proofs::Rows::no_command_rows))]
fn asked_by<'a>(matches: &ArgMatches<'a>, behind: usize) -> Option<Command<'a>>
    ensures asked { (schedule : Bool) → IsFlag (rows_of (found_of matches.now)) schedule → request_if result ≡ asked_by (rows_of (found_of matches.now)) schedule behind }
    ensures few { IfSome result AsksForFew }
{
    let given = Given::new(matches);
    let command = matches.get_str("command")?;
    match matches.get_strs("files") {
        None => asked_for(command, &[], &given, behind),
        Some(files) => asked_for(command, files, &given, behind),
    }
}

/// What the words after the program's name ask for, or None where they are in no form.
///
/// The command is the first word that is neither an option nor an option's value, and stands before any `--`; the other such
/// words are its files, in order. An option stands before `--`, once, as `--n 8` or `--n=8`; a value that is its own word
/// doesn't begin with `-`. Behind `--` every word is a file. Numbers have 1 to 20 decimal digits.
#[tactic(auto, using(crate::proofs::Walked::asks, crate::proofs::Walked::unmatched_asks))]
pub fn command_in(alloc: Global, words: &[String]) -> Result<Option<Command<'_>>, NoMemory>
    ensures asked { IfOk result (λ c. request_if c ≡ request (map string_bytes words.now)) }
    ensures few { IfOk result (λ c. IfSome c AsksForFew) }
{
    match matches_in(alloc, words)? {
        None => Ok(None),
        Some(matches) => Ok(asked_by(&matches, words_behind(words))),
    }
}
