//! The message on words.

use crate::command::Verb;
use crate::options::Choice;
use crate::reading::{Reading, Wrong};
use pb_explain_source::{Page, Part};
use pb_text::NoMemory;
use std::alloc::Global;
use strsim::generic_levenshtein;

/// What the statuses mean.
const STATUSES: &str =
    "status: 0 all was written; 1 the protocol is refused; 2 the words are in no form; 3 a file can't be read;
  4 the output can't be written; 5 a limit is passed; 6 no memory; 7 a kernel file doesn't fit; 8 no C text of `gen`;
  9 a schedule doesn't fit; 10 the ranks are stuck; 11 turns are used up; 12 N is out of range;
  14 a call of a subprotocol is wrong; 15 a strip is wrong; 16 the protocol has a loop; 17 the log departs from the protocol;
  18 a line of the log is malformed
manual: README.md, docs/LANGUAGE.md (protocols, the twelve rules), docs/FORMATS.md (commands, files, status lines)
";

fn say_forms(page: &mut Page) -> Result<(), NoMemory> {
    page.say(&[Part::Text("forms:\n")])?;
    for verb in Verb::all() {
        page.say(&[
            Part::Text("  "),
            Part::Text(verb.form()),
            Part::Text("\n      "),
            Part::Text(verb.purpose()),
            Part::Text("\n"),
        ])?;
    }
    page.say(&[Part::Text(
        "A is the number N; B a seed, else 0; C the most events, else 1000000; M `eager`, `waiting` or `mixed`, else `eager`\n",
    )])
}

/// The command that is spelled almost as the word.
fn near(alloc: Global, word: &str) -> Result<Option<Verb>, NoMemory> {
    for verb in Verb::all() {
        if generic_levenshtein(alloc, word.as_bytes(), verb.name().as_bytes())? <= 2 {
            return Ok(Some(*verb));
        }
    }
    Ok(None)
}

fn tell_command(alloc: Global, page: &mut Page, word: &str) -> Result<(), NoMemory> {
    page.say(&[
        Part::Text("there is no command `"),
        Part::Text(word),
        Part::Text("`"),
    ])?;
    match near(alloc, word)? {
        Some(verb) => page.say(&[
            Part::Text("; perhaps `"),
            Part::Text(verb.name()),
            Part::Text("` is meant\n"),
        ]),
        None => page.say(&[Part::Text("\n")]),
    }
}

fn tell_value(page: &mut Page, option: Choice, value: &[u8]) -> Result<(), NoMemory> {
    page.say(&[
        Part::Text("`"),
        Part::Bytes(value),
        Part::Text("` is no value of `"),
        Part::Text(option.name()),
        Part::Text("`: it takes "),
        Part::Text(option.values()),
        Part::Text("\n"),
    ])
}

fn tell_option(page: &mut Page, option: Choice, why: &str) -> Result<(), NoMemory> {
    page.say(&[
        Part::Text("`"),
        Part::Text(option.name()),
        Part::Text("`"),
        Part::Text(why),
        Part::Text("\n"),
    ])
}

fn tell_form<'x>(
    page: &mut Page,
    front: &'x str,
    word: &'x str,
    verb: Verb,
) -> Result<(), NoMemory> {
    page.say(&[
        Part::Text(front),
        Part::Text("`"),
        Part::Text(word),
        Part::Text("`; the form is `"),
        Part::Text(verb.form()),
        Part::Text("`\n"),
    ])
}

fn tell_wrong(alloc: Global, page: &mut Page, wrong: &Wrong) -> Result<(), NoMemory> {
    match wrong {
        Wrong::NoCommand => Ok(()),
        Wrong::NotBehind => page.say(&[Part::Text("the command stands before `--`\n")]),
        Wrong::UnknownCommand(word) => tell_command(alloc, page, word),
        Wrong::UnknownOption(word) => page.say(&[
            Part::Text("there is no option `"),
            Part::Text(word),
            Part::Text("`; a file of that name stands behind `--`\n"),
        ]),
        Wrong::NoValue(option) => tell_option(page, *option, " has no value"),
        Wrong::BadValue(option, value) => tell_value(page, *option, value),
        Wrong::Twice(option) => tell_option(page, *option, " stands twice"),
        Wrong::NotHere(option, verb) => {
            tell_form(page, "this command has no option ", option.name(), *verb)
        }
        Wrong::Missing(name, verb) => tell_form(page, "there is no word for ", name, *verb),
        Wrong::TooMany(word, verb) => tell_form(page, "nothing takes the word ", word, *verb),
        Wrong::NoN(verb) => tell_form(page, "there is no ", "--n A", *verb),
        Wrong::BadK(word) => tell_form(
            page,
            "K is a number from 1 to 4000, and not ",
            word,
            Verb::Demo,
        ),
    }
}

/// Writes which word doesn't fit, and the forms; without words, or where help is asked for, the statuses too.
pub fn tell_usage(alloc: Global, page: &mut Page, reading: &Reading) -> Result<(), NoMemory> {
    let wrong = match &reading.wrong {
        Some(Wrong::UnknownOption("--help")) | Some(Wrong::UnknownOption("-h")) => None,
        _ => reading.first_wrong(),
    };
    match &wrong {
        None | Some(Wrong::NoCommand) => {
            say_forms(page)?;
            page.say(&[Part::Text(STATUSES)])
        }
        Some(wrong) => {
            tell_wrong(alloc, page, wrong)?;
            say_forms(page)
        }
    }
}

/// Writes the program's name and version.
pub fn tell_version(page: &mut Page) -> Result<(), NoMemory> {
    page.say(&[Part::Text("pabble 1\n")])
}
