//! Words, read leniently.

use crate::command::Verb;
use crate::options::{Choice, is_within};
use pb_text::NoMemory;
use std::alloc::Global;

/// Why words are in no form.
#[derive(Clone, Copy)]
pub enum Wrong<'a> {
    NoCommand,
    NotBehind,
    UnknownCommand(&'a str),
    UnknownOption(&'a str),
    NoValue(Choice),
    BadValue(Choice, &'a [u8]),
    Twice(Choice),
    NotHere(Choice, Verb),
    Missing(&'static str, Verb),
    TooMany(&'a str, Verb),
    NoN(Verb),
    BadK(&'a str),
}

/// An option with its value.
#[derive(Clone, Copy)]
pub struct Given<'a> {
    pub option: Choice,
    pub value: &'a [u8],
}

/// The words, told apart.
#[derive(Drop)]
pub struct Reading<'a> {
    /// The command's word.
    pub command: Option<&'a str>,
    /// The words behind it that are no options.
    pub files: Vec<&'a str>,
    /// The options.
    pub options: Vec<Given<'a>>,
    /// The first thing that doesn't fit, where it is seen word by word.
    pub wrong: Option<Wrong<'a>>,
    /// The option that waits for its value.
    waiting: Option<Choice>,
    /// Whether a `--` stood before.
    is_behind: bool,
}

/// The option of this word, and the value behind a `=`.
fn option_of(word: &[u8]) -> Option<(Choice, Option<&[u8]>)> {
    for option in Choice::all() {
        let Some(rest) = word.strip_prefix(option.name().as_bytes()) else {
            continue;
        };
        match rest.split_first() {
            None => return Some((*option, None)),
            Some((b'=', value)) if option.takes_value() => return Some((*option, Some(value))),
            Some(_) => {}
        }
    }
    None
}

/// Whether the word is an option's, by its form.
fn is_option(word: &[u8]) -> bool {
    word.len() >= 2 && word.first() == Some(&b'-')
}

impl<'a> Reading<'a> {
    /// Notes what doesn't fit. The first counts.
    fn note(&mut self, wrong: Wrong<'a>) {
        if self.wrong.is_none() {
            self.wrong = Some(wrong);
        }
    }

    fn give(&mut self, option: Choice, value: &'a [u8]) -> Result<(), NoMemory> {
        self.options.push(Given { option, value })?;
        Ok(())
    }

    fn plain(&mut self, word: &'a str) -> Result<(), NoMemory> {
        if self.command.is_none() {
            self.command = Some(word);
            return Ok(());
        }
        self.files.push(word)?;
        Ok(())
    }

    fn option(&mut self, word: &'a str) -> Result<(), NoMemory> {
        match option_of(word.as_bytes()) {
            None => {
                self.note(Wrong::UnknownOption(word));
                Ok(())
            }
            Some((option, Some(value))) => self.give(option, value),
            Some((option, None)) => {
                if option.takes_value() {
                    self.waiting = Some(option);
                    return Ok(());
                }
                self.give(option, &[])
            }
        }
    }

    fn value(&mut self, option: Choice, word: &'a str) -> Result<(), NoMemory> {
        self.waiting = None;
        if word.as_bytes().first() == Some(&b'-') {
            self.note(Wrong::NoValue(option));
            return Ok(());
        }
        self.give(option, word.as_bytes())
    }

    fn word(&mut self, word: &'a str) -> Result<(), NoMemory> {
        if let Some(option) = self.waiting {
            return self.value(option, word);
        }
        if self.is_behind {
            return self.plain(word);
        }
        if word == "--" {
            self.is_behind = true;
            if self.command.is_none() {
                self.note(Wrong::NotBehind);
            }
            return Ok(());
        }
        if is_option(word.as_bytes()) {
            return self.option(word);
        }
        self.plain(word)
    }

    /// How often the option is there.
    fn count(&self, option: Choice) -> usize {
        let mut count = 0usize;
        for given in self.options.as_slice() {
            if given.option == option {
                count = count.saturating_add(1);
            }
        }
        count
    }

    /// What is wrong with an option of this command.
    fn wrong_value(&self, given: &Given<'a>, verb: Verb) -> Option<Wrong<'a>> {
        let option = given.option;
        if !option.goes_with(verb) {
            return Some(Wrong::NotHere(option, verb));
        }
        if self.count(option) > 1 {
            return Some(Wrong::Twice(option));
        }
        if !option.takes(given.value) {
            return Some(Wrong::BadValue(option, given.value));
        }
        None
    }

    fn wrong_options(&self, verb: Verb) -> Option<Wrong<'a>> {
        for given in self.options.as_slice() {
            if let Some(wrong) = self.wrong_value(given, verb) {
                return Some(wrong);
            }
        }
        if Choice::N.goes_with(verb) && self.count(Choice::N) == 0 {
            return Some(Wrong::NoN(verb));
        }
        None
    }

    fn wrong_files(&self, verb: Verb) -> Option<Wrong<'a>> {
        if let Some(name) = verb.files().get(self.files.len()) {
            return Some(Wrong::Missing(*name, verb));
        }
        if let Some(word) = self.files.get(verb.most()) {
            return Some(Wrong::TooMany(*word, verb));
        }
        if verb == Verb::Demo
            && let Some(word) = self.files.first()
            && !is_within(word.as_bytes(), 1, 4000)
        {
            return Some(Wrong::BadK(*word));
        }
        None
    }

    /// The command, where it is one.
    pub fn verb(&self) -> Option<Verb> {
        Verb::of(self.command?)
    }

    /// The first word that looks like an option and is none.
    pub fn wrong_option(&self) -> Option<&'a str> {
        match &self.wrong {
            Some(Wrong::UnknownOption(word)) => Some(*word),
            _ => None,
        }
    }

    /// What doesn't fit, if something is seen that doesn't.
    pub fn first_wrong(&self) -> Option<Wrong<'a>> {
        if let Some(wrong) = &self.wrong {
            return Some(*wrong);
        }
        if let Some(option) = self.waiting {
            return Some(Wrong::NoValue(option));
        }
        let Some(command) = self.command else {
            return Some(Wrong::NoCommand);
        };
        let Some(verb) = Verb::of(command) else {
            return Some(Wrong::UnknownCommand(command));
        };
        match self.wrong_options(verb) {
            Some(wrong) => Some(wrong),
            None => self.wrong_files(verb),
        }
    }
}

/// Tells the words apart.
pub fn read_words(alloc: Global, words: &[String]) -> Result<Reading<'_>, NoMemory> {
    let mut reading = Reading {
        command: None,
        files: Vec::new(alloc),
        options: Vec::new(alloc),
        wrong: None,
        waiting: None,
        is_behind: false,
    };
    for word in words {
        reading.word(word.as_str())?;
    }
    Ok(reading)
}
