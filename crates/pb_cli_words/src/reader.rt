//! The words, as one simple command of `clap`.

ghost use Rattle.std.specs.Prelude.{◌≡◌, Some, true, false, map, IfOk, option_map};
ghost use Rattle.std.specs.String.{string_bytes};
ghost use Rattle.clap.specs.Words.{app_of, found_of, rows_of, rule_of};
ghost use Rattle.pb_cli_words.specs.Reader.{behind_of, matched, option_rule, reader_app, texts_app, words_app};

use clap::error::ErrorKind;
use clap::{Arg, ArgAction, ArgMatches, Command};
use pb_text::NoMemory;
use std::alloc::{AllocError, Global};

/// An option whose value is a text.
fn text_option<'a>(alloc: Global, name: &'a str) -> Arg<'a>
    ensures rule { rule_of result ≡ option_rule name.entry.now }
    ensures local { result.global ≡ false }
{
    Arg::new(alloc, name).long(name)
}

/// The command's word and the files, with no help and no version.
fn with_words<'a>(alloc: Global) -> Result<Command<'a>, AllocError>
    ensures { IfOk result (λ c. app_of c ≡ words_app) }
{
    let bare = Command::new(alloc, "pabble")
        .no_binary_name(true)
        .disable_help_flag(true)
        .disable_help_subcommand(true)
        .disable_version_flag(true);
    let named = bare.arg(Arg::new(alloc, "command"))?;
    let files = Arg::new(alloc, "files").action(ArgAction::Append);
    named.arg(files)
}

/// With the options that have a value.
fn with_texts<'a>(alloc: Global) -> Result<Command<'a>, AllocError>
    ensures { IfOk result (λ c. app_of c ≡ texts_app) }
{
    with_words(alloc)?
        .arg(text_option(alloc, "n"))?
        .arg(text_option(alloc, "seed"))?
        .arg(text_option(alloc, "turns"))?
        .arg(text_option(alloc, "mode"))
}

/// With the flag.
fn reader<'a>(alloc: Global) -> Result<Command<'a>, AllocError>
    ensures { IfOk result (λ c. app_of c ≡ reader_app) }
{
    let texts = with_texts(alloc)?;
    let schedule = text_option(alloc, "schedule").action(ArgAction::SetTrue);
    texts.arg(schedule)
}

/// The matches of the words, or None where they aren't taken.
pub fn matches_in<'a>(
    alloc: Global,
    words: &'a [String],
) -> Result<Option<ArgMatches<'a>>, NoMemory>
    ensures { IfOk result (λ m. option_map (λ m. rows_of (found_of m)) m ≡ matched (map string_bytes words.now)) }
{
    match reader(alloc)?.try_get_matches_from(words) {
        Ok(matches) => Ok(Some(matches)),
        Err(error) => {
            if error.kind() == ErrorKind::OutOfMemory {
                Err(NoMemory)
            } else {
                Ok(None)
            }
        }
    }
}

/// How many words stand behind the first `--`.
pub fn words_behind(words: &[String]) -> usize
    ensures { result ≡ behind_of (map string_bytes words.now) }
{
    for at in 0..words.len() {
        if words[at].as_str() == "--" {
            return words.len() - at - 1;
        }
    }
    0
}
