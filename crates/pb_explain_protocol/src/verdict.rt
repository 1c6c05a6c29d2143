//! Why a protocol isn't accepted.

ghost use Rattle.std.specs.Prelude.{IfErr};
ghost use Rattle.pb_compile.specs.Verdict.{IsVerdict};

use pb_cli_status::{Quantity, Status};
use pb_cli_verdict::refusal_of;
use pb_compile::{LexError, Verdict, accept};
use pb_explain_choice::tell_choice_rule;
use pb_explain_file::tell_file_rule;
use pb_explain_ranks::{Setting, tell_rank_rule};
use pb_explain_source::{NoMemory, Page, Source};
use pb_explain_syntax::{tell_byte, tell_comment, tell_limit, tell_syntax};
use pb_lex::{LexFault, lex};
use pb_parse::{ParseFault, parse};
use pb_syntax::FileTree;
use pb_text::{MOST_TEXT_BYTES, Name, Place, Token};
use std::alloc::Global;

/// Whether the compiler accepts the bytes, and else its verdict on them.
pub fn verdict_on(alloc: Global, bytes: &[u8]) -> Result<(), Verdict>
    ensures { IfErr result (IsVerdict bytes.now) }
{
    if bytes.len() > MOST_TEXT_BYTES as usize {
        return Ok(());
    }
    let _core = accept(alloc, bytes)?;
    Ok(())
}

/// The tree of a protocol file, where it has one.
pub fn tree_of(alloc: Global, bytes: &[u8]) -> Result<Option<FileTree>, NoMemory> {
    if bytes.len() > MOST_TEXT_BYTES as usize {
        return Ok(None);
    }
    match parse(alloc, bytes) {
        Ok(file) => Ok(Some(file)),
        Err(ParseFault::NoMemory) => Err(NoMemory),
        Err(_) => Ok(None),
    }
}

/// The tokens of a protocol file, where all its bytes are in some.
fn tokens_of(alloc: Global, bytes: &[u8]) -> Result<Option<Vec<Token>>, NoMemory> {
    if bytes.len() > MOST_TEXT_BYTES as usize {
        return Ok(None);
    }
    match lex(alloc, bytes) {
        Ok(tokens) => Ok(Some(tokens)),
        Err(LexFault::NoMemory) => Err(NoMemory),
        Err(LexFault::Bad(_)) => Ok(None),
    }
}

fn tell_lexical(page: &mut Page, source: &Source, error: LexError) -> Result<(), NoMemory> {
    match error {
        LexError::BadByte(place) => tell_byte(page, source, place),
        LexError::OpenComment(place) => tell_comment(page, place),
        LexError::NumberTooLarge(place) => {
            tell_limit(page, source, Quantity::NumberSize, Some(place))
        }
        LexError::NameTooLong(place) => {
            tell_limit(page, source, Quantity::NameLength, Some(place))
        }
    }
}

fn tell_unexpected(
    alloc: Global,
    page: &mut Page,
    source: &Source,
    place: Place,
) -> Result<(), NoMemory> {
    match tokens_of(alloc, source.bytes)? {
        Some(tokens) => tell_syntax(alloc, page, tokens.as_slice(), place),
        None => Ok(()),
    }
}

/// Where a rule is broken.
#[derive(Clone, Copy)]
struct Breach {
    rule: u8,
    place: Place,
    n: Option<i64>,
    at: Option<(Name, i64)>,
}

fn tell_setting(
    alloc: Global,
    page: &mut Page,
    setting: &Setting,
    breach: Breach,
) -> Result<(), NoMemory> {
    match (breach.rule, breach.at) {
        (10 | 11 | 12, Some((role, index))) => tell_choice_rule(
            alloc,
            page,
            setting,
            breach.rule,
            breach.place,
            role,
            index,
        ),
        (rule, at) => tell_rank_rule(alloc, page, setting, rule, breach.place, at),
    }
}

fn tell_broken(
    alloc: Global,
    page: &mut Page,
    source: &Source,
    breach: Breach,
) -> Result<(), NoMemory> {
    let Some(file) = tree_of(alloc, source.bytes)? else {
        return Ok(());
    };
    match breach.n {
        None => tell_file_rule(alloc, page, &file, breach.rule, breach.place),
        Some(n) => {
            let setting = Setting { file: &file, n };
            tell_setting(alloc, page, &setting, breach)
        }
    }
}

/// A rank, where its role and its index are told.
fn rank_of(role: Option<Name>, index: Option<i64>) -> Option<(Name, i64)> {
    Some((role?, index?))
}

/// Writes what a verdict means.
fn tell_verdict(
    alloc: Global,
    page: &mut Page,
    source: &Source,
    verdict: &Verdict,
) -> Result<(), NoMemory> {
    match verdict {
        Verdict::Lex(error) => tell_lexical(page, source, *error),
        Verdict::Unexpected(place) => tell_unexpected(alloc, page, source, *place),
        Verdict::TooDeep(place) => tell_limit(page, source, Quantity::Nesting, Some(*place)),
        Verdict::TooMany(quantity, place) => tell_limit(page, source, *quantity, Some(*place)),
        Verdict::Broken {
            rule,
            place,
            n,
            role,
            index,
        } => {
            let breach = Breach {
                rule: *rule,
                place: *place,
                n: *n,
                at: rank_of(*role, *index),
            };
            tell_broken(alloc, page, source, breach)
        }
        Verdict::TooManyCases => tell_limit(page, source, Quantity::Breakpoints, None),
        Verdict::NoMemory => Err(NoMemory),
    }
}

/// The status with which the program ends for a verdict.
fn status_of(verdict: &Verdict) -> Status {
    let refusal = refusal_of(*verdict);
    refusal.status()
}

/// Writes what a verdict means, where the program ends with this status for it.
fn tell_due(
    alloc: Global,
    page: &mut Page,
    source: &Source,
    status: Status,
    verdict: &Verdict,
) -> Result<(), NoMemory> {
    if status_of(verdict) == status {
        tell_verdict(alloc, page, source, verdict)
    } else {
        Ok(())
    }
}

/// Writes why a protocol isn't accepted, where the program ends with this status for it. Tells whether it isn't.
pub fn tell_refused(
    alloc: Global,
    page: &mut Page,
    source: &Source,
    status: Status,
) -> Result<bool, NoMemory> {
    match verdict_on(alloc, source.bytes) {
        Ok(()) => Ok(false),
        Err(verdict) => {
            tell_due(alloc, page, source, status, &verdict)?;
            Ok(true)
        }
    }
}
