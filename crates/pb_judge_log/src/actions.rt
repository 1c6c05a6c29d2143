//! The action of one line.

ghost use Rattle.std.specs.Prelude.{◌≡◌, IfOk};
ghost use Rattle.pb_text.specs.declared.action.Action.TheVariants as A;
ghost use Rattle.pb_judge_log.specs.Kept.{AreKept, rows_in};
ghost use Rattle.pb_judge_log.specs.Reading.{Gives, fields, fields_behind, verb_in, choose_in, run_in, message_in, joint_in, deed_in, done_in, begun_in, completed, alone, entry_in, payload_of, told_with};

use crate::carried::words;
use crate::fields::{next, split};
use crate::numbers::number;
use crate::tables::Tables;
use pb_core_language::KernelKind;
use pb_syntax::Payload;
use pb_text::{Action, Joint, NoMemory, Words};
use std::alloc::Global;

/// What a rank does, by the second field of its line.
#[derive(Clone, Copy)]
pub enum Verb {
    Choose,
    Run,
    Send,
    Recv,
    Enter,
    Leave,
}

/// An action without its rank and its words.
#[derive(Clone, Copy)]
pub enum Deed {
    Choose { kernel: u32, answer: u32 },
    Run { kernel: u32 },
    Send { to: u32, label: u32 },
    Recv { from: u32, label: u32 },
    Enter { what: Joint },
    Leave { what: Joint },
}

/// The action that a line is, None where it is none. The line stands without its line feed.
pub fn entry(alloc: Global, tables: &Tables, line: &[u8]) -> Result<Option<Action>, NoMemory>
    requires { AreKept tables.now }
    ensures { IfOk result (λ o. o ≡ entry_in (rows_in tables.now) tables.now.total (fields line.now)) }
{
    match begun(tables, line) {
        None => Ok(None),
        Some((rank, deed, rest)) => completed(alloc, tables, rank, deed, rest),
    }
}

/// The rank and what it does, and the fields behind that.
fn begun<'a>(tables: &Tables, line: &'a [u8]) -> Option<(u32, Deed, &'a [u8])>
    requires { AreKept tables.now }
    ensures { Gives (λ x. ((x.0, x.1), fields_behind x.2.now)) result (begun_in (rows_in tables.now) tables.now.total (fields line.now)) }
{
    let (field, rest) = split(line);
    let rank = tables.rank(field)?;
    let (deed, rest) = done(tables, rest)?;
    Some((rank, deed, rest))
}

fn done<'a>(tables: &Tables, rest: &'a [u8]) -> Option<(Deed, &'a [u8])>
    requires { AreKept tables.now }
    ensures { Gives (λ x. (x.0, fields_behind x.1.now)) result (done_in (rows_in tables.now) tables.now.total (fields_behind rest.now)) }
{
    let (word, rest) = next(rest)?;
    let verb = verb_of(word)?;
    deed_by(tables, verb, rest)
}

fn verb_of(word: &[u8]) -> Option<Verb>
    ensures { result ≡ verb_in word.now }
{
    if word == b"choose".as_slice() {
        Some(Verb::Choose)
    } else if word == b"run".as_slice() {
        Some(Verb::Run)
    } else if word == b"send".as_slice() {
        Some(Verb::Send)
    } else if word == b"recv".as_slice() {
        Some(Verb::Recv)
    } else if word == b"enter".as_slice() {
        Some(Verb::Enter)
    } else if word == b"leave".as_slice() {
        Some(Verb::Leave)
    } else {
        None
    }
}

fn deed_by<'a>(tables: &Tables, verb: Verb, rest: &'a [u8]) -> Option<(Deed, &'a [u8])>
    requires { AreKept tables.now }
    ensures { Gives (λ x. (x.0, fields_behind x.1.now)) result (deed_in (rows_in tables.now) tables.now.total verb (fields_behind rest.now)) }
{
    match verb {
        Verb::Choose => choose(tables, rest),
        Verb::Run => run(tables, rest),
        Verb::Send => {
            let ((to, label), rest) = message(tables, rest)?;
            Some((Deed::Send { to, label }, rest))
        }
        Verb::Recv => {
            let ((from, label), rest) = message(tables, rest)?;
            Some((Deed::Recv { from, label }, rest))
        }
        Verb::Enter => {
            let (what, rest) = joint(tables, rest)?;
            Some((Deed::Enter { what }, rest))
        }
        Verb::Leave => {
            let (what, rest) = joint(tables, rest)?;
            Some((Deed::Leave { what }, rest))
        }
    }
}

fn choose<'a>(tables: &Tables, rest: &'a [u8]) -> Option<(Deed, &'a [u8])>
    requires { AreKept tables.now }
    ensures { Gives (λ x. (x.0, fields_behind x.1.now)) result (choose_in (rows_in tables.now) tables.now.total (fields_behind rest.now)) }
{
    let (name, rest) = next(rest)?;
    let kernel = tables.kernel(KernelKind::Choice, name)?;
    let (field, rest) = next(rest)?;
    let answer = number(4_294_967_296, field)?;
    Some((Deed::Choose { kernel, answer }, rest))
}

fn run<'a>(tables: &Tables, rest: &'a [u8]) -> Option<(Deed, &'a [u8])>
    requires { AreKept tables.now }
    ensures { Gives (λ x. (x.0, fields_behind x.1.now)) result (run_in (rows_in tables.now) tables.now.total (fields_behind rest.now)) }
{
    let (name, rest) = next(rest)?;
    let kernel = tables.kernel(KernelKind::Compute, name)?;
    Some((Deed::Run { kernel }, rest))
}

fn message<'a>(tables: &Tables, rest: &'a [u8]) -> Option<((u32, u32), &'a [u8])>
    requires { AreKept tables.now }
    ensures { Gives (λ x. (x.0, fields_behind x.1.now)) result (message_in (rows_in tables.now) tables.now.total (fields_behind rest.now)) }
{
    let (field, rest) = next(rest)?;
    let peer = tables.rank(field)?;
    let (name, rest) = next(rest)?;
    let label = tables.label(name)?;
    Some(((peer, label), rest))
}

fn joint<'a>(tables: &Tables, rest: &'a [u8]) -> Option<(Joint, &'a [u8])>
    requires { AreKept tables.now }
    ensures { Gives (λ x. (x.0, fields_behind x.1.now)) result (joint_in (rows_in tables.now) tables.now.total (fields_behind rest.now)) }
{
    let (name, rest) = next(rest)?;
    if name == b"barrier".as_slice() {
        return Some((Joint::Barrier, rest));
    }
    let label = tables.label(name)?;
    Some((Joint::Labelled(label), rest))
}

/// The action with the words that are left.
fn completed(
    alloc: Global,
    tables: &Tables,
    rank: u32,
    deed: Deed,
    rest: &[u8],
) -> Result<Option<Action>, NoMemory>
    requires { AreKept tables.now }
    ensures { IfOk result (λ o. o ≡ completed (rows_in tables.now) tables.now.total rank deed (fields_behind rest.now)) }
{
    match deed {
        Deed::Choose { kernel, answer } => Ok(alone(
            Action::Choose {
                rank,
                kernel,
                answer,
            },
            rest,
        )),
        Deed::Run { kernel } => Ok(alone(Action::Run { rank, kernel }, rest)),
        Deed::Send { to, label } => {
            let words = words(alloc, tables.payload(label), rest)?;
            Ok(send(rank, to, label, words))
        }
        Deed::Recv { from, label } => {
            let words = words(alloc, tables.payload(label), rest)?;
            Ok(recv(rank, from, label, words))
        }
        Deed::Enter { what } => {
            let words = words(alloc, carried(tables, what), rest)?;
            Ok(enter(rank, what, words))
        }
        Deed::Leave { what } => {
            let words = words(alloc, carried(tables, what), rest)?;
            Ok(leave(rank, what, words))
        }
    }
}

/// The action, where no field is left.
fn alone(action: Action, rest: &[u8]) -> Option<Action>
    ensures { result ≡ alone action (fields_behind rest.now) }
{
    match next(rest) {
        None => Some(action),
        Some(_) => None,
    }
}

fn send(rank: u32, to: u32, label: u32, words: Option<Words>) -> Option<Action>
    ensures { result ≡ told_with (A.Send rank to label) words }
{
    let words = words?;
    Some(Action::Send {
        rank,
        to,
        label,
        words,
    })
}

fn recv(rank: u32, from: u32, label: u32, words: Option<Words>) -> Option<Action>
    ensures { result ≡ told_with (A.Recv rank from label) words }
{
    let words = words?;
    Some(Action::Recv {
        rank,
        from,
        label,
        words,
    })
}

fn enter(rank: u32, what: Joint, words: Option<Words>) -> Option<Action>
    ensures { result ≡ told_with (A.Enter rank what) words }
{
    let words = words?;
    Some(Action::Enter { rank, what, words })
}

fn leave(rank: u32, what: Joint, words: Option<Words>) -> Option<Action>
    ensures { result ≡ told_with (A.Leave rank what) words }
{
    let words = words?;
    Some(Action::Leave { rank, what, words })
}

/// What is carried in a collective.
fn carried(tables: &Tables, what: Joint) -> Payload
    requires { AreKept tables.now }
    ensures { result ≡ payload_of (rows_in tables.now) tables.now.total what }
{
    match what {
        Joint::Barrier => Payload::Unit,
        Joint::Labelled(label) => tables.payload(label),
    }
}
