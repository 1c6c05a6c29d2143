use pb_core_language::Place;
use pb_plain::{Ends, Mark, Origin};
use pb_plain_run::{
    Answers, Branches, Collective, CoreLabel, Flat, FullAction, NoMemory, Op, RankAction, RunFault,
    Sequence, Setting, Words, sequential_run,
};
use pb_syntax::{Name, Payload};
use std::alloc::Global;
use std::fmt::Write;

const MARK: Mark = Mark {
    number: 0,
    place: Place { line: 1, col: 1 },
};

const ORIGIN: Origin = Origin {
    mark: MARK,
    ends: Ends::None,
};

fn message(alloc: Global, from: u64, to: u64, label: u32, rest: Flat) -> Result<Flat, NoMemory> {
    Ok(Flat::Message {
        origin: ORIGIN,
        from,
        to,
        label,
        rest: Box::new(alloc, rest)?,
    })
}

fn looped(alloc: Global, body: Flat, rest: Flat) -> Result<Flat, NoMemory> {
    Ok(Flat::Looped {
        origin: ORIGIN,
        body: Box::new(alloc, body)?,
        rest: Box::new(alloc, rest)?,
    })
}

fn branch(alloc: Global, first: Flat, rest: Branches) -> Result<Branches, NoMemory> {
    Ok(Branches::Branch {
        mark: MARK,
        first: Box::new(alloc, first)?,
        rest: Box::new(alloc, rest)?,
    })
}

/// A choice of rank 0, with nothing behind it.
fn choice(alloc: Global, branches: Branches) -> Result<Flat, NoMemory> {
    Ok(Flat::Choice {
        origin: ORIGIN,
        at: 0,
        kernel: 0,
        branches: Box::new(alloc, branches)?,
        rest: Box::new(alloc, Flat::Stop)?,
    })
}

fn label(payload: Payload) -> Result<CoreLabel, NoMemory> {
    let name = Name::of(b"A").ok_or(NoMemory)?;
    Ok(CoreLabel { name, payload })
}

fn add_words(text: &mut String, words: &Words) -> Result<(), NoMemory> {
    for word in words.list() {
        write!(text, " {word}")?;
    }
    Ok(())
}

/// The action, in short.
fn add_action(text: &mut String, done: &RankAction) -> Result<(), NoMemory> {
    let rank = done.rank;
    match &done.action {
        FullAction::Choose { branch, .. } => write!(text, "{rank} takes {branch}")?,
        FullAction::Run { kernel } => write!(text, "{rank} runs {kernel}")?,
        FullAction::Send { to, label, words } => {
            write!(text, "{rank} to {to}: {label}")?;
            add_words(text, words)?;
        }
        FullAction::Recv { from, label, words } => {
            write!(text, "{rank} from {from}: {label}")?;
            add_words(text, words)?;
        }
        FullAction::Enter { words, .. } => {
            write!(text, "{rank} enters")?;
            add_words(text, words)?;
        }
        FullAction::Leave { words, .. } => {
            write!(text, "{rank} leaves")?;
            add_words(text, words)?;
        }
    }
    text.push(';')?;
    Ok(())
}

fn told_actions(alloc: Global, run: &Sequence) -> Result<String, NoMemory> {
    let mut text = String::new(alloc);
    for action in &run.actions {
        add_action(&mut text, action)?;
    }
    Ok(text)
}

/// All actions, and whether the run is over then.
fn told(alloc: Global, run: &Sequence) -> Result<String, NoMemory> {
    let mut text = told_actions(alloc, run)?;
    text.push_str(if run.is_over { "over" } else { "on" })?;
    Ok(text)
}

/// What so many steps of a run with five ranks and no words tell.
fn told_steps(
    alloc: Global,
    protocol: &Flat,
    answers: &[Answers],
    steps: u64,
) -> Result<String, RunFault> {
    let setting = Setting {
        total: 5,
        labels: &[],
    };
    match sequential_run(alloc, &setting, protocol, answers, steps) {
        Ok(run) => Ok(told(alloc, &run)?),
        Err(fault) => Err(fault),
    }
}

/// Messages between these ranks, one after the other.
fn messages(alloc: Global, list: &[(u64, u64)]) -> Result<Flat, NoMemory> {
    let mut built = Flat::Stop;
    for ends in list.iter().rev() {
        built = message(alloc, ends.0, ends.1, 0, built)?;
    }
    Ok(built)
}

/// What so many steps of these messages tell.
fn told_messages(alloc: Global, list: &[(u64, u64)], steps: u64) -> Result<String, RunFault> {
    let protocol = messages(alloc, list)?;
    told_steps(alloc, &protocol, &[], steps)
}

#[test]
fn ring_at_three(rt: HostRuntime) -> Result<(), RunFault> {
    let ring = [(0, 1), (1, 2), (2, 0)];
    let wanted = "0 to 1: 0;1 from 0: 0;1 to 2: 0;2 from 1: 0;2 to 0: 0;0 from 2: 0;over";
    assert!(rt; told_messages(rt.alloc(), &ring, 4)?.as_str() == wanted);
    Ok(())
}

#[test]
fn ring_at_five(rt: HostRuntime) -> Result<(), RunFault> {
    let ring = [(0, 1), (1, 2), (2, 3), (3, 4), (4, 0)];
    let front = "0 to 1: 0;1 from 0: 0;1 to 2: 0;2 from 1: 0;on";
    assert!(rt; told_messages(rt.alloc(), &ring, 2)?.as_str() == front);
    let all = "0 to 1: 0;1 from 0: 0;1 to 2: 0;2 from 1: 0;2 to 3: 0;3 from 2: 0;\
        3 to 4: 0;4 from 3: 0;4 to 0: 0;0 from 4: 0;over";
    assert!(rt; told_messages(rt.alloc(), &ring, 6)?.as_str() == all);
    Ok(())
}

fn branches_of(alloc: Global, branches: &[u32]) -> Result<Vec<Answers>, NoMemory> {
    let branches = Vec::from_slice(alloc, branches)?;
    let words = Vec::new(alloc);
    Ok(vec![in alloc; Answers { branches, words }]?)
}

/// What so many steps of a protocol tell where rank 0 takes these branches.
fn told_branches(
    alloc: Global,
    protocol: Result<Flat, NoMemory>,
    branches: &[u32],
    steps: u64,
) -> Result<String, RunFault> {
    match protocol {
        Ok(protocol) => {
            let answers = branches_of(alloc, branches)?;
            told_steps(alloc, &protocol, &answers, steps)
        }
        Err(error) => Err(RunFault::from(error)),
    }
}

/// A loop with a choice, one branch of which goes on, and a message behind it.
fn chosen(alloc: Global) -> Result<Flat, NoMemory> {
    let on = message(alloc, 0, 1, 0, Flat::Again { between: 0 })?;
    let off = message(alloc, 0, 1, 1, Flat::Stop)?;
    let last = branch(alloc, off, Branches::None)?;
    let body = choice(alloc, branch(alloc, on, last)?)?;
    looped(alloc, body, message(alloc, 2, 3, 2, Flat::Stop)?)
}

// The table has one answer, to go on; then it is used up, and the branch that can end is taken.
#[test]
fn loop_with_a_choice(rt: HostRuntime) -> Result<(), RunFault> {
    let text = told_branches(rt.alloc(), chosen(rt.alloc()), &[0], 20)?;
    let wanted =
        "0 takes 0;0 to 1: 0;1 from 0: 0;0 takes 1;0 to 1: 1;1 from 0: 1;2 to 3: 2;3 from 2: 2;over";
    assert!(rt; text.as_str() == wanted);
    Ok(())
}

/// A loop in a loop, with a choice of which one is continued, or none.
fn nested(alloc: Global) -> Result<Flat, NoMemory> {
    let inner = message(alloc, 0, 1, 1, Flat::Again { between: 0 })?;
    let both = branch(alloc, Flat::Stop, Branches::None)?;
    let outer = branch(alloc, Flat::Again { between: 1 }, both)?;
    let body = choice(alloc, branch(alloc, inner, outer)?)?;
    let inside = looped(alloc, body, Flat::Stop)?;
    looped(alloc, message(alloc, 0, 2, 0, inside)?, Flat::Stop)
}

// First the inner one is continued, then the outer one, and then both are left.
#[test]
fn loops_continue_each_other(rt: HostRuntime) -> Result<(), RunFault> {
    let text = told_branches(rt.alloc(), nested(rt.alloc()), &[0, 1, 2], 30)?;
    let wanted =
        "0 to 2: 0;2 from 0: 0;0 takes 0;0 to 1: 1;1 from 0: 1;0 takes 1;0 to 2: 0;2 from 0: 0;0 takes 2;over";
    assert!(rt; text.as_str() == wanted);
    Ok(())
}

fn one_word(alloc: Global, word: u32) -> Result<Answers, NoMemory> {
    let words = Words::of(vec![in alloc; word]?);
    Ok(Answers {
        branches: Vec::new(alloc),
        words: vec![in alloc; words]?,
    })
}

fn two_words(alloc: Global, first: u32, second: u32) -> Result<Vec<Answers>, NoMemory> {
    let first = one_word(alloc, first)?;
    let second = one_word(alloc, second)?;
    Ok(vec![in alloc; first, second]?)
}

fn together(alloc: Global, joint: Collective) -> Result<Flat, NoMemory> {
    Ok(Flat::Together {
        origin: ORIGIN,
        joint,
        rest: Box::new(alloc, Flat::Stop)?,
    })
}

/// The actions of one collective of two ranks, which enter with these words.
fn told_joint(
    alloc: Global,
    joint: Collective,
    payload: Payload,
    first: u32,
    second: u32,
) -> Result<String, RunFault> {
    let labels = [label(payload)?];
    let setting = Setting {
        total: 2,
        labels: &labels,
    };
    let answers = two_words(alloc, first, second)?;
    let protocol = together(alloc, joint)?;
    match sequential_run(alloc, &setting, &protocol, &answers, 1) {
        Ok(run) => Ok(told_actions(alloc, &run)?),
        Err(fault) => Err(fault),
    }
}

// -1 is below 0.
#[test]
fn maximum_of_signed_words(rt: HostRuntime) -> Result<(), RunFault> {
    let joint = Collective::Allreduce {
        label: 0,
        op: Op::Max,
    };
    let text = told_joint(rt.alloc(), joint, Payload::Int32(1), 4_294_967_295, 0)?;
    assert!(rt; text.as_str() == "0 enters 4294967295;1 enters 0;0 leaves 0;1 leaves 0;");
    Ok(())
}

#[test]
fn sum_that_wraps(rt: HostRuntime) -> Result<(), RunFault> {
    let joint = Collective::Reduce {
        label: 0,
        op: Op::Sum,
        root: 0,
    };
    let text = told_joint(rt.alloc(), joint, Payload::Uint32(1), 4_294_967_295, 2)?;
    assert!(rt; text.as_str() == "0 enters 4294967295;1 enters 2;0 leaves 1;1 leaves;");
    Ok(())
}
