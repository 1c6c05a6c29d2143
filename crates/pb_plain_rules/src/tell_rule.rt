ghost use Rattle.std.specs.Prelude.{◌≡◌, ◌++◌, map, IfOk};
ghost use Rattle.pb_core_language.specs.Lists.{is_among, none_shared};
ghost use Rattle.pb_core_language.specs.Outcomes.{only_receives, only_from, source_of, comes_from_one, labels_of};
ghost use Rattle.pb_plain.specs.Finds.{outcome_of};

use crate::{NoMemory, Outcome};
use std::alloc::Global;

/// A rule on what a rank that is told of a choice finds first in its branches.
#[derive(Clone, Copy)]
pub enum TellRule {
    /// It finds only receives.
    ReceivesOnly,
    /// All receives are from one rank.
    OneSource,
    /// No label of theirs is one of an earlier branch.
    OwnLabels,
}

impl TellRule {
    ghost use Rattle.pb_plain_rules.specs.Fits.{fits};

    /// Whether what a rank finds first in a branch fits, beside what it finds first in the branches before.
    pub fn fits(self, alloc: Global, before: &[Outcome], here: &[Outcome]) -> Result<bool, NoMemory>
        ensures { IfOk result (λ b. b ≡ fits self (map outcome_of before.now) (map outcome_of here.now)) }
    {
        match self {
            TellRule::ReceivesOnly => Ok(only_receives(here)),
            TellRule::OneSource => {
                let all = joined(alloc, before, here)?;
                Ok(comes_from_one(&all) || !comes_from_one(before))
            }
            TellRule::OwnLabels => Ok(none_shared(here, before)),
        }
    }
}

/// The outcomes of both, in order.
pub fn joined(
    alloc: Global,
    first: &[Outcome],
    second: &[Outcome],
) -> Result<Vec<Outcome>, NoMemory>
    ensures { IfOk result (λ v. map outcome_of v.items ≡ map outcome_of first.now ++ map outcome_of second.now) }
{
    let mut list = Vec::new(alloc);
    list.extend_from_slice(first)?;
    list.extend_from_slice(second)?;
    Ok(list)
}

fn only_receives(outcomes: &[Outcome]) -> bool
    ensures { result ≡ only_receives (map outcome_of outcomes.now) }
{
    for outcome in outcomes {
        match outcome {
            Outcome::Receive { .. } => {}
            Outcome::Nothing | Outcome::Other | Outcome::Again => return false,
        }
    }
    true
}

fn comes_from_one(outcomes: &[Outcome]) -> bool
    ensures { result ≡ comes_from_one (map outcome_of outcomes.now) }
{
    only_from(outcomes, source_of(outcomes))
}

fn source_of(outcomes: &[Outcome]) -> u64
    ensures { result ≡ source_of (map outcome_of outcomes.now) }
{
    for outcome in outcomes {
        match outcome {
            Outcome::Receive { from, .. } => return *from,
            Outcome::Nothing | Outcome::Other | Outcome::Again => {}
        }
    }
    0
}

fn only_from(outcomes: &[Outcome], source: u64) -> bool
    ensures { result ≡ only_from source (map outcome_of outcomes.now) }
{
    for outcome in outcomes {
        match outcome {
            Outcome::Receive { from, .. } => {
                if *from != source {
                    return false;
                }
            }
            Outcome::Nothing | Outcome::Other | Outcome::Again => {}
        }
    }
    true
}

fn none_shared(here: &[Outcome], before: &[Outcome]) -> bool
    ensures { result ≡ none_shared (labels_of (map outcome_of here.now)) (labels_of (map outcome_of before.now)) }
{
    for outcome in here {
        match outcome {
            Outcome::Receive { label, .. } => {
                if is_label(before, *label) {
                    return false;
                }
            }
            Outcome::Nothing | Outcome::Other | Outcome::Again => {}
        }
    }
    true
}

fn is_label(outcomes: &[Outcome], label: u32) -> bool
    ensures { result ≡ is_among label (labels_of (map outcome_of outcomes.now)) }
{
    for outcome in outcomes {
        match outcome {
            Outcome::Receive { label: other, .. } => {
                if *other == label {
                    return true;
                }
            }
            Outcome::Nothing | Outcome::Other | Outcome::Again => {}
        }
    }
    false
}
