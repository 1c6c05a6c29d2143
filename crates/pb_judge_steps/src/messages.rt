ghost use Rattle.std.specs.Prelude.{◌≡◌, ◌∷◌, []};
ghost use Rattle.pb_text.specs.declared.action.Action.TheVariants as E;
ghost use Rattle.pb_judge_lists.specs.Places.{left_of};
ghost use Rattle.pb_judge_steps.specs.Met.{Met, Chosen, words_sent, branch_taken};

use crate::deed::Deed;
use crate::made::{first_branch, first_words};
use crate::meeting::{Difference, meet};
use pb_judge_lists::Lists;

/// A message with so many words: its send, and then its receive with the same words.
pub fn message(lists: &mut Lists, from: u32, to: u32, label: u32, size: u32) -> Option<Difference>
    ensures met { Met (E.Send from to label (words_sent (left_of lists.old) from size) ∷ E.Recv to from label (words_sent (left_of lists.old) from size) ∷ []) (left_of lists.old) result (left_of lists.new) }
    ensures log { lists.new.log ≡ lists.old.log }
{
    let words = first_words(lists.first(from), size);
    let send = Deed::Send { to, label, words };
    match meet(lists, from, &send) {
        Some(difference) => Some(difference),
        None => meet(lists, to, &Deed::Recv { from, label, words }),
    }
}

/// A rank computes.
pub fn compute(lists: &mut Lists, at: u32, kernel: u32) -> Option<Difference>
    ensures met { Met (E.Run at kernel ∷ []) (left_of lists.old) result (left_of lists.new) }
    ensures log { lists.new.log ≡ lists.old.log }
{
    meet(lists, at, &Deed::Run { kernel })
}

/// The branch that a rank takes of so many, where the other one is taken without an answer.
pub fn choose(
    lists: &mut Lists,
    at: u32,
    kernel: u32,
    count: usize,
    otherwise: usize,
) -> Result<usize, Difference>
    ensures chosen { Chosen at kernel (branch_taken (left_of lists.old) at count otherwise) (left_of lists.old) result (left_of lists.new) }
    ensures log { lists.new.log ≡ lists.old.log }
{
    let branch = first_branch(lists.first(at), count, otherwise);
    match meet(lists, at, &Deed::Choose { kernel, branch }) {
        Some(difference) => Err(difference),
        None => Ok(branch),
    }
}
