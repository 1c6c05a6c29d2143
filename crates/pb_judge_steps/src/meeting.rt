ghost use Rattle.std.specs.Prelude.{◌≡◌, ◌≢◌, ℕ, List, ◌∷◌, [], MatchOption};
ghost use Rattle.pb_text.specs.declared.action.Action as A;
ghost use Rattle.pb_judge_lists.specs.Places.{left_of, Begins};
ghost use Rattle.pb_judge_steps.specs.Deeds.{entry_of};
ghost use Rattle.pb_judge_steps.specs.Met.{Told, Met};

use crate::deed::Deed;
use pb_judge_lists::Lists;
use pb_text::Action;

/// The first entry that a rank has left, by its line, where the rank does something else.
#[derive(Clone, Copy)]
pub struct Difference {
    pub rank: u32,
    pub line: u32,
}

/// The line of an entry, where it says something else than this deed of the rank.
#[tactic(auto, using(crate::proofs::Saying::says, crate::proofs::Saying::says_not))]
fn differing(entry: &(u32, Action), rank: u32, deed: &Deed) -> Option<u32>
    ensures { MatchOption result (entry.now.1 ≡ entry_of rank deed.now) (λ line. (line ≡ entry.now.0) × (entry_of rank deed.now ≢ entry.now.1)) }
{
    if deed.is(rank, &entry.1) {
        None
    } else {
        Some(entry.0)
    }
}

/// The line of the first entry that a rank has left, where it says something else than this deed.
#[tactic(auto, using(crate::proofs::Meetings::no_entry, crate::proofs::Meetings::one_entry))]
fn told(first: Option<&(u32, Action)>, rank: u32, deed: &Deed) -> Option<u32>
    ensures { (entries : List (ℕ × A.Action)) → MatchOption first.entry (entries ≡ []) (λ entry. Begins entries entry.now) → Told entries (entry_of rank deed.now) result }
{
    match first {
        None => None,
        Some(entry) => differing(entry, rank, deed),
    }
}

/// The rank does this. None exactly where its first entry says so, or where it has none left.
pub fn meet(lists: &mut Lists, rank: u32, deed: &Deed) -> Option<Difference>
    ensures met { Met (entry_of rank deed.now ∷ []) (left_of lists.old) result (left_of lists.new) }
    ensures log { lists.new.log ≡ lists.old.log }
{
    match told(lists.first(rank), rank, deed) {
        Some(line) => Some(Difference { rank, line }),
        None => {
            lists.pass(rank);
            None
        }
    }
}
