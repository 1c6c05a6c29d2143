//! For each rank the place of its next entry, and for each entry the place of its rank's next one.

ghost use Rattle.std.specs.Prelude.{◌≡◌, ◌<◌, length, replicate, get_or};
ghost use Rattle.pb_world.specs.Log.{rank_of};
ghost use Rattle.pb_judge_ruling.specs.Laws.{HasRanks};
ghost use Rattle.pb_judge_lists.specs.Places.{AreLinked};

use pb_text::Action;

/// The rank that acts.
pub fn rank_of(action: &Action) -> u32
    ensures { result ≡ rank_of action.now }
{
    match action {
        Action::Choose { rank, .. }
        | Action::Run { rank, .. }
        | Action::Send { rank, .. }
        | Action::Recv { rank, .. }
        | Action::Enter { rank, .. }
        | Action::Leave { rank, .. } => *rank,
    }
}

/// The place in a list of places, and `none` behind the list.
pub fn place_at(places: &[usize], at: usize, none: usize) -> usize
    ensures { result ≡ get_or places.now at none }
{
    if at < places.len() { places[at] } else { none }
}

/// Links the entries of a log, of so many ranks, where nothing is linked.
pub fn link(log: &[(u32, Action)], next: &mut [usize], after: &mut [usize])
    requires next { next.old ≡ replicate (length next.old) (length log.now) }
    requires after { after.old ≡ replicate (length log.now) (length log.now) }
    requires ranks { HasRanks (length next.old) log.now }
    ensures next { length next.new ≡ length next.old }
    ensures after { length after.new ≡ length after.old }
    ensures linked { AreLinked log.now 0 next.new after.new }
{
    let mut at = log.len();
    while at > 0 {
        at -= 1;
        let rank = rank_of(&log[at].1) as usize;
        after[at] = next[rank];
        next[rank] = at;
    }
}

/// The line of an entry.
pub fn line_of(entry: &(u32, Action)) -> u32
    ensures { result ≡ entry.now.0 }
{
    entry.0
}
