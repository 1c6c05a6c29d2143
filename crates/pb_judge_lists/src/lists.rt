ghost use Rattle.std.specs.Prelude.{◌≡◌, ◌≤◌, ◌∷◌, [], length, IfOk, MatchOption};
ghost use Rattle.pb_judge_follow.specs.Follow.{all_of, passed_by, IsLeastLeft, IsUsedUp};
ghost use Rattle.pb_judge_ruling.specs.Laws.{HasRanks};
ghost use Rattle.pb_judge_lists.specs.Places.{left_of, Begins};

use crate::places::{line_of, link, place_at};
use pb_text::{Action, NoMemory};
use std::alloc::Global;
use std::marker::Model;

/// What each rank has left of its entries in a log.
#[derive(Drop)]
pub struct Lists<'a> {
    log: &'a [(u32, Action)],
    /// For each rank the place of its first entry that is left, else the log's length.
    next: Vec<usize>,
    /// For each entry the place of its rank's next one, else the log's length.
    after: Vec<usize>,
    total: u32,
    used: usize,
    owes: bool,
}

impl<'a> Model for Lists<'a> {
    ghost use Rattle.pb_judge_lists.specs.Places.{Places, AreKept};

    ghost Value = { Places };

    ghost view = { λ l. record { log = l.log.now; next = l.next.items; after = l.after.items; total = l.total; used = l.used; owes = l.owes } };

    ghost invariant = { λ l. AreKept (record { log = l.log.now; next = l.next.items; after = l.after.items; total = l.total; used = l.used; owes = l.owes }) };
}

impl<'a> Lists<'a> {
    /// All entries of a log whose ranks are below `total`. It takes time and memory linear in them and in `total`.
    pub fn of(alloc: Global, log: &'a [(u32, Action)], total: u32) -> Result<Lists<'a>, NoMemory>
        requires { HasRanks total log.now }
        ensures { IfOk result (λ v. left_of v ≡ all_of log.now) }
    {
        let none = log.len();
        let mut next = vec![in alloc; none; total as usize]?;
        let mut after = vec![in alloc; none; none]?;
        link(log, &mut next, &mut after);
        Ok(Lists {
            log,
            next,
            after,
            total,
            used: 0,
            owes: false,
        })
    }

    /// The first entry that the rank has left, with its line. None exactly where it has none.
    pub fn first(&self, rank: u32) -> Option<&'a (u32, Action)>
        ensures { MatchOption result ((left_of self.now).entries rank ≡ []) (λ entry. Begins ((left_of self.now).entries rank) entry.now) }
    {
        let at = place_at(&self.next, rank as usize, self.log.len());
        if at < self.log.len() {
            Some(&self.log[at])
        } else {
            None
        }
    }

    /// The rank passes its first entry, or owes one where none is left.
    pub fn pass(&mut self, rank: u32)
        ensures left { left_of self.new ≡ passed_by rank (left_of self.old) }
        ensures log { self.new.log ≡ self.old.log }
    {
        let none = self.log.len();
        let at = place_at(&self.next, rank as usize, none);
        if at < none {
            self.next[rank as usize] = place_at(&self.after, at, none);
            self.used += 1;
        } else {
            self.owes = true;
        }
    }

    /// How many entries were passed.
    pub fn used(&self) -> usize
        ensures used { result ≡ (left_of self.now).used }
        ensures within { result ≤ length self.now.log }
    {
        self.used
    }

    /// Whether some rank had no entry left to pass.
    pub fn owes(&self) -> bool
        ensures { result ≡ (left_of self.now).owes }
    {
        self.owes
    }

    /// The least rank that has entries left, and the line of its first. None exactly where all are passed.
    pub fn least_left(&self) -> Option<(u32, u32)>
        ensures { MatchOption result (IsUsedUp (left_of self.now)) (λ x. IsLeastLeft (left_of self.now) x.0 x.1) }
    {
        for rank in 0..self.total {
            if let Some(entry) = self.first(rank) {
                return Some((rank, line_of(entry)));
            }
        }
        None
    }
}
