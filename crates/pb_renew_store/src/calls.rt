ghost use Rattle.std.specs.Prelude.{◌≡◌, ◌≤◌};
ghost use Rattle.pb_io.specs.Faults.{next_count};

/// Raises a count by one. It stays at 2^64 - 1.
pub fn count_up(count: &mut u64)
    ensures next { count.new ≡ next_count count.old }
    ensures later { count.old ≤ count.new }
{
    *count = count.saturating_add(1);
}

/// Calls that are numbered from 0, some of which are to fail.
#[derive(Drop)]
pub struct Calls {
    fails: Vec<u64>,
    next: u64,
}

impl Calls {
    /// No call so far. Those with these numbers are to fail.
    pub fn new(fails: Vec<u64>) -> Calls {
        Calls { fails, next: 0 }
    }

    /// The number of calls so far.
    pub fn count(&self) -> u64 {
        self.next
    }

    /// Counts a call, and says whether it is to fail.
    pub fn next_fails(&mut self) -> bool {
        let number = self.next;
        count_up(&mut self.next);
        self.fails.contains(&number)
    }
}
