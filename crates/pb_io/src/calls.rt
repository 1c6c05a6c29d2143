ghost use Rattle.std.specs.Prelude.{◌≡◌, ◌≤◌};
ghost use Rattle.pb_io.specs.Faults.{next_count, is_among};
ghost use Rattle.pb_io.specs.Passed.{count_after};

/// Raises a count by one. It stays at 2^64 - 1.
pub fn count_up(count: &mut u64)
    ensures next { count.new ≡ next_count count.old }
    ensures later { count.old ≤ count.new }
{
    *count = count.saturating_add(1);
}

/// Raises a count of bytes by so many. It stays at 2^64 - 1.
pub fn count_bytes(count: &mut u64, more: usize)
    ensures { count.new ≡ count_after count.old more }
{
    *count = count.saturating_add(more as u64);
}

/// Calls that are numbered from 0, some of which are to fail.
#[derive(Drop)]
pub struct Calls {
    fails: Vec<u64>,
    next: u64,
}

impl Calls {
    /// No call so far. Those with these numbers are to fail.
    pub fn new(fails: Vec<u64>) -> Calls
        ensures fails { result.fails.items ≡ fails.items }
        ensures next { result.next ≡ 0 }
    {
        Calls { fails, next: 0 }
    }

    /// Counts a call, and says whether it is to fail.
    pub fn next_fails(&mut self) -> bool
        ensures fails { result ≡ is_among self.old.next self.old.fails.items }
        ensures next { self.new.next ≡ next_count self.old.next }
        ensures same { self.new.fails.items ≡ self.old.fails.items }
    {
        let number = self.next;
        count_up(&mut self.next);
        self.fails.contains(&number)
    }
}
