ghost use Rattle.std.specs.Prelude.{◌≡◌, ◌<◌, ◌≤◌, ℕ, Bool, length, vec_capacity};
ghost use Rattle.pb_sim_ready.specs.Kept.{kept, put, has, IsPlace, IsRising};

/// How many of the numbers are below this one.
pub fn place_of(list: &[u32], number: u32) -> usize
    requires { IsRising list.now }
    ensures { IsPlace list.now number result }
{
    let mut low = 0usize;
    let mut high = list.len();
    while low < high {
        let middle = low + (high - low) / 2;
        if list[middle] < number {
            low = middle + 1;
        } else {
            high = middle;
        }
    }
    low
}

/// Whether the number stands at this place.
pub fn stands(list: &[u32], at: usize, number: u32) -> bool
    ensures { result ≡ has list.now at number }
{
    at < list.len() && list[at] == number
}

/// Lists a number below the total or leaves it out. The others stay.
pub fn mark(list: &mut Vec<u32>, total: u32, number: u32, ready: bool)
    requires rising { IsRising list.old.items }
    requires marked { (f : ℕ → Bool) × (list.old.items ≡ kept f total 0) }
    requires room { total ≤ vec_capacity list.old }
    requires below { number < total }
    ensures marked { (f : ℕ → Bool) → list.old.items ≡ kept f total 0 → list.new.items ≡ kept (put f number ready) total 0 }
    ensures room { total ≤ vec_capacity list.new }
{
    let at = place_of(list, number);
    if stands(list, at, number) {
        if !ready {
            let _ = list.remove(at);
        }
    } else if ready {
        list.insert(at, number).unwrap();
    }
}
