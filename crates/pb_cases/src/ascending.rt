ghost use Rattle.std.specs.Prelude.{◌≡◌, ◌≢◌, ℕ, ◌<◌, ◌≤◌, ◌≤ℤ◌, ◌<ℤ◌, length, true, false};
ghost use Rattle.pb_cases.specs.Numbers.{nth, IsAscending};

/// How many numbers of the ascending list are below `m`.
pub(crate) fn place_of(list: &[i64], m: i64) -> usize
    requires { IsAscending list.now }
    ensures within { result ≤ length list.now }
    ensures below { (j : ℕ) → j < result → nth list.now j <ℤ m }
    ensures above { (j : ℕ) → result ≤ j → j < length list.now → m ≤ℤ nth list.now j }
{
    let mut low = 0;
    let mut high = list.len();
    while low < high {
        let mid = low + (high - low) / 2;
        if list[mid] < m {
            low = mid + 1;
        } else {
            high = mid;
        }
    }
    low
}

/// The number at place `i` is `m`.
pub(crate) fn is_at(list: &[i64], i: usize, m: i64) -> bool
    ensures yes { result ≡ true → (i < length list.now) × (nth list.now i ≡ m) }
    ensures no { result ≡ false → i < length list.now → nth list.now i ≢ m }
{
    i < list.len() && list[i] == m
}
