ghost use Rattle.std.specs.Prelude.{◌≡◌, ℕ, ◌+◌, ◌<◌, ◌≤◌, ◌⊎◌, length, take, true, false};
ghost use Rattle.pb_diff.specs.Systems.{with_constraint, has_pair, is_on, at};

/// `a - b <= c`, for the variables a and b.
#[derive(Clone, Copy)]
pub struct Constraint {
    pub a: u8,
    pub b: u8,
    pub c: i64,
}

/// The place of the constraint on the pair, or the length where there is none.
fn place(constraints: &[Constraint], a: u8, b: u8) -> usize
    ensures within { result ≤ length constraints.now }
    ensures before { (j : ℕ) → j < result → is_on a b (at constraints.now j) ≡ false }
    ensures found { result < length constraints.now → is_on a b (at constraints.now result) ≡ true }
{
    for (i, k) in constraints.iter().enumerate() {
        if k.a == a && k.b == b {
            return i;
        }
    }
    constraints.len()
}

/// Puts the constraint into the first `count` ones, and gives their new number.
pub(crate) fn put(kept: &mut [Constraint; 16], count: usize, k: Constraint) -> usize
    requires within { count ≤ 16 }
    requires room { (has_pair k.a k.b (take count kept.old) ≡ true) ⊎ (count < 16) }
    ensures kept { take result kept.new ≡ with_constraint k (take count kept.old) }
    ensures within { result ≤ 16 }
{
    let i = place(&kept[..count], k.a, k.b);
    if i == count {
        kept[i] = k;
        return count + 1;
    }
    if k.c < kept[i].c {
        kept[i] = k;
    }
    count
}
