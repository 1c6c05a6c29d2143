ghost use Rattle.std.specs.Prelude.{◌≡◌};
ghost use Rattle.pb_core_language.specs.Lists.{nth};

/// What is known of the loops around, the innermost first: whether a rank takes part in the body for a reason other than the
/// loop's continue.
#[derive(Clone, Copy)]
pub enum Held<'a> {
    Top,
    /// One loop, for the rank in question.
    Just(bool, &'a Held<'a>),
    /// One loop, for each rank by its number.
    Each(&'a [bool], &'a Held<'a>),
}

impl Held<'_> {
    ghost use Rattle.pb_plain.specs.Loops.{held_at};

    /// Whether the rank takes part in the n-th loop around.
    pub fn nth(&self, rank: u64, n: u64) -> bool
        ensures { result ≡ nth (held_at rank self.now) n }
    {
        match self {
            Held::Top => false,
            Held::Just(first, rest) => {
                if n == 0 {
                    *first
                } else {
                    rest.nth(rank, n - 1)
                }
            }
            Held::Each(first, rest) => {
                if n == 0 {
                    entry(first, rank)
                } else {
                    rest.nth(rank, n - 1)
                }
            }
        }
    }
}

/// The table's entry for a rank, false behind its end.
#[tactic(auto, using(crate::proofs::Tables::nth_is, crate::proofs::Tables::nth_past))]
fn entry(table: &[bool], rank: u64) -> bool
    ensures { result ≡ nth table.now rank }
{
    let at = rank as usize;
    if at < table.len() { table[at] } else { false }
}
