ghost use Rattle.std.specs.Prelude.{◌≡◌};
ghost use Rattle.pb_cases.specs.Roles.{is_earlier_than, earlier};

/// A rank of some N: where a search ended.
#[derive(Clone, Copy, PartialEq, Eq)]
pub struct Bad {
    /// The number N.
    pub n: i64,
    /// The rank's role.
    pub role: u32,
    /// The rank's index in its role.
    pub index: i64,
}

/// True where `bad` comes before the best so far, by N, then role, then index.
fn is_earlier_than(bad: Bad, best: Option<Bad>) -> bool
    ensures { result ≡ is_earlier_than bad.n bad.role bad.index best }
{
    match best {
        None => true,
        Some(best) => {
            bad.n < best.n
                || bad.n == best.n
                    && (bad.role < best.role || bad.role == best.role && bad.index < best.index)
        }
    }
}

/// The earlier of two answers, where there is one.
pub(crate) fn earlier(best: Option<Bad>, found: Option<Bad>) -> Option<Bad>
    ensures { result ≡ earlier best found }
{
    match found {
        Some(bad) if is_earlier_than(bad, best) => Some(bad),
        _ => best,
    }
}
