ghost use Rattle.std.specs.Prelude.{◌≡◌, ◌≤◌, ◌^◌, MatchOption};
ghost use Rattle.pb_core_language.specs.Flat.{count, ending, first_ending, branch_at, stop};
ghost use Rattle.pb_plain.specs.View.{view, view_branches};

use pb_plain::{Branches, Flat, can_end};

/// How many branches there are. None exactly where 64 bits can't count them.
pub fn count(branches: &Branches) -> Option<u64>
    ensures { MatchOption result (2 ^ 64 ≤ count (view_branches branches.now)) (λ n. n ≡ count (view_branches branches.now)) }
{
    match branches {
        Branches::None => Some(0),
        Branches::Branch { rest, .. } => match count(rest) {
            Some(n) => n.checked_add(1),
            None => None,
        },
    }
}

/// The first branch that can end, or branch 0 where none of so many can.
pub fn first_ending(branches: &Branches, number: u64) -> u64
    requires { number ≡ count (view_branches branches.now) }
    ensures { result ≡ first_ending (view_branches branches.now) }
{
    let found = ending(branches, number);
    if found < number { found } else { 0 }
}

fn ending(branches: &Branches, number: u64) -> u64
    requires { number ≡ count (view_branches branches.now) }
    ensures found { result ≡ ending (view_branches branches.now) }
    ensures most { result ≤ number }
{
    match branches {
        Branches::None => 0,
        Branches::Branch { first, rest, .. } => {
            if can_end(first) {
                0
            } else {
                ending(rest, number - 1) + 1
            }
        }
    }
}

/// The branch with a number. Where there is none, there is nothing to do.
pub fn branch_at<'a>(branches: &'a Branches, at: u64, nothing: &'a Flat) -> &'a Flat
    requires { view nothing.now ≡ stop }
    ensures { view result.now ≡ branch_at at (view_branches branches.now) }
{
    match branches {
        Branches::None => nothing,
        Branches::Branch { first, rest, .. } => {
            if at == 0 {
                first
            } else {
                branch_at(rest, at - 1, nothing)
            }
        }
    }
}
