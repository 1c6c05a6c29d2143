ghost use Rattle.std.specs.Prelude.{◌≡◌};
ghost use Rattle.pb_core_language.specs.Rules.{holds_again, holds_again_among};
ghost use Rattle.pb_plain.specs.View.{view, view_branches};
ghost use Rattle.pb_plain_rules.specs.Depth.{depth_of};

use crate::{Branches, Flat, Within};

/// Whether the block, which stands so far inside a loop, holds a continue of the loop.
#[cycle(again)]
pub fn holds_again(block: &Flat, within: &Within) -> bool
    ensures { result ≡ holds_again (depth_of within.now) (view block.now) }
{
    match block {
        Flat::Stop => false,
        Flat::Message { rest, .. } => holds_again(rest, within),
        Flat::Compute { rest, .. } => holds_again(rest, within),
        Flat::Together { rest, .. } => holds_again(rest, within),
        Flat::Choice { branches, rest, .. } => {
            holds_again_among(branches, within) || holds_again(rest, within)
        }
        Flat::Looped { body, rest, .. } => {
            holds_again(body, &Within::Deeper(&*within)) || holds_again(rest, within)
        }
        Flat::Again { between } => within.is_behind(*between),
    }
}

/// Whether some branch does.
#[cycle(again)]
fn holds_again_among(branches: &Branches, within: &Within) -> bool
    ensures { result ≡ holds_again_among (depth_of within.now) (view_branches branches.now) }
{
    match branches {
        Branches::None => false,
        Branches::Branch { first, rest, .. } => {
            holds_again(first, within) || holds_again_among(rest, within)
        }
    }
}
