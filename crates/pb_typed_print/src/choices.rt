//! How the branch of a choice is chosen and told.

ghost use Rattle.std.specs.Prelude.{◌≡◌, ◌++◌, ◌+◌, ◌<◌, ◌^◌, OnOk};
ghost use Rattle.pb_local.specs.Tree.{program_of};
ghost use Rattle.pb_typed_print.specs.Written.{choice_front};

use pb_cprint::push_told;
use pb_cprint_lines::push_if;
use pb_ctree::{Guard, Local, NoMemory, Peer, Relay, Test};
use pb_typed_actions::push_choose;
use pb_typed_types::Carried;

/// Appends what stands before the branches of a choice.
#[tactic(auto, unfolding(crate::specs::Written::choice_front))]
pub fn push_choice(
    local: &Local,
    types: &[Carried],
    out: &mut Vec<u8>,
    depth: usize,
    who: Guard,
    kernel: u32,
    branches: usize,
    relays: &[Relay],
    from: Peer,
    tests: &[Test],
) -> Result<(), NoMemory>
    requires { depth + 2 < 2 ^ 64 }
    ensures { OnOk result (out.new.items ≡ out.old.items ++ choice_front (program_of local.now) depth who kernel branches relays.now from tests.now) }
{
    push_if(local, out, depth, &[who])?;
    push_choose(local, types, out, depth + 1, kernel, branches)?;
    push_told(local, out, depth, relays, from, tests)
}
