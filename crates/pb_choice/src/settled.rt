ghost use Rattle.std.specs.Prelude.{◌≡◌, true, map, drop};
ghost use Rattle.pb_core_language.specs.Plain.{plain_block, branches_of};
ghost use Rattle.pb_choice.specs.Settled.{IsSettled, AreSettled};

use crate::found::Found;
use pb_core_language::CoreBlock;

/// True only where no breach of the rules 10 to 12 at any of the branches from one on is before the best so far.
pub fn are_settled(branches: &[CoreBlock], from: usize, best: Option<Found>) -> bool
    ensures { result ≡ true → AreSettled best (branches_of (map plain_block (drop from branches.now))) }
{
    for i in from..branches.len() {
        if !is_settled(best, branches[i].number) {
            return false;
        }
    }
    true
}

// The same of a branch with this number.
fn is_settled(best: Option<Found>, number: u32) -> bool
    ensures { result ≡ true → IsSettled best number }
{
    match best {
        None => false,
        Some(found) => found.rule < 10 || (found.rule == 10 && found.mark.number < number),
    }
}
