ghost use Rattle.std.specs.Prelude.{◌++◌, ◌∷◌, [], ◌≡◌, OnOk};
ghost use Rattle.pb_plain_run.specs.View.{full_action, actions_of};

use pb_plain::Collective;
use pb_text::{NoMemory, Words};

/// What one rank does, in full: a choice says among how many branches it was, and the entry into a collective, and the
/// leaving of one, the whole collective. Ranks are given by their numbers.
#[derive(Drop)]
pub enum FullAction {
    Choose {
        kernel: u32,
        branches: u64,
        branch: u64,
    },
    Run {
        kernel: u32,
    },
    Send {
        to: u64,
        label: u32,
        words: Words,
    },
    Recv {
        from: u64,
        label: u32,
        words: Words,
    },
    Enter {
        joint: Collective,
        words: Words,
    },
    Leave {
        joint: Collective,
        words: Words,
    },
}

/// An action with the rank that does it.
#[derive(Drop)]
pub struct RankAction {
    pub rank: u64,
    pub action: FullAction,
}

/// An action goes last.
pub fn add(out: &mut Vec<RankAction>, rank: u64, action: FullAction) -> Result<(), NoMemory>
    ensures { OnOk result (actions_of out.new.items ≡ actions_of out.old.items ++ (rank, full_action action) ∷ []) }
{
    out.push(RankAction { rank, action })?;
    Ok(())
}
