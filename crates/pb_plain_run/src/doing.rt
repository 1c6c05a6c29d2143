ghost use Rattle.std.specs.Prelude.{◌≡◌, ◌<◌, ◌∷◌, [], length, MatchOption, IfSome, OnOk};
ghost use Rattle.pb_core_language.specs.Run as R;
ghost use Rattle.pb_core_language.specs.Run.{back};
ghost use Rattle.pb_plain.specs.View.{view};
ghost use Rattle.pb_plain_run.specs.Doing.{opener_of, frame_of, stack_of};

use crate::answers::Remaining;
use pb_plain::{Branches, Flat};
use pb_text::NoMemory;

/// In what a block stands.
#[derive(Clone, Copy)]
pub enum Opener<'a> {
    Top,
    /// A branch of the choice of this rank among these.
    Chosen(u64, &'a Branches),
    /// The body of a loop.
    Body(&'a Flat),
}

/// What is still to do of a block.
#[derive(Clone, Copy)]
pub struct Frame<'a> {
    pub opener: Opener<'a>,
    pub rest: &'a Flat,
}

/// What is still to do, the innermost frame last, and the answers that are left.
#[derive(Drop)]
pub struct Doing<'a> {
    pub stack: Vec<Frame<'a>>,
    pub left: Remaining<'a>,
}

/// A frame inside all others.
pub fn enter<'a>(
    stack: &mut Vec<Frame<'a>>,
    opener: Opener<'a>,
    rest: &'a Flat,
) -> Result<(), NoMemory>
    ensures { OnOk result (stack_of stack.new.items ≡ record { opener = opener_of opener.entry; rest = view rest.now } ∷ stack_of stack.old.items) }
{
    stack.push(Frame { opener, rest })?;
    Ok(())
}

/// The innermost frame is taken off.
pub fn leave<'a>(stack: &mut Vec<Frame<'a>>) -> Option<Frame<'a>>
    ensures less { IfSome result (λ _. length stack.new.items < length stack.old.items) }
    ensures frame { MatchOption result ((stack_of stack.old.items ≡ []) × (stack_of stack.new.items ≡ [])) (λ f. stack_of stack.old.items ≡ frame_of f ∷ stack_of stack.new.items) }
{
    stack.pop()
}

/// What is inside the n-th open loop is dropped, and its body begins anew.
#[tactic(auto, using(crate::proofs::Stacks::back_further))]
pub fn go_back<'a>(stack: &mut Vec<Frame<'a>>, n: u64) -> Result<(), NoMemory>
    ensures { OnOk result (stack_of stack.new.items ≡ back (stack_of stack.old.items) n) }
{
    match leave(stack) {
        None => Ok(()),
        Some(frame) => match frame.opener {
            Opener::Top => go_back(stack, n),
            Opener::Chosen(_, _) => go_back(stack, n),
            Opener::Body(body) => {
                if n == 0 {
                    enter(stack, frame.opener, body)
                } else {
                    go_back(stack, n - 1)
                }
            }
        },
    }
}
