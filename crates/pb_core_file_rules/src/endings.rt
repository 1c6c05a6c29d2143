ghost use Rattle.std.specs.Prelude.{◌≡◌, ◌&&◌, ◌||◌, if◌then◌else◌, Some, None, true, map};
ghost use Rattle.pb_syntax.specs.Plain.{plain_block, plain_statement};
ghost use Rattle.pb_syntax.specs.Tree.{statements_of, branches_of};
ghost use Rattle.pb_core_language.specs.FileRules.{can_end, all_can_end, some_can_end, loops_can_end, all_loops_can_end, branches_loops_can_end, place_of, endless_at, endless_in, endless_among};
ghost use Rattle.pb_core_file_rules.specs.Lowering.{first, or_first};

use crate::continues::is_last;
use pb_syntax::{Block, Statement};
use pb_text::Place;

/// How a statement, a block or the branches of a choice end.
#[derive(Clone, Copy)]
pub struct Ending {
    pub can_end: bool,
    /// Each loop in it can end.
    pub loops_can_end: bool,
    /// The first statement in it that another follows, though it can't end or a loop in it can't.
    pub endless: Option<Place>,
}

impl Ending {
    // The end of a statement with no statement in it.
    fn simple() -> Ending
        ensures can { result.can_end ≡ true }
        ensures loops { result.loops_can_end ≡ true }
        ensures first { result.endless ≡ None }
    {
        Ending {
            can_end: true,
            loops_can_end: true,
            endless: None,
        }
    }

    // Whether another statement may follow.
    fn is_free(self) -> bool
        ensures { result ≡ (self.can_end && self.loops_can_end) }
    {
        self.can_end && self.loops_can_end
    }

    // How both end, one behind the other. The first place counts.
    fn then(self, next: Ending) -> Ending
        ensures can { result.can_end ≡ (self.can_end && next.can_end) }
        ensures loops { result.loops_can_end ≡ (self.loops_can_end && next.loops_can_end) }
        ensures first { result.endless ≡ or_first self.endless next.endless }
    {
        Ending {
            can_end: self.can_end && next.can_end,
            loops_can_end: self.loops_can_end && next.loops_can_end,
            endless: earlier(self.endless, next.endless),
        }
    }

    // How one or the other ends.
    fn or(self, other: Ending) -> Ending
        ensures can { result.can_end ≡ (self.can_end || other.can_end) }
        ensures loops { result.loops_can_end ≡ (self.loops_can_end && other.loops_can_end) }
        ensures first { result.endless ≡ or_first self.endless other.endless }
    {
        Ending {
            can_end: self.can_end || other.can_end,
            loops_can_end: self.loops_can_end && other.loops_can_end,
            endless: earlier(self.endless, other.endless),
        }
    }

    // The same with this place before all others, where another statement follows that may not.
    fn at(self, place: Place, is_last: bool) -> Ending
        ensures can { result.can_end ≡ self.can_end }
        ensures loops { result.loops_can_end ≡ self.loops_can_end }
        ensures first { result.endless ≡ or_first (if is_last || (self.can_end && self.loops_can_end) then None else Some place) self.endless }
    {
        if is_last || self.is_free() {
            return self;
        }
        Ending {
            endless: Some(place),
            ..self
        }
    }
}

fn earlier(a: Option<Place>, b: Option<Place>) -> Option<Place>
    ensures { result ≡ or_first a b }
{
    match a {
        Some(place) => Some(place),
        None => b,
    }
}

/// How the statements of the block end.
#[cycle(endings)]
#[tactic(auto, using(crate::proofs::Endless::free_step, crate::proofs::Endless::and_both, crate::proofs::Endless::and_true, crate::proofs::Firsts::or_first_none))]
pub fn ending_in(block: &Block) -> Ending
    ensures can { result.can_end ≡ all_can_end (plain_block block.now).list }
    ensures loops { result.loops_can_end ≡ all_loops_can_end (plain_block block.now).list }
    ensures first { result.endless ≡ first (endless_in (plain_block block.now).list) }
{
    let mut ending = Ending::simple();
    for (i, statement) in block.list.iter().enumerate() {
        let one = ending_at(statement).at(place_of(statement), is_last(&block.list, i));
        ending = ending.then(one);
    }
    ending
}

#[cycle(endings)]
#[tactic(auto, using(crate::proofs::Endless::branch_step, crate::proofs::Endless::or_both, crate::proofs::Endless::or_false, crate::proofs::Endless::and_both, crate::proofs::Endless::and_true, crate::proofs::Firsts::or_first_none))]
fn ending_among(branches: &[Block]) -> Ending
    ensures can { result.can_end ≡ some_can_end (branches_of (map plain_block branches.now)) }
    ensures loops { result.loops_can_end ≡ branches_loops_can_end (branches_of (map plain_block branches.now)) }
    ensures first { result.endless ≡ first (endless_among (branches_of (map plain_block branches.now))) }
{
    let mut ending = Ending {
        can_end: false,
        loops_can_end: true,
        endless: None,
    };
    for branch in branches {
        ending = ending.or(ending_in(branch));
    }
    ending
}

#[cycle(endings)]
fn ending_at(statement: &Statement) -> Ending
    ensures can { result.can_end ≡ can_end (plain_statement statement.now) }
    ensures loops { result.loops_can_end ≡ loops_can_end (plain_statement statement.now) }
    ensures first { result.endless ≡ first (endless_at (plain_statement statement.now)) }
{
    match statement {
        Statement::Continue { .. } => Ending {
            can_end: false,
            ..Ending::simple()
        },
        Statement::Foreach { items, .. } => Ending {
            can_end: true,
            ..ending_in(items)
        },
        Statement::Rec { body, .. } => ending_of_loop(ending_in(body)),
        Statement::Choice { branches, .. } => ending_among(branches),
        Statement::Message { .. }
        | Statement::Compute { .. }
        | Statement::Barrier { .. }
        | Statement::Broadcast { .. }
        | Statement::Reduce { .. }
        | Statement::Allreduce { .. } => Ending::simple(),
    }
}

fn ending_of_loop(body: Ending) -> Ending
    ensures can { result.can_end ≡ body.can_end }
    ensures loops { result.loops_can_end ≡ (body.can_end && body.loops_can_end) }
    ensures first { result.endless ≡ body.endless }
{
    Ending {
        loops_can_end: body.is_free(),
        ..body
    }
}

/// Where the statement begins.
pub fn place_of(statement: &Statement) -> Place
    ensures { result ≡ place_of (plain_statement statement.now) }
{
    match statement {
        Statement::Message { label, .. } => label.place,
        Statement::Foreach { place, .. }
        | Statement::Rec { place, .. }
        | Statement::Continue { place, .. }
        | Statement::Choice { place, .. }
        | Statement::Compute { place, .. }
        | Statement::Barrier { place }
        | Statement::Broadcast { place, .. }
        | Statement::Reduce { place, .. }
        | Statement::Allreduce { place, .. } => *place,
    }
}
