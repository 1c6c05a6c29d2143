ghost use Rattle.std.specs.Prelude.{◌≡◌, map};
ghost use Rattle.pb_syntax.specs.Tree as tree;
ghost use Rattle.pb_syntax.specs.Tree.{statements_of, branches_of};
ghost use Rattle.pb_syntax.specs.Plain.{plain_statement, plain_block};
ghost use Rattle.pb_strips_syntax.specs.Strips.{message, again, compute, barrier, broadcast, reduce, allreduce};
ghost use Rattle.pb_strips_flatten.specs.Parts.{part_at};
ghost use Rattle.pb_strips_flatten.specs.Ends.{written, Ends};

use crate::copies::copied_range;
use crate::output::Output;
use crate::round::Round;
use crate::stop::Stop;
use pb_strips_syntax::StripEnd;
use pb_syntax::{Block, End, Op, Payload, RangeText, Statement};
use pb_text::{Place, Spot};

/// A `foreach` with these statements.
pub(crate) fn iteration(
    place: Place,
    var: &Spot,
    range: &RangeText,
    at: Place,
    list: Vec<Statement>,
) -> Statement
    ensures { plain_statement result ≡ tree.foreach place var.now range.now at (statements_of (map plain_statement list.items)) }
{
    Statement::Foreach {
        place,
        var: *var,
        range: copied_range(range),
        items: Block { place: at, list },
    }
}

/// A loop with these statements.
pub(crate) fn named_loop(place: Place, name: &Spot, at: Place, list: Vec<Statement>) -> Statement
    ensures { plain_statement result ≡ tree.loop place name.now at (statements_of (map plain_statement list.items)) }
{
    Statement::Rec {
        place,
        name: *name,
        body: Block { place: at, list },
    }
}

/// A choice with these branches.
pub(crate) fn offer(place: Place, kernel: &Spot, at: End, branches: Vec<Block>) -> Statement
    ensures { plain_statement result ≡ tree.choice place kernel.now at (branches_of (map plain_block branches.items)) }
{
    Statement::Choice {
        place,
        kernel: *kernel,
        at,
        branches,
    }
}

impl Output {
    pub(crate) fn message(
        &mut self,
        round: Round,
        label: &Spot,
        payload: Payload,
        from: &StripEnd,
        to: &StripEnd,
    ) -> Result<(), Stop>
        ensures { Ends result (λ _. written self.new) (part_at (message label.now payload from.now to.now) round.value) (written self.old) }
    {
        let from = round.end(from)?;
        let to = round.end(to)?;
        let statement = Statement::Message {
            label: *label,
            payload,
            from,
            to,
        };
        self.add(statement, label.place)
    }

    pub(crate) fn again(&mut self, round: Round, place: Place, name: &Spot) -> Result<(), Stop>
        ensures { Ends result (λ _. written self.new) (part_at (again place name.now) round.value) (written self.old) }
    {
        self.add(Statement::Continue { place, name: *name }, place)
    }

    pub(crate) fn compute(
        &mut self,
        round: Round,
        place: Place,
        kernel: &Spot,
        at: &StripEnd,
    ) -> Result<(), Stop>
        ensures { Ends result (λ _. written self.new) (part_at (compute place kernel.now at.now) round.value) (written self.old) }
    {
        let at = round.end(at)?;
        let statement = Statement::Compute {
            place,
            kernel: *kernel,
            at,
        };
        self.add(statement, place)
    }

    pub(crate) fn barrier(&mut self, round: Round, place: Place) -> Result<(), Stop>
        ensures { Ends result (λ _. written self.new) (part_at (barrier place) round.value) (written self.old) }
    {
        self.add(Statement::Barrier { place }, place)
    }

    pub(crate) fn broadcast(
        &mut self,
        round: Round,
        place: Place,
        label: &Spot,
        payload: Payload,
        from: &StripEnd,
    ) -> Result<(), Stop>
        ensures { Ends result (λ _. written self.new) (part_at (broadcast place label.now payload from.now) round.value) (written self.old) }
    {
        let from = round.end(from)?;
        let statement = Statement::Broadcast {
            place,
            label: *label,
            payload,
            from,
        };
        self.add(statement, place)
    }

    pub(crate) fn reduce(
        &mut self,
        round: Round,
        place: Place,
        label: &Spot,
        payload: Payload,
        op: Op,
        to: &StripEnd,
    ) -> Result<(), Stop>
        ensures { Ends result (λ _. written self.new) (part_at (reduce place label.now payload op to.now) round.value) (written self.old) }
    {
        let to = round.end(to)?;
        let statement = Statement::Reduce {
            place,
            label: *label,
            payload,
            op,
            to,
        };
        self.add(statement, place)
    }

    pub(crate) fn allreduce(
        &mut self,
        round: Round,
        place: Place,
        label: &Spot,
        payload: Payload,
        op: Op,
    ) -> Result<(), Stop>
        ensures { Ends result (λ _. written self.new) (part_at (allreduce place label.now payload op) round.value) (written self.old) }
    {
        let statement = Statement::Allreduce {
            place,
            label: *label,
            payload,
            op,
        };
        self.add(statement, place)
    }
}
