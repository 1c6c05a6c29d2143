ghost use Rattle.std.specs.Prelude.{◌≡◌, ◌≤◌, false, map, IfOk};
ghost use Rattle.pb_syntax.specs.Tree.{message, foreach, loop, again, choice, compute, barrier, broadcast, reduce, allreduce, statements_of, branches_of};
ghost use Rattle.pb_syntax.specs.Plain.{plain_statement, plain_block};
ghost use Rattle.pb_do_syntax.specs.Plain as C;
ghost use Rattle.pb_do_syntax.specs.Plain.{plain_sub};
ghost use Rattle.pb_do_syntax.specs.Inlining.{renamed, renamed_end, over_limit, place_or};
ghost use Rattle.pb_do_inline.specs.Ends.{written, roles_of, Adds};
ghost use Rattle.pb_do_inline.specs.Frames.{grown_by};

use crate::copies::copied_range;
use crate::frame::Frame;
use crate::halt::Halt;
use crate::output::Output;
use crate::site::Site;
use crate::subs::Subs;
use pb_do_syntax::CallBlock;
use pb_syntax::{Block, End, Op, Payload, RangeText, Spot, Statement};
use pb_text::Place;

impl Site {
    /// The place of the statement of the protocol that this one is or comes from.
    pub(crate) fn blamed(&self, place: Place) -> Place
        ensures { result ≡ place_or self.now.root place }
    {
        match self.root {
            Some(root) => root,
            None => place,
        }
    }

    /// Counts and writes a statement without braces.
    pub(crate) fn add(
        &self,
        statement: Statement,
        place: Place,
        left: usize,
        out: &mut Output,
    ) -> Result<Option<Frame>, Halt>
        ensures adds { Adds result (over_limit false left out.old.count.n) (place_or self.now.root place) (plain_statement statement) (written out.old) (written out.new) }
        ensures grows { IfOk result (λ next. grown_by next out.old.count.n ≤ out.new.count.n) }
    {
        out.count_one(false, left, self.blamed(place))?;
        out.push(statement)?;
        Ok(None)
    }
}

pub(crate) fn again(place: Place, name: &Spot) -> Statement
    ensures { plain_statement result ≡ again place name.now }
{
    Statement::Continue { place, name: *name }
}

pub(crate) fn barrier(place: Place) -> Statement
    ensures { plain_statement result ≡ barrier place }
{
    Statement::Barrier { place }
}

pub(crate) fn allreduce(place: Place, label: &Spot, payload: Payload, op: Op) -> Statement
    ensures { plain_statement result ≡ allreduce place label.now payload op }
{
    Statement::Allreduce {
        place,
        label: *label,
        payload,
        op,
    }
}

/// A `foreach` with these items in place of its own.
pub(crate) fn iteration(
    place: Place,
    var: &Spot,
    range: &RangeText,
    items: &CallBlock,
    list: Vec<Statement>,
) -> Statement
    ensures { plain_statement result ≡ foreach place var.now range.now (C.plain_block items.now).place (statements_of (map plain_statement list.items)) }
{
    Statement::Foreach {
        place,
        var: *var,
        range: copied_range(range),
        items: Block {
            place: items.place,
            list,
        },
    }
}

/// A loop with these statements in place of its own.
pub(crate) fn named_loop(
    place: Place,
    name: &Spot,
    body: &CallBlock,
    list: Vec<Statement>,
) -> Statement
    ensures { plain_statement result ≡ loop place name.now (C.plain_block body.now).place (statements_of (map plain_statement list.items)) }
{
    Statement::Rec {
        place,
        name: *name,
        body: Block {
            place: body.place,
            list,
        },
    }
}

impl Subs<'_> {
    pub(crate) fn offer(
        &self,
        place: Place,
        kernel: &Spot,
        at: &End,
        site: &Site,
        branches: Vec<Block>,
    ) -> Statement
        ensures { plain_statement result ≡ choice place kernel.now (renamed_end (roles_of (map plain_sub self.now.list.now) site.now) at.now) (branches_of (map plain_block branches.items)) }
    {
        Statement::Choice {
            place,
            kernel: *kernel,
            at: self.end(site, at),
            branches,
        }
    }

    pub(crate) fn message(
        &self,
        label: &Spot,
        payload: Payload,
        from: &End,
        to: &End,
        site: &Site,
    ) -> Statement
        ensures { plain_statement result ≡ renamed (roles_of (map plain_sub self.now.list.now) site.now) (message label.now payload from.now to.now) }
    {
        Statement::Message {
            label: *label,
            payload,
            from: self.end(site, from),
            to: self.end(site, to),
        }
    }

    pub(crate) fn compute(&self, place: Place, kernel: &Spot, at: &End, site: &Site) -> Statement
        ensures { plain_statement result ≡ renamed (roles_of (map plain_sub self.now.list.now) site.now) (compute place kernel.now at.now) }
    {
        Statement::Compute {
            place,
            kernel: *kernel,
            at: self.end(site, at),
        }
    }

    pub(crate) fn broadcast(
        &self,
        place: Place,
        label: &Spot,
        payload: Payload,
        from: &End,
        site: &Site,
    ) -> Statement
        ensures { plain_statement result ≡ renamed (roles_of (map plain_sub self.now.list.now) site.now) (broadcast place label.now payload from.now) }
    {
        Statement::Broadcast {
            place,
            label: *label,
            payload,
            from: self.end(site, from),
        }
    }

    pub(crate) fn reduce(
        &self,
        place: Place,
        label: &Spot,
        payload: Payload,
        op: Op,
        to: &End,
        site: &Site,
    ) -> Statement
        ensures { plain_statement result ≡ renamed (roles_of (map plain_sub self.now.list.now) site.now) (reduce place label.now payload op to.now) }
    {
        Statement::Reduce {
            place,
            label: *label,
            payload,
            op,
            to: self.end(site, to),
        }
    }
}
